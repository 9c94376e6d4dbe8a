//! The shape of a volume, and the sizes that its blocks may have.
ghost use Rattle.std.specs.Prelude.{◌≡◌, ◌↔◌, ◌<◌, IsTrue};
ghost use Rattle.vr_types.specs.BlockSize.{IsBlockSize};

/// The shape of a volume: block 0, the log, and then areas of a head block and their intervals. A
/// call that takes blocks beside a geometry wants that `size` and `blocks` are theirs.
#[derive(Clone, Copy, PartialEq, Eq)]
pub struct Geometry {
    /// The bytes of a block.
    pub size: u32,
    /// The number of blocks.
    pub blocks: u32,
    /// The blocks of the log, from block 1 on.
    pub log: u32,
    /// The intervals of one area, beside its head.
    pub area: u32,
}

impl Geometry {
    ghost use Rattle.vr_types.specs.Geometry.{IsAllowed, area_count, head_block};

    /// Whether a volume may have this shape: blocks of an allowed size, 1 to 65,535 blocks of log,
    /// 2 to 255 intervals an area, room for two areas, and at most 2^31 bytes.
    pub fn is_allowed(self) -> bool
        ensures { IsTrue result ↔ IsAllowed self }
    {
        let least = 1 + self.log as u64 + 2 * (self.area as u64 + 1);
        is_block_size(self.size as usize)
            && 1 <= self.log
            && self.log <= 65_535
            && 2 <= self.area
            && self.area <= 255
            && least <= self.blocks as u64
            && self.size as u64 * self.blocks as u64 <= 1 << 31
    }

    /// How many areas there are.
    pub fn areas(self) -> u32
        ensures { result ≡ area_count self }
    {
        let blocks = self.blocks.saturating_sub(1).saturating_sub(self.log);
        (blocks as u64 / (self.area as u64 + 1)) as u32
    }

    /// The head block of an area.
    pub fn head_block(self, area: u32) -> u32
        requires { area < area_count self }
        ensures { result ≡ head_block self area }
    {
        1 + self.log + area * (self.area + 1)
    }
}

/// Whether a block may have this size in bytes: a multiple of 512 up to 8,192, or of 2,048 up to
/// 32,768 (DFSMS Using Data Sets, control interval size).
pub fn is_block_size(size: usize) -> bool
    ensures { IsTrue result ↔ IsBlockSize size }
{
    let step = if size <= 8192 { 512 } else { 2048 };
    size > 0 && size <= 32768 && size % step == 0
}
