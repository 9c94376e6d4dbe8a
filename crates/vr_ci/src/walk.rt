//! Control intervals of records, found without looking for the fault of a block that is none.

ghost use Rattle.std.specs.Prelude.{◌≡◌, ◌+◌, ◌-◌, ◌*◌, ◌^◌, ◌<◌, ◌≤◌, ◌↔◌, ℕ, List, ◌∷◌, length};
ghost use Rattle.std.specs.Prelude.{drop, take, replicate, true, false, IsTrue, IfSome};
ghost use Rattle.vr_ci_match.specs.declared.rdf.Rdf.TheVariants.{Single, Run};
ghost use Rattle.vr_types.specs.BlockSize.{IsBlockSize};
ghost use Rattle.vr_ci_match.specs.Rdf.{two_bytes, rdf_bytes};
ghost use Rattle.vr_ci_match.specs.Fault.{cidf_at, free_end};
ghost use Rattle.vr_ci.specs.Found.{IsFound};
ghost use Rattle.vr_ci.specs.Walk.{MayStand, HasRoom, IsWalked};

use vr_ci_match::{Cidf, Form, Found, Shape, slots};

/// How far the RDFs of a block were walked, from the right.
#[derive(Clone, Copy)]
pub(crate) struct Walk {
    /// Where the RDF or pair begins that was read last.
    pub end: usize,
    /// How many bytes the records have.
    pub span: usize,
    /// How many records there are.
    pub count: usize,
    /// The length of the live records that were read last, or 0.
    pub run: u16,
}

/// What the block holds, if it is a control interval of records. Where it is none, or one of
/// another shape, there is no answer: then `match_block` looks at it more closely.
pub(crate) fn records_found(form: Form, bytes: &[u8]) -> Option<Found>
    requires { IsBlockSize (length bytes.now) }
    ensures { IfSome result (IsFound form bytes.now) }
{
    let top = bytes.len() - 4;
    let cidf = Cidf::of(bytes);
    let low = cidf.displacement + cidf.free;
    if low > top {
        return None;
    }
    let walk = walk_of(form, bytes, low)?;
    if walk.end != low || walk.span != cidf.displacement || !walk.has_room(form, bytes.len()) {
        return None;
    }
    if !is_zero(bytes, walk.span, low) {
        return None;
    }
    Some(Found {
        shape: Shape::Records,
        count: walk.count,
        low,
        busy: cidf.busy,
    })
}

/// All RDFs from where the CIDF says that they begin, if they are of records that a block of the
/// form may have. The walk is inlined for each form, so that its loop does not ask which one it is.
fn walk_of(form: Form, bytes: &[u8], low: usize) -> Option<Walk>
    requires size { IsBlockSize (length bytes.now) }
    requires low { low ≡ free_end bytes.now }
    requires fits { low ≤ cidf_at bytes.now }
    ensures { IfSome result (IsWalked form bytes.now) }
{
    match form {
        Form::Plain => walk_in(Form::Plain, bytes, low),
        Form::Slots { length } => walk_in(Form::Slots { length }, bytes, low),
    }
}

/// The same, as a loop.
#[inline(always)]
fn walk_in(form: Form, bytes: &[u8], low: usize) -> Option<Walk>
    requires size { IsBlockSize (length bytes.now) }
    requires low { low ≡ free_end bytes.now }
    requires fits { low ≤ cidf_at bytes.now }
    ensures { IfSome result (IsWalked form bytes.now) }
{
    let mut walk = Walk {
        end: bytes.len() - 4,
        span: 0,
        count: 0,
        run: 0,
    };
    'rdfs: while low + 3 <= walk.end {
        walk = walk.further(form, bytes, low)?;
    }
    Some(walk)
}

impl Walk {
    /// One RDF or pair further.
    fn further(self, form: Form, bytes: &[u8], low: usize) -> Option<Walk>
        requires walked { IsWalked form bytes.now self }
        requires size { length bytes.now ≤ 32768 }
        requires low { low ≡ free_end bytes.now }
        requires place { low + 3 ≤ self.end }
        ensures walked { IfSome result (IsWalked form bytes.now) }
        ensures fewer { IfSome result (λ next. next.end < self.end) }
    {
        let flags = bytes[self.end - 3];
        let width = u16::from_be_bytes([bytes[self.end - 2], bytes[self.end - 1]]);
        if width == 0 {
            return None;
        }
        match flags {
            0x00 => self.with_live(form, width),
            0x04 => self.with_withdrawn(form, bytes, low, width),
            0x40 => self.with_run(form, bytes, low, width),
            _ => None,
        }
    }

    /// A live record of this length further.
    fn with_live(self, form: Form, width: u16) -> Option<Walk>
        requires place { 3 ≤ self.end }
        requires some { 0 < width }
        requires span { self.span < 2 ^ 48 }
        requires count { self.count < 2 ^ 48 }
        ensures walked { (block : List ℕ) → IsWalked form block self → free_end block + 3 ≤ self.end
            → take 3 (drop (self.end - 3) block) ≡ rdf_bytes (Single true width)
            → IfSome result (IsWalked form block) }
        ensures fewer { IfSome result (λ next. next.end < self.end) }
    {
        if !may_stand(form, self.run, width) {
            return None;
        }
        Some(Walk {
            end: self.end - 3,
            span: self.span + usize::from(width),
            count: self.count + 1,
            run: width,
        })
    }

    /// A withdrawn record of this length further, or an empty slot: its bytes are zero.
    fn with_withdrawn(self, form: Form, bytes: &[u8], low: usize, width: u16) -> Option<Walk>
        requires walked { IsWalked form bytes.now self }
        requires some { 0 < width }
        requires low { low ≡ free_end bytes.now }
        requires place { low + 3 ≤ self.end }
        requires rdf { take 3 (drop (self.end - 3) bytes.now) ≡ rdf_bytes (Single false width) }
        ensures walked { IfSome result (IsWalked form bytes.now) }
        ensures fewer { IfSome result (λ next. next.end < self.end) }
    {
        let span = self.span + usize::from(width);
        if span > low || !may_stand(form, 0, width) || !is_zero(bytes, self.span, span) {
            return None;
        }
        Some(Walk {
            end: self.end - 3,
            span,
            count: self.count + 1,
            run: 0,
        })
    }

    /// A run of live records of this length further: a pair, which has its count to the left.
    fn with_run(self, form: Form, bytes: &[u8], low: usize, width: u16) -> Option<Walk>
        requires walked { IsWalked form bytes.now self }
        requires some { 0 < width }
        requires low { low ≡ free_end bytes.now }
        requires place { low + 3 ≤ self.end }
        requires rdf { take 3 (drop (self.end - 3) bytes.now) ≡ 64 ∷ two_bytes width }
        ensures walked { IfSome result (IsWalked form bytes.now) }
        ensures fewer { IfSome result (λ next. next.end < self.end) }
    {
        if self.end - low < 6 || bytes[self.end - 6] != 0x08 {
            return None;
        }
        let count = u16::from_be_bytes([bytes[self.end - 5], bytes[self.end - 4]]);
        if form != Form::Plain || count < 2 || !may_stand(form, self.run, width) {
            return None;
        }
        Some(Walk {
            end: self.end - 6,
            span: self.span + usize::from(width) * usize::from(count),
            count: self.count + usize::from(count),
            run: width,
        })
    }

    /// Whether a block of this size has room for the records, and for no slot more.
    fn has_room(self, form: Form, size: usize) -> bool
        requires size { (4 ≤ size) × (size ≤ 32768) }
        requires count { self.count < 2 ^ 48 }
        requires span { self.span < 2 ^ 48 }
        ensures { IsTrue result ↔ HasRoom form size self }
    {
        match form {
            Form::Plain => self.span + 3 * self.count <= size - 4,
            Form::Slots { length } => self.count == slots(size, length),
        }
    }
}

/// Whether a live record may have this length to the left of live ones of the length `run`.
fn may_stand(form: Form, run: u16, width: u16) -> bool
    ensures { IsTrue result ↔ MayStand form run width }
{
    match form {
        Form::Plain => width != run,
        Form::Slots { length } => width == length,
    }
}

/// Whether the bytes between the two places are zero. It looks at all of them, which processors do
/// many at a time.
#[inline(never)]
fn is_zero(bytes: &[u8], from: usize, to: usize) -> bool
    requires order { from ≤ to }
    requires within { to ≤ length bytes.now }
    ensures { IsTrue result → take (to - from) (drop from bytes.now) ≡ replicate (to - from) 0 }
{
    let mut zero = true;
    for i in from..to {
        zero &= bytes[i] == 0;
    }
    zero
}
