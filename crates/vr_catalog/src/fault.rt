//! Why a command on a catalog is refused.
ghost use Rattle.std.specs.Prelude.{◌≡◌};
ghost use Rattle.vr_catalog.specs.Fault.{fault_number, fault_code};

/// Why a command on a catalog is refused, each with the number that its report shows.
#[derive(Clone, Copy, PartialEq, Eq)]
pub enum CatFault {
    /// 1: the new name is in use.
    NameTaken,
    /// 2: no entry has the name.
    NotFound,
    /// 3: the entry is of another kind than the command needs.
    WrongKind,
    /// 4: there is no such volume, or it isn't that of the base.
    NoVolume,
    /// 5: the key ends past the longest record.
    KeyPastRecord,
    /// 6: no records of these sizes fit.
    RecordSize,
    /// 7: an area would hold fewer than two intervals with keys of that length.
    FewIntervals,
    /// 8: no area is free, or a first area is missing.
    NoArea,
    /// 9: an alternate index can't stand over a relative data set or over an alternate index.
    WrongBase,
    /// 10: the base has as many alternate indexes as it may have.
    TooManyAlternates,
    /// 11: the alternate index is built already.
    AlreadyBuilt,
    /// 12: the two data sets don't go together.
    NotTogether,
    /// 13: two records of the base have one key of a unique alternate index.
    DuplicateKey,
    /// 14: the catalog is full.
    CatalogFull,
    /// Memory ran out. It has no number.
    Memory,
}

impl CatFault {
    /// The number that a report shows, 0 where memory ran out.
    pub fn number(self) -> u8
        ensures { result ≡ fault_number self }
    {
        match self {
            CatFault::NameTaken => 1,
            CatFault::NotFound => 2,
            CatFault::WrongKind => 3,
            CatFault::NoVolume => 4,
            CatFault::KeyPastRecord => 5,
            CatFault::RecordSize => 6,
            CatFault::FewIntervals => 7,
            CatFault::NoArea => 8,
            CatFault::WrongBase => 9,
            CatFault::TooManyAlternates => 10,
            CatFault::AlreadyBuilt => 11,
            CatFault::NotTogether => 12,
            CatFault::DuplicateKey => 13,
            CatFault::CatalogFull => 14,
            CatFault::Memory => 0,
        }
    }

    /// The condition code of a command that meets it: 8 or 12, and 0 where memory ran out.
    pub fn code(self) -> u8
        ensures { result ≡ fault_code self }
    {
        match self {
            CatFault::Memory => 0,
            CatFault::NotFound | CatFault::WrongKind | CatFault::DuplicateKey => 8,
            _ => 12,
        }
    }
}

impl From<vr_types::OutOfMemory> for CatFault {
    ghost use Rattle.std.specs.Prelude.{◌≡◌};
    ghost use Rattle.vr_catalog.specs.declared.fault.CatFault.TheVariants.{Memory};

    ghost from_gives = { λ _ fault. fault ≡ Memory };

    fn from(_error: vr_types::OutOfMemory) -> CatFault {
        CatFault::Memory
    }
}
