//! What the commands DEFINE and ALTER of Access Method Services state.

use crate::entry::{FreeSpace, ShareOptions, SpaceUnit};
use vr_types::{Kind, Name};

/// What clusters and alternate indexes are defined with. KEYS of a cluster that isn't key-sequenced
/// counts for nothing.
#[derive(Drop)]
pub struct DataOptions {
    /// KEYS, in bytes.
    pub key_length: u16,
    pub key_offset: u16,
    /// RECORDSIZE, in bytes.
    pub average: u32,
    pub maximum: u32,
    pub free_space: FreeSpace,
    pub share_options: ShareOptions,
    pub space: SpaceUnit,
    pub primary: u32,
    pub secondary: u32,
    /// CONTROLINTERVALSIZE, 0 where it isn't stated.
    pub interval_size: u32,
    /// The names of the data and of the index component.
    pub data_name: Option<Name>,
    pub index_name: Option<Name>,
    /// The three classes, names without a dot.
    pub storage_class: Option<Name>,
    pub data_class: Option<Name>,
    pub management_class: Option<Name>,
}

/// What DEFINE adds. `related` is the name in RELATE or PATHENTRY.
#[derive(Drop)]
pub enum NewEntry {
    Cluster {
        kind: Kind,
        spanned: bool,
        options: DataOptions,
    },
    Alternate {
        related: Name,
        unique: bool,
        options: DataOptions,
    },
    Path {
        related: Name,
    },
}

/// DEFINE: the name of the new entry, and what it is.
#[derive(Drop)]
pub struct Define {
    pub name: Name,
    pub what: NewEntry,
}

/// ALTER: the name of an entry, and what it gets.
#[derive(Drop)]
pub struct Alter {
    pub name: Name,
    pub new_name: Option<Name>,
    pub free_space: Option<FreeSpace>,
    pub share_options: Option<ShareOptions>,
}
