//! An entry of the catalog, with what DEFINE of Access Method Services Commands states of it.
ghost use Rattle.std.specs.Prelude.{◌≡◌, IfOk};

use crate::definition::Definition;
use crate::names::{copy_classes, copy_components};
use std::alloc::Global;
use vr_types::{AreaNo, Kind, Name, OutOfMemory, PartNo};

/// What an entry describes.
#[derive(Clone, Copy, PartialEq, Eq)]
pub enum EntryKind {
    Cluster,
    Alternate,
    Path,
}

/// FREESPACE: the parts of a hundred of each control interval and of each control area that loading
/// leaves free.
#[derive(Clone, Copy, PartialEq, Eq)]
pub struct FreeSpace {
    pub interval: u8,
    pub area: u8,
}

/// SHAREOPTIONS: across regions, and across systems.
#[derive(Clone, Copy, PartialEq, Eq)]
pub struct ShareOptions {
    pub regions: u8,
    pub systems: u8,
}

/// The unit in which space was asked for, if it was.
#[derive(Clone, Copy, PartialEq, Eq)]
pub enum SpaceUnit {
    Unstated,
    Cylinders,
    Tracks,
    Records,
}

/// An entry of the catalog: a cluster, an alternate index over a cluster, or a path over either.
#[derive(Drop)]
pub struct CatEntry {
    pub name: Name,
    pub entry_kind: EntryKind,
    /// How its records are organised: a cluster's kind, `Keyed` of an alternate index, None of a
    /// path.
    pub kind: Option<Kind>,
    pub spanned: bool,
    /// UNIQUEKEY of an alternate index.
    pub unique: bool,
    /// Whether an alternate index has been built.
    pub built: bool,
    pub part: PartNo,
    /// The part that an alternate index or a path stands over.
    pub related: Option<PartNo>,
    /// KEYS, in bytes: 0 and 0 where there is no key.
    pub key_length: u16,
    pub key_offset: u16,
    /// RECORDSIZE, in bytes.
    pub average: u32,
    pub maximum: u32,
    pub first_area: Option<AreaNo>,
    pub free_space: FreeSpace,
    pub share_options: ShareOptions,
    pub space: SpaceUnit,
    pub primary: u32,
    pub secondary: u32,
    /// CONTROLINTERVALSIZE, 0 where it wasn't stated. It is listed only.
    pub interval_size: u32,
    /// The names of the data and of the index component.
    pub data_name: Option<Name>,
    pub index_name: Option<Name>,
    /// The three classes, names of at most 8 bytes without a dot. They are listed only.
    pub storage_class: Option<Name>,
    pub data_class: Option<Name>,
    pub management_class: Option<Name>,
}

impl CatEntry {
    ghost use Rattle.vr_catalog.specs.Catalog.{cluster_definition as definition_of};

    /// What a cluster states of its records; None of an alternate index or a path.
    pub fn cluster_definition(&self) -> Option<Definition>
        ensures { result ≡ definition_of self.now.entry_kind self.now }
    {
        match self.entry_kind {
            EntryKind::Cluster => Some(Definition {
                kind: self.kind.unwrap_or(Kind::Keyed),
                spanned: self.spanned,
                key_length: self.key_length,
                key_offset: self.key_offset,
                maximum: self.maximum,
            }),
            EntryKind::Alternate | EntryKind::Path => None,
        }
    }

    /// Copies the value; fails only if memory runs out.
    pub fn copy(&self, alloc: Global) -> Result<CatEntry, OutOfMemory>
        ensures { IfOk result (λ copy. copy ≡ self.now) }
    {
        let components = copy_components(alloc, &self.data_name, &self.index_name)?;
        let classes = copy_classes(
            alloc,
            &self.storage_class,
            &self.data_class,
            &self.management_class,
        )?;
        let name = self.name.copy(alloc)?;
        Ok(CatEntry {
            name,
            entry_kind: self.entry_kind,
            kind: self.kind,
            spanned: self.spanned,
            unique: self.unique,
            built: self.built,
            part: self.part,
            related: self.related,
            key_length: self.key_length,
            key_offset: self.key_offset,
            average: self.average,
            maximum: self.maximum,
            first_area: self.first_area,
            free_space: self.free_space,
            share_options: self.share_options,
            space: self.space,
            primary: self.primary,
            secondary: self.secondary,
            interval_size: self.interval_size,
            data_name: components.data_name,
            index_name: components.index_name,
            storage_class: classes.storage,
            data_class: classes.data_class,
            management_class: classes.management,
        })
    }
}
