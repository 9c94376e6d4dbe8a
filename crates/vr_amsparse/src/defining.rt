//! DEFINE and ALTER of given parameters.
ghost use Rattle.std.specs.Prelude.{◌≡◌, min, true, IfOk};
ghost use Rattle.std.specs.Option.{option_map};
ghost use Rattle.vr_amsparse_grammar.specs.declared.row.Slot.TheVariants as slots;
ghost use Rattle.vr_amsparse_grammar.specs.Moves.{given_in};
ghost use Rattle.vr_catalog.specs.declared.order.NewEntry.TheVariants.{Path};
ghost use Rattle.vr_amsparse.specs.Values.{number_for, name_for};
ghost use Rattle.vr_amsparse.specs.Orders.{kind_of, unit_of, free_space, share_options, data_options};
ghost use Rattle.vr_amsparse.specs.Orders.{usual_average, usual_maximum, new_cluster, new_alternate};
ghost use Rattle.vr_amsparse.specs.Orders.{defined, define_command, define_cluster, define_alternate};
ghost use Rattle.vr_amsparse.specs.Orders.{define_path, altered_space, altered_sharing, alter_by};
ghost use Rattle.vr_amsparse.specs.Orders.{alter_command};

use crate::command::{Command, DefineCommand};
use crate::values::{choice_for, is_first, name_for, number_for, text_if};
use std::alloc::Global;
use vr_amsparse_grammar::{Choice, Given, Slot, given_for};
use vr_catalog::{Alter, DataOptions, Define, FreeSpace, NewEntry, ShareOptions, SpaceUnit};
use vr_scan::Tokens;
use vr_types::{Bytes, Kind, Name, OutOfMemory};

/// The numbers that clusters and alternate indexes are defined with.
#[derive(Clone, Copy)]
struct Sizes {
    key_length: u16,
    key_offset: u16,
    average: u32,
    maximum: u32,
    primary: u32,
    secondary: u32,
    interval_size: u32,
}

/// The names of components.
#[derive(Drop)]
struct Components {
    data_name: Option<Name>,
    index_name: Option<Name>,
}

/// The names of classes.
#[derive(Drop)]
struct Classes {
    storage: Option<Name>,
    data_class: Option<Name>,
    management: Option<Name>,
}

/// A number in 8 bits. The tables of parameters let none through that has more; nor do they for the
/// next two.
fn narrow_8(number: u64) -> u8
    ensures { result ≡ min 255 number }
{
    if number < 255 { number as u8 } else { 255 }
}

/// A number in 16 bits.
fn narrow_16(number: u64) -> u16
    ensures { result ≡ min 65535 number }
{
    if number < 65_535 {
        number as u16
    } else {
        65_535
    }
}

/// A number in 32 bits.
fn narrow_32(number: u64) -> u32
    ensures { result ≡ min 4294967295 number }
{
    if number < 4_294_967_295 {
        number as u32
    } else {
        4_294_967_295
    }
}

/// The kind of a cluster.
fn kind_of(choice: Option<Choice>) -> Kind
    ensures { result ≡ kind_of choice }
{
    match choice {
        None => Kind::Keyed,
        Some(Choice::First) => Kind::Keyed,
        Some(Choice::Second) => Kind::Entry,
        Some(Choice::Third) => Kind::Relative,
    }
}

/// The unit of the space that was asked for.
fn unit_of(choice: Option<Choice>) -> SpaceUnit
    ensures { result ≡ unit_of choice }
{
    match choice {
        None => SpaceUnit::Unstated,
        Some(Choice::First) => SpaceUnit::Cylinders,
        Some(Choice::Second) => SpaceUnit::Tracks,
        Some(Choice::Third) => SpaceUnit::Records,
    }
}

/// FREESPACE.
fn free_space(tokens: &Tokens, given: &[Given]) -> FreeSpace
    ensures { result ≡ free_space tokens.now given.now }
{
    FreeSpace {
        interval: narrow_8(number_for(tokens, given, Slot::FreeSpace, 0, 0)),
        area: narrow_8(number_for(tokens, given, Slot::FreeSpace, 1, 0)),
    }
}

/// SHAREOPTIONS.
fn share_options(tokens: &Tokens, given: &[Given]) -> ShareOptions
    ensures { result ≡ share_options tokens.now given.now }
{
    ShareOptions {
        regions: narrow_8(number_for(tokens, given, Slot::ShareOptions, 0, 1)),
        systems: narrow_8(number_for(tokens, given, Slot::ShareOptions, 1, 3)),
    }
}

/// The average length of a record where RECORDSIZE isn't given.
fn usual_average(long: bool) -> u64
    ensures { result ≡ usual_average long }
{
    if long { 4086 } else { 4089 }
}

/// The maximum length of a record where RECORDSIZE isn't given.
fn usual_maximum(long: bool) -> u64
    ensures { result ≡ usual_maximum long }
{
    if long { 32_600 } else { 4089 }
}

/// The numbers.
fn sizes_of(tokens: &Tokens, given: &[Given], long: bool) -> Sizes
    ensures keys { (result.key_length ≡ min 65535 (number_for tokens.now given.now slots.Keys 0 64))
        × (result.key_offset ≡ min 65535 (number_for tokens.now given.now slots.Keys 1 0)) }
    ensures records { (result.average
        ≡ min 4294967295
        (number_for tokens.now given.now slots.RecordSize 0 (usual_average long)))
        × (result.maximum
        ≡ min 4294967295
        (number_for tokens.now given.now slots.RecordSize 1 (usual_maximum long))) }
    ensures space { (result.primary
        ≡ min 4294967295 (number_for tokens.now given.now slots.Space 0 0))
        × (result.secondary
        ≡ min 4294967295 (number_for tokens.now given.now slots.Space 1 0)) }
    ensures interval { result.interval_size
        ≡ min 4294967295 (number_for tokens.now given.now slots.IntervalSize 0 0) }
{
    let average = usual_average(long);
    let maximum = usual_maximum(long);
    Sizes {
        key_length: narrow_16(number_for(tokens, given, Slot::Keys, 0, 64)),
        key_offset: narrow_16(number_for(tokens, given, Slot::Keys, 1, 0)),
        average: narrow_32(number_for(tokens, given, Slot::RecordSize, 0, average)),
        maximum: narrow_32(number_for(tokens, given, Slot::RecordSize, 1, maximum)),
        primary: narrow_32(number_for(tokens, given, Slot::Space, 0, 0)),
        secondary: narrow_32(number_for(tokens, given, Slot::Space, 1, 0)),
        interval_size: narrow_32(number_for(tokens, given, Slot::IntervalSize, 0, 0)),
    }
}

/// The names of the components.
fn components_of(alloc: Global, tokens: &Tokens, given: &[Given]) -> Result<Components, OutOfMemory>
    ensures { IfOk result (λ names.
        (names.data_name ≡ name_for tokens.now given.now slots.DataName)
        × (names.index_name ≡ name_for tokens.now given.now slots.IndexName)) }
{
    let data_name = name_for(alloc, tokens, given, Slot::DataName)?;
    let index_name = name_for(alloc, tokens, given, Slot::IndexName)?;
    Ok(Components {
        data_name,
        index_name,
    })
}

/// The names of the classes.
fn classes_of(alloc: Global, tokens: &Tokens, given: &[Given]) -> Result<Classes, OutOfMemory>
    ensures { IfOk result (λ names.
        (names.storage ≡ name_for tokens.now given.now slots.StorageClass)
        × (names.data_class ≡ name_for tokens.now given.now slots.DataClass)
        × (names.management ≡ name_for tokens.now given.now slots.ManagementClass)) }
{
    let storage = name_for(alloc, tokens, given, Slot::StorageClass)?;
    let data_class = name_for(alloc, tokens, given, Slot::DataClass)?;
    let management = name_for(alloc, tokens, given, Slot::ManagementClass)?;
    Ok(Classes {
        storage,
        data_class,
        management,
    })
}

/// What clusters and alternate indexes are defined with.
fn data_options(
    alloc: Global,
    tokens: &Tokens,
    given: &[Given],
    long: bool,
) -> Result<DataOptions, OutOfMemory>
    ensures { IfOk result (λ options. options ≡ data_options tokens.now given.now long) }
{
    let sizes = sizes_of(tokens, given, long);
    let free_space = free_space(tokens, given);
    let share_options = share_options(tokens, given);
    let space = unit_of(choice_for(given, Slot::Space));
    let components = components_of(alloc, tokens, given)?;
    let classes = classes_of(alloc, tokens, given)?;
    Ok(DataOptions {
        key_length: sizes.key_length,
        key_offset: sizes.key_offset,
        average: sizes.average,
        maximum: sizes.maximum,
        free_space,
        share_options,
        space,
        primary: sizes.primary,
        secondary: sizes.secondary,
        interval_size: sizes.interval_size,
        data_name: components.data_name,
        index_name: components.index_name,
        storage_class: classes.storage,
        data_class: classes.data_class,
        management_class: classes.management,
    })
}

/// What DEFINE CLUSTER adds.
fn new_cluster(alloc: Global, tokens: &Tokens, given: &[Given]) -> Result<NewEntry, OutOfMemory>
    ensures { IfOk result (λ what. what ≡ new_cluster tokens.now given.now) }
{
    let kind = kind_of(choice_for(given, Slot::Kind));
    let spanned = is_first(choice_for(given, Slot::Spanned));
    let options = data_options(alloc, tokens, given, spanned)?;
    Ok(NewEntry::Cluster {
        kind,
        spanned,
        options,
    })
}

/// What DEFINE ALTERNATEINDEX adds, where RELATE has this name.
fn new_alternate(
    alloc: Global,
    tokens: &Tokens,
    given: &[Given],
    related: Name,
) -> Result<NewEntry, OutOfMemory>
    ensures { IfOk result (λ what. what ≡ new_alternate tokens.now given.now related) }
{
    let unique = is_first(choice_for(given, Slot::Unique));
    let options = data_options(alloc, tokens, given, true)?;
    Ok(NewEntry::Alternate {
        related,
        unique,
        options,
    })
}

/// What DEFINE ALTERNATEINDEX adds, if it has RELATE.
fn related_alternate(
    alloc: Global,
    tokens: &Tokens,
    given: &[Given],
) -> Result<Option<NewEntry>, OutOfMemory>
    ensures { IfOk result (λ what. what
        ≡ option_map (new_alternate tokens.now given.now)
        (name_for tokens.now given.now slots.Related)) }
{
    match name_for(alloc, tokens, given, Slot::Related)? {
        None => Ok(None),
        Some(related) => Ok(Some(new_alternate(alloc, tokens, given, related)?)),
    }
}

/// What DEFINE PATH adds, if it has PATHENTRY.
fn new_path(
    alloc: Global,
    tokens: &Tokens,
    given: &[Given],
) -> Result<Option<NewEntry>, OutOfMemory>
    ensures { IfOk result (λ what. what
        ≡ option_map (λ related. Path related) (name_for tokens.now given.now slots.Related)) }
{
    match name_for(alloc, tokens, given, Slot::Related)? {
        None => Ok(None),
        Some(related) => Ok(Some(NewEntry::Path { related })),
    }
}

/// DEFINE of an entry with a name, on a volume.
fn defined(name: Option<Name>, what: Option<NewEntry>, volume: Option<Bytes>) -> Option<Command>
    ensures { result ≡ defined name what volume }
{
    match name {
        None => None,
        Some(name) => match what {
            None => None,
            Some(what) => Some(Command::Define(DefineCommand {
                order: Define { name, what },
                volume,
            })),
        },
    }
}

/// DEFINE.
fn define_command(
    alloc: Global,
    tokens: &Tokens,
    given: &[Given],
    what: Option<NewEntry>,
) -> Result<Option<Command>, OutOfMemory>
    ensures { IfOk result (λ command. command ≡ define_command tokens.now given.now what) }
{
    let name = name_for(alloc, tokens, given, Slot::Name)?;
    let volume = text_if(alloc, tokens, given, Slot::Volumes)?;
    Ok(defined(name, what, volume))
}

/// FREESPACE of ALTER.
fn altered_space(tokens: &Tokens, given: &[Given]) -> Option<FreeSpace>
    ensures { result ≡ altered_space tokens.now given.now (given_in given.now slots.FreeSpace) }
{
    match given_for(given, Slot::FreeSpace) {
        None => None,
        Some(_) => Some(free_space(tokens, given)),
    }
}

/// SHAREOPTIONS of ALTER.
fn altered_sharing(tokens: &Tokens, given: &[Given]) -> Option<ShareOptions>
    ensures { result
        ≡ altered_sharing tokens.now given.now (given_in given.now slots.ShareOptions) }
{
    match given_for(given, Slot::ShareOptions) {
        None => None,
        Some(_) => Some(share_options(tokens, given)),
    }
}

/// ALTER of an entry with this name.
fn alter_by(
    alloc: Global,
    tokens: &Tokens,
    given: &[Given],
    name: Name,
) -> Result<Command, OutOfMemory>
    ensures { IfOk result (λ command. command ≡ alter_by tokens.now given.now name) }
{
    let free_space = altered_space(tokens, given);
    let share_options = altered_sharing(tokens, given);
    let new_name = name_for(alloc, tokens, given, Slot::NewName)?;
    Ok(Command::Alter(Alter {
        name,
        new_name,
        free_space,
        share_options,
    }))
}

/// ALTER.
pub(crate) fn alter_command(
    alloc: Global,
    tokens: &Tokens,
    given: &[Given],
) -> Result<Option<Command>, OutOfMemory>
    ensures { IfOk result (λ command. command ≡ alter_command tokens.now given.now) }
{
    match name_for(alloc, tokens, given, Slot::Entry)? {
        None => Ok(None),
        Some(name) => Ok(Some(alter_by(alloc, tokens, given, name)?)),
    }
}

/// DEFINE CLUSTER.
pub(crate) fn define_cluster(
    alloc: Global,
    tokens: &Tokens,
    given: &[Given],
) -> Result<Option<Command>, OutOfMemory>
    ensures { IfOk result (λ command. command ≡ define_cluster tokens.now given.now) }
{
    let what = new_cluster(alloc, tokens, given)?;
    define_command(alloc, tokens, given, Some(what))
}

/// DEFINE ALTERNATEINDEX.
pub(crate) fn define_alternate(
    alloc: Global,
    tokens: &Tokens,
    given: &[Given],
) -> Result<Option<Command>, OutOfMemory>
    ensures { IfOk result (λ command. command ≡ define_alternate tokens.now given.now) }
{
    let what = related_alternate(alloc, tokens, given)?;
    define_command(alloc, tokens, given, what)
}

/// DEFINE PATH.
pub(crate) fn define_path(
    alloc: Global,
    tokens: &Tokens,
    given: &[Given],
) -> Result<Option<Command>, OutOfMemory>
    ensures { IfOk result (λ command. command ≡ define_path tokens.now given.now) }
{
    let what = new_path(alloc, tokens, given)?;
    define_command(alloc, tokens, given, what)
}
