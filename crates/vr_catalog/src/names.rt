//! The names of an entry's components, and its classes.
ghost use Rattle.std.specs.Prelude.{◌≡◌, IfOk};

use std::alloc::Global;
use vr_types::{Name, OutOfMemory};

/// The names of the components.
#[derive(Drop)]
pub(crate) struct Components {
    pub(crate) data_name: Option<Name>,
    pub(crate) index_name: Option<Name>,
}

/// The classes.
#[derive(Drop)]
pub(crate) struct Classes {
    pub(crate) storage: Option<Name>,
    pub(crate) data_class: Option<Name>,
    pub(crate) management: Option<Name>,
}

/// A copy of the name, where there is one.
fn copy_of_name(alloc: Global, name: &Option<Name>) -> Result<Option<Name>, OutOfMemory>
    ensures { IfOk result (λ copy. copy ≡ name.now) }
{
    match name {
        None => Ok(None),
        Some(name) => Ok(Some(name.copy(alloc)?)),
    }
}

/// Copies the names of the components.
pub(crate) fn copy_components(
    alloc: Global,
    data_name: &Option<Name>,
    index_name: &Option<Name>,
) -> Result<Components, OutOfMemory>
    ensures { IfOk result (λ copy.
        (copy.data_name ≡ data_name.now) × (copy.index_name ≡ index_name.now)) }
{
    let data_name = copy_of_name(alloc, data_name)?;
    let index_name = copy_of_name(alloc, index_name)?;
    Ok(Components {
        data_name,
        index_name,
    })
}

/// Copies the classes.
pub(crate) fn copy_classes(
    alloc: Global,
    storage: &Option<Name>,
    data_class: &Option<Name>,
    management: &Option<Name>,
) -> Result<Classes, OutOfMemory>
    ensures { IfOk result (λ copy. (copy.storage ≡ storage.now)
        × (copy.data_class ≡ data_class.now) × (copy.management ≡ management.now)) }
{
    let storage = copy_of_name(alloc, storage)?;
    let data_class = copy_of_name(alloc, data_class)?;
    let management = copy_of_name(alloc, management)?;
    Ok(Classes {
        storage,
        data_class,
        management,
    })
}
