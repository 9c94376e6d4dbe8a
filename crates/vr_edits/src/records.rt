//! The record of an entry of the catalog, and its place.
ghost use Rattle.std.specs.Prelude.{◌≡◌, length};
ghost use Rattle.vr_catalog.specs.Definition.{catalog_definition, key_of};
ghost use Rattle.vr_catalog.specs.Record.{spelling};

use vr_catalog::{CatEntry, RECORD_LENGTH, write_entry};

/// The bytes of a name in the catalog's records, which they begin with.
const NAME_LENGTH: usize = 44;

/// The record of an entry.
pub fn record_of(entry: &CatEntry) -> [u8; RECORD_LENGTH]
    ensures value { result ≡ spelling entry.now }
    ensures length { length result ≡ 204 }
{
    let mut bytes = [0; RECORD_LENGTH];
    write_entry(entry, &mut bytes);
    bytes
}

/// The place of a record of the catalog, with which it begins.
pub fn place_in(record: &[u8]) -> &[u8]
    requires { length record.now ≡ 204 }
    ensures { result.now ≡ key_of catalog_definition record.now }
{
    &record[..NAME_LENGTH]
}
