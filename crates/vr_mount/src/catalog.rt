//! The catalog that records are.
ghost use Rattle.std.specs.Prelude.{◌≡◌, ◌∷◌, [], IfOk, IfSome, IsTrue, None, nat_eq};
ghost use Rattle.std.specs.List.{IsDistinct};
ghost use Rattle.vr_types.specs.Content.{Content};
ghost use Rattle.vr_catalog.specs.Catalog.{entries_in, parts_in};
ghost use Rattle.vr_attach.specs.CatalogRules.{IsCatalog};
ghost use Rattle.vr_mount.specs.Records.{IsDecided, bytes_of};

use crate::records::read_each;
use crate::rules::are_rules;
use std::alloc::Global;
use vr_catalog::Catalog;
use vr_types::{Bytes, Geometry, OutOfMemory};

/// Adds the entries of the records to a catalog of none, and answers whether they are a catalog's.
fn is_catalog(
    alloc: Global,
    geometry: &Geometry,
    records: &[Bytes],
    catalog: &mut Catalog,
) -> Result<bool, OutOfMemory>
    requires { catalog.old ≡ [] }
    ensures decided { IfOk result (IsDecided geometry.now records.now catalog.new) }
    ensures parts { IfOk result (λ is. IsTrue is
        → IsDistinct nat_eq (0 ∷ parts_in catalog.new)) }
{
    let each = read_each(alloc, records, catalog)?;
    if !each {
        return Ok(false);
    }
    Ok(are_rules(geometry, catalog))
}

/// The catalog whose records these are, in the order of their places: its entries. None exactly
/// where they are those of no catalog: one is misspelled, a part number comes twice or is 0, an
/// entry stands over what it may not, a cluster has no first area, or an entry has sizes that it may
/// not have. `OutOfMemory`: there is no memory for the entries.
#[tactic(auto, using(crate::proofs::Spelling::decisions))]
pub fn catalog_of_records(
    alloc: Global,
    geometry: &Geometry,
    records: &[Bytes],
) -> Result<Option<Catalog>, OutOfMemory>
    ensures entries { IfOk result (λ found. IfSome found (λ catalog. (content : Content)
        → bytes_of content ≡ records.now → catalog ≡ entries_in content)) }
    ensures catalog { IfOk result (λ found. IfSome found (λ catalog. (content : Content)
        → bytes_of content ≡ records.now → IsCatalog geometry.now content)) }
    ensures parts { IfOk result (λ found. IfSome found (λ catalog.
        IsDistinct nat_eq (0 ∷ parts_in catalog))) }
    ensures damaged { IfOk result (λ found. found ≡ None → (content : Content)
        → bytes_of content ≡ records.now → IsCatalog geometry.now content → ⊥) }
{
    let mut catalog = Catalog::new(alloc);
    let is = is_catalog(alloc, geometry, records, &mut catalog)?;
    if is { Ok(Some(catalog)) } else { Ok(None) }
}
