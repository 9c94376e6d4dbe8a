//! Laws of the pairs of an alternate index.
ghost use Rattle.std.specs.Prelude.{◌≡◌, ℕ, List, Option, map, nat_eq};
ghost use Rattle.std.specs.List.{Contains, IsDistinct};
ghost use Rattle.std.specs.List.Sorted.{IsStrictlySortedBy};
ghost use Rattle.vr_types.specs.Content.{Ascends, Content, Item, record_at};
ghost use Rattle.vr_altkey.specs.declared.definition.AltDef.{AltDef};
ghost use Rattle.vr_altkey.specs.Changes.{changes_to, pair_changes, pairs_changed};
ghost use Rattle.vr_altkey.specs.Pairs.{pair_cmp, pairs_content, pairs_of};
ghost use Rattle.vr_altkey.specs.Placing.{placed_in, record_in};

/// The pairs of an alternate index ascend, by the alternate key and then by the base place, so none
/// comes twice.
pub fn pairs_ascend()
    ensures { (key_length key_offset : ℕ) (base : Content)
        → IsStrictlySortedBy pair_cmp (pairs_of key_length key_offset base) }
{}

/// The changes of a base record lead each alternate index from the pairs of the old base to those
/// of the new: where a place of the base gets an item, or none, what `changes` answers for the
/// record there before and for the new one, done to the content of the index in order, leaves the
/// content that an index over the new base has. The parts of the indexes differ. In the record file
/// (`vr_history`) the pairs of an index are those of its base by definition; this law is for those
/// who keep them as a part of its own.
pub fn changes_lead_on()
    ensures { (alternates : List AltDef) (def : AltDef) (base : Content) (place : List ℕ)
        (item : Option Item)
        → Ascends base
        → IsDistinct nat_eq (map (λ other. other.part.0) alternates) → Contains alternates def
        → let changes = pair_changes alternates place (record_at base place) (record_in item) in
        pairs_changed (changes_to def.part.0 changes) (pairs_content def.length def.offset base)
        ≡ pairs_content def.length def.offset (placed_in place item base) }
{}
