//! Laws of damage, each the contract of a function that does nothing.
ghost use Rattle.std.specs.Prelude.{◌≡◌, ℕ, Bool, IsTrue};
ghost use Rattle.vr_types.specs.Image.{Image};
ghost use Rattle.vr_space.specs.Areas.{IsKeyedChain, KeyedChain as ChainOf};
ghost use Rattle.vr_attach.specs.Damage.{rule_number};
ghost use Rattle.vr_attach.specs.Linked.{IsLinkedDamagedAt, StandsAlone};
ghost use Rattle.vr_attach.specs.declared.rule.Rule.{Rule as RuleOf};

/// Damaged blocks stand for no content in areas of the part's own.
pub fn damaged_blocks_stand_for_none()
    ensures { (part : ChainOf) (taken : ℕ → Bool) (image : Image) (n : ℕ) (rule : RuleOf)
        → IsLinkedDamagedAt part (λ area. IsTrue (taken area)) image n rule
        → StandsAlone part (λ area. IsTrue (taken area)) image → ⊥ }
{}

/// Blocks of which that isn't true are damaged: it can't be that they neither stand for one so nor
/// are damaged at some block.
pub fn damage_or_content()
    ensures { (part : ChainOf) (taken : ℕ → Bool) (image : Image) → IsKeyedChain part
        → (StandsAlone part (λ area. IsTrue (taken area)) image → ⊥)
        → ((n : ℕ) (rule : RuleOf)
        → IsLinkedDamagedAt part (λ area. IsTrue (taken area)) image n rule → ⊥) → ⊥ }
{}

/// One block at most is the first that breaks a rule, and one rule the least that it breaks.
pub fn one_damage()
    ensures { (part : ChainOf) (taken : ℕ → Bool) (image : Image) (one other : ℕ)
        (rule rule_of_other : RuleOf)
        → IsLinkedDamagedAt part (λ area. IsTrue (taken area)) image one rule
        → IsLinkedDamagedAt part (λ area. IsTrue (taken area)) image other rule_of_other
        → (one ≡ other) × (rule_number rule ≡ rule_number rule_of_other) }
{}
