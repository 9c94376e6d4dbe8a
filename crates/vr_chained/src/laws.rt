//! Laws of damage, each the contract of a function that does nothing.
ghost use Rattle.std.specs.Prelude.{ℕ, Bool, IsTrue};
ghost use Rattle.vr_types.specs.Image.{Image};
ghost use Rattle.vr_space.specs.Owners.{Owners};
ghost use Rattle.vr_space.specs.Rosters.{IsOwnArea, Numbered};
ghost use Rattle.vr_space.specs.Numbered.{NumberedStaysIn};
ghost use Rattle.vr_attach.specs.Chain.{IsChainDamagedAt};
ghost use Rattle.vr_attach.specs.declared.rule.Rule.{Rule as RuleOf};

/// A chain that is damaged leads to no areas of the part's own alone, where each area that was
/// taken before is another's.
pub fn damaged_chains_stay_nowhere()
    ensures { (part : Numbered) (taken : ℕ → Bool) (image : Image) (owners : Owners) (n : ℕ)
        (rule : RuleOf) → IsChainDamagedAt part (λ area. IsTrue (taken area)) image n rule
        → NumberedStaysIn part owners image
        → ((area : ℕ) → IsTrue (taken area) → IsOwnArea part owners area → ⊥) → ⊥ }
{}
