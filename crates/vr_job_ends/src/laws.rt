//! Laws of commands.
ghost use Rattle.std.specs.Prelude.{◌≡◌, ◌↔◌, ◌<◌, ◌^◌, ℕ, List, Some, None};
ghost use Rattle.vr_job_ends.specs.Asked.{Asked, Format};
ghost use Rattle.vr_job_ends.specs.Command.{Asks, plan_of};

/// What is computed of words is what they ask for as a command, and nothing is where they are none.
pub fn exact()
    ensures some { (words : List (List ℕ)) (asked : Asked)
        → (plan_of words ≡ Some asked) ↔ Asks words asked }
    ensures none { (words : List (List ℕ))
        → (plan_of words ≡ None) ↔ ((asked : Asked) → Asks words asked → ⊥) }
{}

/// Words ask for one thing at most.
pub fn one_plan()
    ensures { (words : List (List ℕ)) (one other : Asked)
        → Asks words one → Asks words other → one ≡ other }
{}

/// The numbers of a format are below 10,000,000,000.
pub fn numbers()
    ensures { (words : List (List ℕ)) (dir : List ℕ) (count size blocks log area : ℕ)
        → Asks words (Format dir count size blocks log area)
        → (size < 10 ^ 10) × (blocks < 10 ^ 10) × (log < 10 ^ 10) × (area < 10 ^ 10) }
{}
