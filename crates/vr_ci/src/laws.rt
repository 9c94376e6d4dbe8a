//! Laws of the grammar.

ghost use Rattle.std.specs.Prelude.{◌≡◌, ℕ, List, length};
ghost use Rattle.vr_types.specs.BlockSize.{IsBlockSize};
ghost use Rattle.vr_ci.specs.Interval.{Interval, Fits, IsInterval};

use vr_ci_match::Form;

/// Each block has at most one value in a form, and each value that a block of a size holds has
/// exactly one block of that size.
pub fn one_spelling()
    ensures one_value { (form : Form) (block : List ℕ) (one other : Interval)
        → IsInterval form block one → IsInterval form block other → one ≡ other }
    ensures one_block { (form : Form) (size : ℕ) (value : Interval) (one other : List ℕ)
        → IsInterval form one value → IsInterval form other value
        → length one ≡ size → length other ≡ size → one ≡ other }
    ensures some_block { (form : Form) (size : ℕ) (value : Interval) → IsBlockSize size
        → Fits form size value
        → (block : List ℕ) × (length block ≡ size) × IsInterval form block value }
{}
