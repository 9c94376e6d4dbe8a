//! Laws of literals.
ghost use Rattle.std.specs.Prelude.{◌≡◌, ℕ, ◌<◌, List};
ghost use Rattle.std.specs.List.{AllByRecursion};
ghost use Rattle.vr_text.specs.declared.literal.LiteralFault.{LiteralFault};
ghost use Rattle.vr_text.specs.declared.literal.LiteralFault.TheVariants.{Memory};
ghost use Rattle.vr_text.specs.Literal.{IsLiteral, CauseOf, literal_of};

/// Reading what was written gives it back: the spelling that is written for some bytes is a literal
/// of them.
pub fn written_is_read()
    ensures { (bytes : List ℕ) → AllByRecursion (λ b. b < 256) bytes
        → IsLiteral (literal_of bytes) bytes }
{}

/// A text is a literal of one list of bytes at most.
pub fn one_value()
    ensures { (text one other : List ℕ) → IsLiteral text one → IsLiteral text other → one ≡ other }
{}

/// A text has one outcome: a literal has no cause but out of memory, and no text has two causes.
pub fn one_outcome()
    ensures literal { (text bytes : List ℕ) (fault : LiteralFault) →
        IsLiteral text bytes → CauseOf text fault → fault ≡ Memory }
    ensures cause { (text : List ℕ) (one other : LiteralFault) →
        CauseOf text one → CauseOf text other → one ≡ other }
{}
