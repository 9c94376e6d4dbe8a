//! Laws of decks.
ghost use Rattle.std.specs.Prelude.{◌≡◌, List, ◌⊎◌};
ghost use Rattle.vr_text.specs.Lines.{Line};
ghost use Rattle.vr_deck_text.specs.declared.fault.LineFault.{LineFault};
ghost use Rattle.vr_deck_text.specs.declared.text.DeckText.{DeckText};
ghost use Rattle.vr_deck_text.specs.Deck.{IsDeck, IsFirstFault};
ghost use Rattle.vr_deck_text.specs.Tables.{file_rows, get_rows, point_rows, put_rows, verb_rows};
ghost use Rattle.vr_deck_text.specs.declared.tables.TheConstants.{FILE_ROWS, GET_ROWS, POINT_ROWS};
ghost use Rattle.vr_deck_text.specs.declared.tables.TheConstants.{PUT_ROWS, VERBS};

/// Lines are one deck at most, and have one first fault at most.
pub fn one_value()
    ensures deck { (lines : List Line) (one other : DeckText)
        → IsDeck lines one → IsDeck lines other → one ≡ other }
    ensures fault { (lines : List Line) (one other : LineFault)
        → IsFirstFault lines one → IsFirstFault lines other → one ≡ other }
{}

/// They are a deck or have a first fault, and never both.
pub fn value_or_fault()
    ensures both { (lines : List Line) (deck : DeckText) (fault : LineFault)
        → IsDeck lines deck → IsFirstFault lines fault → ⊥ }
    ensures either { (lines : List Line) → ((deck : DeckText) × IsDeck lines deck)
        ⊎ ((fault : LineFault) × IsFirstFault lines fault) }
{}

/// Each table of verbs and operands has the rows that the definitions spell out.
pub fn rows_are_as_said()
    ensures file { FILE_ROWS ≡ file_rows }
    ensures get { GET_ROWS ≡ get_rows }
    ensures point { POINT_ROWS ≡ point_rows }
    ensures put { PUT_ROWS ≡ put_rows }
    ensures verbs { VERBS ≡ verb_rows }
{}
