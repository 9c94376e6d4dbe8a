//! Laws of command texts.
ghost use Rattle.std.specs.Prelude.{◌≡◌, ℕ, List, ◌⊎◌};
ghost use Rattle.vr_scan.specs.Token.{Token};
ghost use Rattle.vr_amsparse.specs.declared.command.Node.{Node};
ghost use Rattle.vr_amsparse.specs.declared.fault.CommandFault.{CommandFault};
ghost use Rattle.vr_amsparse.specs.Commands.{IsCommands, IsFirstFault};
ghost use Rattle.vr_amsparse.specs.Verbs.{verb_rows, object_rows, comparison_rows};
ghost use Rattle.vr_amsparse.specs.declared.verb.TheConstants.{VERBS, OBJECTS, COMPARISONS};

/// A list of tokens is one list of commands at most, and has one first fault at most.
pub fn one_value()
    ensures commands { (tokens : List Token) (names : List (List ℕ)) (one other : List Node)
        → IsCommands tokens names one → IsCommands tokens names other → one ≡ other }
    ensures fault { (tokens : List Token) (names : List (List ℕ)) (one other : CommandFault)
        → IsFirstFault tokens names one → IsFirstFault tokens names other → one ≡ other }
{}

/// It is a list of commands or has a first fault, and never both.
pub fn value_or_fault()
    ensures both { (tokens : List Token) (names : List (List ℕ)) (commands : List Node)
        (fault : CommandFault)
        → IsCommands tokens names commands → IsFirstFault tokens names fault → ⊥ }
    ensures either { (tokens : List Token) (names : List (List ℕ))
        → ((commands : List Node) × IsCommands tokens names commands)
        ⊎ ((fault : CommandFault) × IsFirstFault tokens names fault) }
{}

/// Each table of words has the rows that the definition spells out.
pub fn rows_are_as_said()
    ensures verbs { VERBS ≡ verb_rows }
    ensures objects { OBJECTS ≡ object_rows }
    ensures comparisons { COMPARISONS ≡ comparison_rows }
{}
