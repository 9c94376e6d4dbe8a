//! Laws of lists of parameters.
ghost use Rattle.std.specs.Prelude.{◌≡◌, ℕ, ◌+◌, List, [], ◌∷◌, ◌++◌, length, Some};
ghost use Rattle.vr_scan.specs.Token.{Token};
ghost use Rattle.vr_amsparse_grammar.specs.declared.given.Given.{Given};
ghost use Rattle.vr_amsparse_grammar.specs.declared.point.Statement.{Statement};
ghost use Rattle.vr_amsparse_grammar.specs.declared.point.Point.TheVariants.{Listed};
ghost use Rattle.vr_amsparse_grammar.specs.declared.section.Section.{Section};
ghost use Rattle.vr_amsparse_grammar.specs.Reading.{reached, IsParameter};
ghost use Rattle.vr_amsparse_grammar.specs.Tables.{name_rows, data_rows, index_rows};
ghost use Rattle.vr_amsparse_grammar.specs.Tables.{cluster_part_rows, alternate_part_rows};
ghost use Rattle.vr_amsparse_grammar.specs.Tables.{cluster_rows, alternate_rows, space_rows};
ghost use Rattle.vr_amsparse_grammar.specs.Tables.{path_rows, alter_rows, delete_rows, repro_rows};
ghost use Rattle.vr_amsparse_grammar.specs.Tables.{build_rows, print_rows, list_rows, verify_rows};
ghost use Rattle.vr_amsparse_grammar.specs.Tables.{examine_rows};
ghost use Rattle.vr_amsparse_grammar.specs.declared.tables.TheConstants.{NAME_ROWS, DATA_ROWS};
ghost use Rattle.vr_amsparse_grammar.specs.declared.tables.TheConstants.{INDEX_ROWS};
ghost use Rattle.vr_amsparse_grammar.specs.declared.tables.TheConstants.{CLUSTER_PART_ROWS};
ghost use Rattle.vr_amsparse_grammar.specs.declared.tables.TheConstants.{ALTERNATE_PART_ROWS};
ghost use Rattle.vr_amsparse_grammar.specs.declared.tables.TheConstants.{CLUSTER_ROWS};
ghost use Rattle.vr_amsparse_grammar.specs.declared.tables.TheConstants.{ALTERNATE_ROWS};
ghost use Rattle.vr_amsparse_grammar.specs.declared.tables.TheConstants.{SPACE_ROWS, PATH_ROWS};
ghost use Rattle.vr_amsparse_grammar.specs.declared.tables.TheConstants.{ALTER_ROWS, DELETE_ROWS};
ghost use Rattle.vr_amsparse_grammar.specs.declared.tables.TheConstants.{REPRO_ROWS, BUILD_ROWS};
ghost use Rattle.vr_amsparse_grammar.specs.declared.tables.TheConstants.{PRINT_ROWS, LIST_ROWS};
ghost use Rattle.vr_amsparse_grammar.specs.declared.tables.TheConstants.{VERIFY_ROWS, EXAMINE_ROWS};

/// A parameter that is spelled as the table of its list has it, and wasn't given before, is read as
/// given with its values, and the list goes on.
pub fn spelled_is_given()
    ensures { (names : List (List ℕ)) (section : Section) (given : List Given) (at : ℕ)
        (word before : Token) (values : List Token) (after : Token) (states : Statement)
        → IsParameter names section given word before values after states
        → reached names (Some (record { point = Listed section; given = given })) at
        (word ∷ before ∷ (values ++ after ∷ []))
        ≡ Some (record {
          point = Listed section;
          given = given
              ++ record { states = states; opened = at + 1; count = length values } ∷ [];
        }) }
{}

/// Each table of parameters has the rows that the definitions spell out.
pub fn rows_are_as_said()
    ensures name { NAME_ROWS ≡ name_rows }
    ensures data_part { DATA_ROWS ≡ data_rows }
    ensures index_part { INDEX_ROWS ≡ index_rows }
    ensures cluster_part { CLUSTER_PART_ROWS ≡ cluster_part_rows }
    ensures alternate_part { ALTERNATE_PART_ROWS ≡ alternate_part_rows }
    ensures cluster { CLUSTER_ROWS ≡ cluster_rows }
    ensures alternate { ALTERNATE_ROWS ≡ alternate_rows }
    ensures space { SPACE_ROWS ≡ space_rows }
    ensures path { PATH_ROWS ≡ path_rows }
    ensures alter { ALTER_ROWS ≡ alter_rows }
    ensures delete { DELETE_ROWS ≡ delete_rows }
    ensures repro { REPRO_ROWS ≡ repro_rows }
    ensures build { BUILD_ROWS ≡ build_rows }
    ensures print { PRINT_ROWS ≡ print_rows }
    ensures list { LIST_ROWS ≡ list_rows }
    ensures verify { VERIFY_ROWS ≡ verify_rows }
    ensures examine { EXAMINE_ROWS ≡ examine_rows }
{}
