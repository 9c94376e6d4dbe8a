//! The lists of parameters that commands have.
ghost use Rattle.std.specs.Prelude.{◌≡◌};
ghost use Rattle.vr_amsparse_grammar.specs.Sections.{own_rows, type_rows, common_rows, section_parameter};
ghost use Rattle.vr_amsparse_grammar.specs.Sections.{is_enclosed, section_after, has_parameters};

use crate::row::{Parameter, Row, parameter_named};
use crate::tables::{
    ALTER_ROWS, ALTERNATE_PART_ROWS, ALTERNATE_ROWS, BUILD_ROWS, CLUSTER_PART_ROWS, CLUSTER_ROWS,
    DATA_ROWS, DELETE_ROWS, EXAMINE_ROWS, INDEX_ROWS, LIST_ROWS, NAME_ROWS, NO_ROWS, PATH_ROWS,
    PRINT_ROWS, REPRO_ROWS, SPACE_ROWS, VERIFY_ROWS,
};

/// A list of parameters. One in parentheses is followed by another list; one without is ended by
/// the command's end.
#[derive(Clone, Copy)]
pub enum Section {
    /// In parentheses after DEFINE CLUSTER.
    Cluster,
    /// In parentheses after DATA and INDEX of DEFINE CLUSTER.
    ClusterData,
    ClusterIndex,
    /// DATA and INDEX themselves.
    ClusterParts,
    /// The same of DEFINE ALTERNATEINDEX.
    Alternate,
    AlternateData,
    AlternateIndex,
    AlternateParts,
    /// In parentheses after DEFINE PATH, and what follows: nothing.
    Path,
    PathEnd,
    Alter,
    Delete,
    Repro,
    BuildIndex,
    Print,
    ListCatalog,
    Verify,
    Examine,
    /// What follows the number of SET: nothing.
    SetEnd,
}

/// The rows that a list has for itself.
fn own_rows(section: Section) -> &'static [Row]
    ensures { result.now ≡ own_rows section }
{
    match section {
        Section::Cluster | Section::Alternate => &NAME_ROWS,
        Section::ClusterData | Section::AlternateData => &DATA_ROWS,
        Section::ClusterIndex | Section::AlternateIndex => &INDEX_ROWS,
        Section::ClusterParts => &CLUSTER_PART_ROWS,
        Section::AlternateParts => &ALTERNATE_PART_ROWS,
        Section::Path => &PATH_ROWS,
        Section::Alter => &ALTER_ROWS,
        Section::Delete => &DELETE_ROWS,
        Section::Repro => &REPRO_ROWS,
        Section::BuildIndex => &BUILD_ROWS,
        Section::Print => &PRINT_ROWS,
        Section::ListCatalog => &LIST_ROWS,
        Section::Verify => &VERIFY_ROWS,
        Section::Examine => &EXAMINE_ROWS,
        Section::PathEnd | Section::SetEnd => &NO_ROWS,
    }
}

/// The rows that clusters have, or alternate indexes.
fn type_rows(section: Section) -> &'static [Row]
    ensures { result.now ≡ type_rows section }
{
    match section {
        Section::Cluster | Section::ClusterData | Section::ClusterIndex => &CLUSTER_ROWS,
        Section::Alternate | Section::AlternateData | Section::AlternateIndex => &ALTERNATE_ROWS,
        _ => &NO_ROWS,
    }
}

/// The rows that both have.
fn common_rows(section: Section) -> &'static [Row]
    ensures { result.now ≡ common_rows section }
{
    match section {
        Section::Cluster | Section::ClusterData | Section::ClusterIndex => &SPACE_ROWS,
        Section::Alternate | Section::AlternateData | Section::AlternateIndex => &SPACE_ROWS,
        _ => &NO_ROWS,
    }
}

/// The parameter of a word in a list.
pub fn parameter_in(section: Section, word: &[u8]) -> Option<Parameter>
    ensures { result ≡ section_parameter section word.now }
{
    if let Some(parameter) = parameter_named(own_rows(section), word) {
        return Some(parameter);
    }
    if let Some(parameter) = parameter_named(type_rows(section), word) {
        return Some(parameter);
    }
    parameter_named(common_rows(section), word)
}

/// Whether a list stands in parentheses.
pub(crate) fn is_enclosed(section: Section) -> bool
    ensures { result ≡ is_enclosed section }
{
    match section {
        Section::Cluster | Section::ClusterData | Section::ClusterIndex => true,
        Section::Alternate | Section::AlternateData | Section::AlternateIndex => true,
        Section::Path => true,
        _ => false,
    }
}

/// The list that follows one in parentheses.
pub(crate) fn section_after(section: Section) -> Section
    ensures { result ≡ section_after section }
{
    match section {
        Section::Cluster | Section::ClusterData | Section::ClusterIndex => Section::ClusterParts,
        Section::Alternate | Section::AlternateData => Section::AlternateParts,
        Section::AlternateIndex => Section::AlternateParts,
        Section::Path => Section::PathEnd,
        other => other,
    }
}

/// Whether a list has parameters.
pub(crate) fn has_parameters(section: Section) -> bool
    ensures { result ≡ has_parameters section }
{
    match section {
        Section::PathEnd | Section::SetEnd => false,
        _ => true,
    }
}
