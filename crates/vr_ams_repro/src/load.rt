//! How a target is filled.
ghost use Rattle.std.specs.Prelude.{◌≡◌};
ghost use Rattle.vr_ams_repro.specs.Outcomes as stated;

use vr_ams_print::FoundCluster;
use vr_types::Kind;

/// How a target is filled: the line of the command, the kind of the source, none of data cards, the
/// target, and whether records replace those that are there.
#[derive(Drop)]
pub(crate) struct Load {
    pub(crate) line: u32,
    pub(crate) source: Option<Kind>,
    pub(crate) target: FoundCluster,
    pub(crate) replace: bool,
}

/// The kind of a source, none of data cards.
pub(crate) fn kind_of(source: &Option<FoundCluster>) -> Option<Kind>
    ensures { result ≡ stated.kind_of source.now }
{
    match source {
        None => None,
        Some(source) => Some(source.kind),
    }
}
