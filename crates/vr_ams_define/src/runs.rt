//! The definitions that are run yet.
ghost use Rattle.std.specs.Prelude.{◌≡◌};
ghost use Rattle.vr_ams_define.specs.Runs as stated;

use vr_catalog::NewEntry;

/// Whether it is a cluster that isn't spanned.
pub fn is_plain_cluster(what: &NewEntry) -> bool
    ensures { result ≡ stated.is_plain_cluster what.now }
{
    match what {
        NewEntry::Cluster { spanned, .. } => !*spanned,
        NewEntry::Alternate { .. } | NewEntry::Path { .. } => false,
    }
}

/// Whether a DEFINE of this is run yet: of all but a spanned cluster.
pub fn is_run(what: &NewEntry) -> bool
    ensures { result ≡ stated.is_run what.now }
{
    match what {
        NewEntry::Cluster { spanned, .. } => !*spanned,
        NewEntry::Alternate { .. } | NewEntry::Path { .. } => true,
    }
}
