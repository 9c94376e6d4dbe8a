//! What trying to put a record into the target came to.
ghost use Rattle.std.specs.Prelude.{◌≡◌};
ghost use Rattle.vr_ams_repro.specs.Progress as stated;

use vr_types::{DeviceFault, Reply};

/// How a record is put into the target: added, or in place of the one at its place.
#[derive(Clone, Copy)]
pub(crate) enum Way {
    Add,
    Replace,
}

/// What is at the place of a record: none, one, or the device failed to read.
#[derive(Clone, Copy)]
pub(crate) enum Look {
    Free,
    Taken,
    Unread(DeviceFault),
}

/// What trying to put a record into the target came to: the last reply, or it wasn't read what is
/// there.
#[derive(Drop)]
pub(crate) enum Tried {
    Replied { way: Way, reply: Reply },
    Unread(DeviceFault),
}

/// Whether the log was full.
fn is_log_full(reply: &Reply) -> bool
    ensures { result ≡ stated.is_log_full reply.now }
{
    match reply {
        Reply::Done { .. } => false,
        Reply::Refused(refusal) => refusal.code() == 902,
    }
}

impl Tried {
    /// Whether the log was full.
    pub(crate) fn is_full(&self) -> bool
        ensures { result ≡ stated.is_full self.now }
    {
        match self {
            Tried::Replied { reply, .. } => is_log_full(reply),
            Tried::Unread(_) => false,
        }
    }
}
