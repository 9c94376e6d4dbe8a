//! A source over one file of the host: the trusted edge, which reports no bytes.
ghost use Rattle.std.specs.Prelude.{◌≡◌, ℕ, ◌+◌, None, ◌≤◌, length, take, IfOk, IfSome, IsErr};
ghost use Rattle.vr_outside.specs.FileSource.{file_faults, HasNoFile};
ghost use Rattle.vr_outside.specs.Told.{Reads};
ghost use Rattle.vr_types.specs.Count.{shown_of};
ghost use Rattle.vr_types.specs.Faults.{CountsFault};

use crate::source::Source;
use std::fs::{File, Files};
use std::io::Read;
use vr_types::{Failed, FaultCount};

/// A source over one file of the host, from its first byte on. It reports no bytes, since no clause
/// can say what a file holds. Where the file can't be opened, every read fails. Each `Err` of the
/// host is a fault, an interrupted read too, and isn't tried again.
#[derive(Drop)]
pub struct FileSource {
    file: Option<File>,
    faults: FaultCount,
}

impl FileSource {
    /// Opens the file of this path to be read. No fault is counted yet, also where it can't be
    /// opened.
    pub fn open<R: Files<File = File>>(rt: &R, path: &str) -> FileSource
        ensures { file_faults result ≡ 0 }
    {
        FileSource {
            file: File::open(rt, path).ok(),
            faults: FaultCount::new(),
        }
    }

    /// How many calls failed, up to 2^64 - 1.
    pub fn fault_count(&self) -> u64
        ensures { result ≡ shown_of (file_faults self.now) }
    {
        self.faults.shown()
    }
}

impl Source for FileSource {
    ghost left = { λ _. None };

    ghost faults = { file_faults };

    fn read(&mut self, into: &mut [u8]) -> Result<usize, Failed>
        // Each read of a file that couldn't be opened fails.
        ensures missing { HasNoFile self.old → IsErr result }

        // A call counts one fault at most.
        ensures once { file_faults self.new ≤ file_faults self.old + 1 }

        // The trait's clauses.
        ensures within { IfOk result (λ n. n ≤ length into.new) }
        ensures bytes { IfOk result (λ n. Reads None None (take n into.new)) }
        ensures cause { CountsFault (file_faults self.old) (file_faults self.new) result }
    {
        match read_from(&mut self.file, into) {
            Some(n) => Ok(n),
            None => {
                self.faults.raise();
                Err(Failed)
            }
        }
    }
}

/// Reads the next bytes of a file, if there is one. `None` is a read that failed.
fn read_from(file: &mut Option<File>, into: &mut [u8]) -> Option<usize>
    ensures none { file.old ≡ None → result ≡ None }
    ensures within { IfSome result (λ n. n ≤ length into.new) }
{
    file.as_mut()?.read(into).ok()
}
