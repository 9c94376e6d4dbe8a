//! VERIFY.
ghost use Rattle.std.specs.Prelude.{◌≡◌, ◌∷◌, ◌<◌, [], false, length, map, IfOk, IsErr};
ghost use Rattle.vr_ams_define.specs.Answers.Exchange.{Counting};
ghost use Rattle.vr_ams_define.specs.Grown.{AreRunOn};
ghost use Rattle.vr_trace.specs.Commands.{done};
ghost use Rattle.vr_ams_print.specs.Outcomes.{IsVerifiedBy, IsVerifyAnswered, records_line};
ghost use Rattle.vr_ams_print.specs.Steps.{IsAskedAt, IsCountedStill, IsSource, IsThere};

use crate::source::{FoundCluster, find_source};
use std::alloc::Global;
use vr_ams_define::{Counted, OwnedVolume, fault_failure, last_of};
use vr_trace::{NEW_LINE, Outcome, RunNo, refused, write_field};
use vr_types::{Bytes, Name, OutOfMemory};

/// The outcome of a data set that has as many records.
fn counted_outcome(alloc: Global, count: u64) -> Result<Outcome, OutOfMemory>
    ensures { IfOk result (λ outcome. outcome ≡ done (records_line count)) }
{
    let mut lines = Bytes::new(alloc);
    write_field(alloc, &mut lines, b"RECORDS ", count)?;
    lines.push(NEW_LINE)?;
    Ok(Outcome {
        lines,
        code: 0,
        fault: None,
    })
}

/// Has the volume of a data set count it. What that enters comes after all that the volumes have.
fn count_source<V: OwnedVolume>(
    volumes: &mut [V],
    line: u32,
    source: &FoundCluster,
) -> Result<Counted, RunNo>
    requires there { IsThere (map V.shown volumes.old) source.now }
    requires within { source.now.place < length volumes.old }
    ensures counted { IfOk result (λ answer. IsAskedAt V.answers line source.now
        (Counting source.now.entry answer) volumes.old volumes.new) }
    ensures shown { IsCountedStill result (map V.shown volumes.old) (map V.shown volumes.new) }
    ensures grew { AreRunOn V.history V.goes (line ∷ []) volumes.old volumes.new }
    ensures geometry { map V.geometry volumes.new ≡ map V.geometry volumes.old }
{
    let after = last_of(volumes);
    let number = source.place;
    let volume = &mut volumes[number];
    volume.count(line, &source.entry, after)
}

/// Verifies a data set.
fn verify_source<V: OwnedVolume>(
    alloc: Global,
    volumes: &mut [V],
    line: u32,
    name: &Name,
    source: &FoundCluster,
) -> Result<Outcome, RunNo>
    requires found { IsSource false (map V.shown volumes.old) name.now source.now }
    ensures verified { IfOk result
        (IsVerifyAnswered V.shown V.answers line name.now volumes.old volumes.new) }
    ensures unchanged { IsErr result → map V.shown volumes.new ≡ map V.shown volumes.old }
    ensures grew { AreRunOn V.history V.goes (line ∷ []) volumes.old volumes.new }
    ensures geometry { map V.geometry volumes.new ≡ map V.geometry volumes.old }
{
    match count_source(volumes, line, source)? {
        Counted::Done(numbers) => Ok(counted_outcome(alloc, numbers.records)?),
        Counted::Fault(fault) => Ok(refused(alloc, fault_failure(fault))),
    }
}

/// VERIFY of Access Method Services Commands, of a cluster, over the volumes, volume 0 first, which
/// no deck has: it reads the data set through, and prints how many records that has. It is refused,
/// and no volume is asked, with the first of these: fault 2 where no volume has the name; 903 where
/// the lowest that has it has stopped; 3 where that is no cluster's name. Else the volume is asked
/// in one event: fault 904 or 905 where its device fails. What is entered comes after all that the
/// volumes have. Where stamps or memory run out, no volume shows anything else than it showed.
pub fn verify_cluster<V: OwnedVolume>(
    alloc: Global,
    volumes: &mut [V],
    line: u32,
    name: &Name,
) -> Result<Outcome, RunNo>
    ensures verified { IfOk result
        (IsVerifiedBy V.shown V.answers line name.now volumes.old volumes.new) }
    ensures unchanged { IsErr result → map V.shown volumes.new ≡ map V.shown volumes.old }
    ensures grew { AreRunOn V.history V.goes (line ∷ []) volumes.old volumes.new }
    ensures geometry { map V.geometry volumes.new ≡ map V.geometry volumes.old }
{
    match find_source(alloc, false, volumes, name)? {
        Err(failure) => Ok(refused(alloc, failure)),
        Ok(source) => verify_source(alloc, volumes, line, name, &source),
    }
}
