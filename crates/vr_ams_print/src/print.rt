//! PRINT.
ghost use Rattle.std.specs.Prelude.{◌≡◌, ◌∷◌, ◌<◌, [], length, map, IfOk, IsErr};
ghost use Rattle.std.specs.Option.{option_copied};
ghost use Rattle.vr_ams_define.specs.Grown.{AreRunOn};
ghost use Rattle.vr_ams_print.specs.Outcomes.{IsPrintAnswered, IsPrintedBy};
ghost use Rattle.vr_ams_print.specs.Printed as stated;
ghost use Rattle.vr_ams_print.specs.Steps.{HasHandedOver, IsShownStill, IsSource, IsThere};

use crate::printing::Printing;
use crate::selection::{first_place, has_keys, most_of};
use crate::source::{FoundCluster, find_source};
use std::alloc::Global;
use vr_ams_define::{OwnedVolume, ReadBack, fault_failure, last_of};
use vr_amsparse::PrintCommand;
use vr_trace::{Outcome, RecordVisitor, RunNo, refused};
use vr_types::Place;

/// Has the volume of a cluster hand its records over, from a place on where there is one. What that
/// enters comes after all that the volumes have. Where stamps or memory run out, no volume shows
/// anything else than it showed.
pub fn read_source<V: OwnedVolume, R: RecordVisitor>(
    volumes: &mut [V],
    line: u32,
    source: &FoundCluster,
    from: Option<&Place>,
    visitor: &mut R,
) -> Result<ReadBack, RunNo>
    requires there { IsThere (map V.shown volumes.old) source.now }
    requires within { source.now.place < length volumes.old }
    ensures read { IfOk result (HasHandedOver V.answers R.after R.done line source.now
        (option_copied from.entry) visitor.old visitor.new volumes.old volumes.new) }
    ensures shown { IsShownStill result (map V.shown volumes.old) (map V.shown volumes.new) }
    ensures grew { AreRunOn V.history V.goes (line ∷ []) volumes.old volumes.new }
    ensures geometry { map V.geometry volumes.new ≡ map V.geometry volumes.old }
{
    let after = last_of(volumes);
    let number = source.place;
    let volume = &mut volumes[number];
    volume.read(line, &source.entry, from, after, visitor)
}

/// Prints the records of a data set.
fn print_source<V: OwnedVolume>(
    alloc: Global,
    volumes: &mut [V],
    line: u32,
    command: &PrintCommand,
    source: &FoundCluster,
) -> Result<Outcome, RunNo>
    requires found { IsSource (stated.has_keys command.now.from command.now.to)
        (map V.shown volumes.old) command.now.source source.now }
    ensures printed { IfOk result
        (IsPrintAnswered V.shown V.answers line command.now volumes.old volumes.new) }
    ensures unchanged { IsErr result → map V.shown volumes.new ≡ map V.shown volumes.old }
    ensures grew { AreRunOn V.history V.goes (line ∷ []) volumes.old volumes.new }
    ensures geometry { map V.geometry volumes.new ≡ map V.geometry volumes.old }
{
    let from = first_place(alloc, &command.from)?;
    let mut printing = Printing::new(alloc, source.kind, command)?;
    match read_source(volumes, line, source, from.as_ref(), &mut printing)? {
        ReadBack::Done => Ok(printing.into_outcome(most_of(&command.to))?),
        ReadBack::Fault(fault) => Ok(refused(alloc, fault_failure(fault))),
    }
}

/// PRINT of Access Method Services Commands, of a cluster, over the volumes, volume 0 first, which
/// no deck has. It is refused, and no volume is asked, with the first of these: fault 2 where no
/// volume has the name; 903 where the lowest that has it has stopped; 3 where that is no cluster's
/// name, or FROMKEY or TOKEY is given and it isn't key-sequenced. Else the volume is asked for the
/// records in one event: fault 904 or 905 where its device fails, and no line then; else a line
/// with its place and the lines of its bytes for each record that is printed, and at the end how
/// many there were. What is entered comes after all that the volumes have. Where stamps or memory
/// run out, no volume shows anything else than it showed.
pub fn print_records<V: OwnedVolume>(
    alloc: Global,
    volumes: &mut [V],
    line: u32,
    command: &PrintCommand,
) -> Result<Outcome, RunNo>
    ensures printed { IfOk result
        (IsPrintedBy V.shown V.answers line command.now volumes.old volumes.new) }
    ensures unchanged { IsErr result → map V.shown volumes.new ≡ map V.shown volumes.old }
    ensures grew { AreRunOn V.history V.goes (line ∷ []) volumes.old volumes.new }
    ensures geometry { map V.geometry volumes.new ≡ map V.geometry volumes.old }
{
    let keyed = has_keys(&command.from, &command.to);
    match find_source(alloc, keyed, volumes, &command.source)? {
        Err(failure) => Ok(refused(alloc, failure)),
        Ok(source) => print_source(alloc, volumes, line, command, &source),
    }
}
