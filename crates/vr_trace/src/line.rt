//! What the lines of requests and of the merged history are made of.
ghost use Rattle.std.specs.Prelude.{◌≡◌, ◌++◌, [], ◌∷◌, codes, OnOk};
ghost use Rattle.std.specs.Fmt.{decimal};
ghost use Rattle.vr_trace.specs.Lines as lines;

use crate::code::{feedback, return_code};
use crate::kept::FileNames;
use std::alloc::Global;
use vr_text::write_literal;
use vr_types::{Bytes, Kind, OutOfMemory, Place, Refusal, Reply, Request, Unit, four_at};

/// What ends a line.
pub const NEW_LINE: u8 = b'\n';

/// Writes a number in digits.
pub(crate) fn write_number(alloc: Global, out: &mut Bytes, number: u64) -> Result<(), OutOfMemory>
    ensures { OnOk result (out.new ≡ out.old ++ decimal number) }
{
    let digits = number.to_string(alloc)?;
    out.extend(digits.as_bytes())
}

/// Writes a keyword and a number in digits. Out of memory is its one error.
pub fn write_field(
    alloc: Global,
    out: &mut Bytes,
    keyword: &[u8],
    number: u64,
) -> Result<(), OutOfMemory>
    ensures { OnOk result (out.new ≡ out.old ++ lines.field keyword.now number) }
{
    out.extend(keyword)?;
    write_number(alloc, out, number)
}

/// Writes a unit of recovery: its deck, and its number in that deck.
pub(crate) fn write_unit(alloc: Global, out: &mut Bytes, unit: Unit) -> Result<(), OutOfMemory>
    ensures { OnOk result (out.new ≡ out.old ++ lines.unit_text unit) }
{
    write_number(alloc, out, u64::from(unit.deck))?;
    write_field(alloc, out, b".", u64::from(unit.number))
}

/// The verb of a request, as a deck has it.
pub(crate) fn verb(request: &Request) -> &'static [u8]
    ensures { result.now ≡ lines.verb_of request.now }
{
    match request {
        Request::Get { .. } => b"GET",
        Request::Point { .. } => b"POINT",
        Request::Add { .. } | Request::Update { .. } => b"PUT",
        Request::Erase { .. } => b"ERASE",
        Request::EndReq { .. } => b"ENDREQ",
        Request::Commit => b"COMMIT",
        Request::Backout => b"BACKOUT",
    }
}

/// Writes the deck's name of the file, where the request is on one.
pub(crate) fn write_file(
    out: &mut Bytes,
    names: &FileNames,
    request: &Request,
) -> Result<(), OutOfMemory>
    ensures { OnOk result (out.new ≡ out.old ++ lines.file_of names.now request.now) }
{
    match request {
        Request::Commit | Request::Backout => Ok(()),
        Request::Get { file, .. }
        | Request::Point { file, .. }
        | Request::Add { file, .. }
        | Request::Update { file, .. }
        | Request::Erase { file }
        | Request::EndReq { file } => write_name(out, names.name(file.slot)),
    }
}

fn write_name(out: &mut Bytes, name: &[u8]) -> Result<(), OutOfMemory>
    ensures { OnOk result (out.new ≡ out.old ++ (codes " " ++ name.now)) }
{
    out.extend(b" ")?;
    out.extend(name)
}

/// Writes the return code and the feedback number of a reply.
pub(crate) fn write_result(alloc: Global, out: &mut Bytes, reply: &Reply) -> Result<(), OutOfMemory>
    ensures { OnOk result (out.new ≡ out.old ++ lines.result_of reply.now) }
{
    write_field(alloc, out, b" RC=", u64::from(return_code(reply)))?;
    write_field(alloc, out, b" FB=", u64::from(feedback(reply)))
}

/// The kind of the data set that the request is on.
fn kind(request: &Request) -> Kind
    ensures { result ≡ lines.kind_of request.now }
{
    match request {
        Request::Commit | Request::Backout => Kind::Keyed,
        Request::Get { file, .. }
        | Request::Point { file, .. }
        | Request::Add { file, .. }
        | Request::Update { file, .. }
        | Request::Erase { file }
        | Request::EndReq { file } => file.kind,
    }
}

/// Writes the place and the record of a reply to the request, or the numbers of its refusal.
pub(crate) fn write_values(
    alloc: Global,
    out: &mut Bytes,
    request: &Request,
    reply: &Reply,
) -> Result<(), OutOfMemory>
    ensures { OnOk result (out.new ≡ out.old ++ lines.values_of request.now reply.now) }
{
    match reply {
        Reply::Refused(refusal) => write_numbers(alloc, out, refusal),
        Reply::Done { place, bytes, .. } => {
            write_place(alloc, out, kind(request), place)?;
            write_bytes(out, bytes)
        }
    }
}

fn write_place(
    alloc: Global,
    out: &mut Bytes,
    kind: Kind,
    place: &Option<Place>,
) -> Result<(), OutOfMemory>
    ensures { OnOk result (out.new ≡ out.old ++ lines.place_shown kind place.now) }
{
    if let Some(place) = place {
        out.extend(b" AT=")?;
        write_place_named(alloc, out, kind, place.as_slice())?;
    }
    Ok(())
}

/// Writes a key as a literal, an address or the number of a slot as a number.
fn write_place_named(
    alloc: Global,
    out: &mut Bytes,
    kind: Kind,
    place: &[u8],
) -> Result<(), OutOfMemory>
    ensures { OnOk result (out.new ≡ out.old ++ lines.place_named kind place.now) }
{
    match kind {
        Kind::Keyed => write_literal(place, out),
        Kind::Entry | Kind::Relative => write_place_number(alloc, out, place),
    }
}

/// Writes the number in the four bytes of a place. Other bytes, which are the place of no record
/// there, are written as a literal.
fn write_place_number(alloc: Global, out: &mut Bytes, place: &[u8]) -> Result<(), OutOfMemory>
    ensures { OnOk result (out.new ≡ out.old ++ lines.number_text place.now) }
{
    if place.len() == 4 {
        write_number(alloc, out, u64::from(four_at(place, 0)))
    } else {
        write_literal(place, out)
    }
}

fn write_bytes(out: &mut Bytes, bytes: &Option<Bytes>) -> Result<(), OutOfMemory>
    ensures { OnOk result (out.new ≡ out.old ++ lines.shown (codes " DATA=") bytes.now) }
{
    if let Some(bytes) = bytes {
        out.extend(b" DATA=")?;
        write_literal(bytes.as_slice(), out)?;
    }
    Ok(())
}

/// Writes the numbers of a refusal: the free areas, the unit that holds the lock, or the room of
/// the log.
fn write_numbers(alloc: Global, out: &mut Bytes, refusal: &Refusal) -> Result<(), OutOfMemory>
    ensures { OnOk result (out.new ≡ out.old ++ lines.numbers_of refusal.now) }
{
    match refusal {
        Refusal::NoSpace { free, .. } => write_field(alloc, out, b" FREE=", u64::from(*free)),
        Refusal::Held { holder, .. } => write_holder(alloc, out, *holder),
        Refusal::LogFull { used, need, size } => write_room(alloc, out, *used, *need, *size),
        _ => Ok(()),
    }
}

fn write_holder(alloc: Global, out: &mut Bytes, holder: Unit) -> Result<(), OutOfMemory>
    ensures { OnOk result (out.new ≡ out.old ++ (codes " HOLDER=" ++ lines.unit_text holder)) }
{
    out.extend(b" HOLDER=")?;
    write_unit(alloc, out, holder)
}

fn write_room(
    alloc: Global,
    out: &mut Bytes,
    used: u64,
    need: u64,
    size: u64,
) -> Result<(), OutOfMemory>
    ensures { OnOk result (out.new ≡ out.old ++ (lines.field (codes " USED=") used
        ++ lines.field (codes " NEED=") need ++ lines.field (codes " SIZE=") size)) }
{
    write_field(alloc, out, b" USED=", used)?;
    write_field(alloc, out, b" NEED=", need)?;
    write_field(alloc, out, b" SIZE=", size)
}
