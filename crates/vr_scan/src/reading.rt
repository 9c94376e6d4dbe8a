//! The reading of a command text.
ghost use Rattle.std.specs.Prelude.{◌≡◌, [], IfOk, IfErr, OnOk};
ghost use Rattle.vr_scan.specs.Scan.{IsTokens, CauseOf};

use crate::class::class_of;
use crate::cursor::Cursor;
use crate::draft::Draft;
use crate::fault::ScanFault;
use crate::piece::take_piece;
use crate::token::Tokens;
use std::alloc::Global;
use vr_text::Lines;

/// The tokens of the lines of a command text, after Access Method Services Commands. Columns 2 to 72
/// of a line count, without the blanks at their end. A line whose last character is `-` goes on in
/// the next as after a blank; with `+` it goes on directly at the next line's first character that
/// isn't blank. A comment counts as a blank and may run over lines. An `End` stands where a line
/// doesn't go on, and at `;`, but not where no other token stands before it since the last `End`: so
/// no two follow one another, none comes first, and the last token is one.
///
/// `Form` is the first fault of the text, with its place. `Memory` may come at any text.
pub fn scan(alloc: Global, lines: &Lines) -> Result<Tokens, ScanFault>
    ensures tokens { IfOk result (IsTokens lines.now) }
    ensures fault { IfErr result (CauseOf lines.now) }
{
    let mut draft = Draft::new(alloc);
    match read_pieces(lines, &mut draft) {
        Ok(()) => Ok(draft.into_tokens()),
        Err(fault) => Err(fault),
    }
}

/// Reads all pieces of the lines.
fn read_pieces(lines: &Lines, draft: &mut Draft) -> Result<(), ScanFault>
    requires { draft.old ≡ record { tokens = []; text = [] } }
    ensures ok { OnOk result (IsTokens lines.now draft.new.tokens) }
    ensures fault { IfErr result (CauseOf lines.now) }
{
    let mut cursor = Cursor::new(lines);
    let mut begun = false;
    while let Some(mark) = cursor.first() {
        let class = class_of(mark, cursor.second());
        cursor.advance();
        begun = take_piece(class, mark, &mut cursor, draft, begun)?;
    }
    Ok(())
}
