//! The words of a line, and its columns.
ghost use Rattle.std.specs.Prelude.{◌≡◌, ◌≤◌, ◌^◌, length};
ghost use Rattle.vr_deck_text.specs.Words.{is_blank, without_end};
ghost use Rattle.vr_job_text.specs.Text.{is_printable, first_bad, unindented, word, after_word};
ghost use Rattle.vr_job_text.specs.Text.{column_of};

/// Whether a byte is a blank.
fn is_blank(byte: u8) -> bool
    ensures { result ≡ is_blank byte }
{
    byte == b' '
}

/// Whether a character may stand in a job.
fn is_printable(byte: u8) -> bool
    ensures { result ≡ is_printable byte }
{
    byte >= 32 && byte <= 126
}

/// Where the first character is that may not.
pub(crate) fn first_bad(line: &[u8]) -> Option<usize>
    ensures { result ≡ first_bad line.now }
{
    line.iter().position(|byte| !is_printable(*byte))
}

/// The line without the blanks at its end.
pub(crate) fn without_end(line: &[u8]) -> &[u8]
    ensures value { result.now ≡ without_end line.now }
    ensures shorter { length result.now ≤ length line.now }
{
    let mut end = line.len();
    while end > 0 && is_blank(line[end - 1]) {
        end -= 1;
    }
    &line[..end]
}

/// The line from its first byte on that is not a blank.
pub(crate) fn unindented(line: &[u8]) -> &[u8]
    ensures value { result.now ≡ unindented line.now }
    ensures shorter { length result.now ≤ length line.now }
{
    for (at, byte) in line.iter().enumerate() {
        if !is_blank(*byte) {
            return &line[at..];
        }
    }
    &line[line.len()..]
}

/// The word that a line begins with: its bytes up to the first blank.
pub(crate) fn word(line: &[u8]) -> &[u8]
    ensures value { result.now ≡ word line.now }
    ensures shorter { length result.now ≤ length line.now }
{
    for (at, byte) in line.iter().enumerate() {
        if is_blank(*byte) {
            return &line[..at];
        }
    }
    line
}

/// What follows that word and the blanks after it.
pub(crate) fn after_word(line: &[u8]) -> &[u8]
    ensures value { result.now ≡ after_word line.now }
    ensures shorter { length result.now ≤ length line.now }
{
    unindented(&line[word(line).len()..])
}

/// The column where the rest of a line begins, counted from 1.
pub(crate) fn column_of(line: &[u8], rest: &[u8]) -> u32
    requires short { length line.now ≤ 2 ^ 26 }
    requires within { length rest.now ≤ length line.now }
    ensures { result ≡ column_of line.now rest.now }
{
    (line.len() - rest.len() + 1) as u32
}
