//! The words of a line.
ghost use Rattle.std.specs.Prelude.{◌≡◌, ℕ, ◌<◌, ◌≤◌, ◌∷◌, [], List, false, length, take, drop};
ghost use Rattle.std.specs.Prelude.{slice_index, MatchOption};
ghost use Rattle.vr_deck_text.specs.Words.{is_gap, turned, before, words, keyword, value};

/// A word, and what follows it.
#[derive(Clone, Copy)]
pub(crate) struct Cut<'a> {
    pub word: &'a [u8],
    pub rest: &'a [u8],
}

/// Whether a byte stands between words: a blank that is not between quotes.
fn is_gap(quoted: bool, byte: u8) -> bool
    ensures { result ≡ is_gap quoted byte }
{
    !quoted && byte == b' '
}

/// Whether what follows a byte is between quotes.
fn turned(quoted: bool, byte: u8) -> bool
    ensures { result ≡ turned quoted byte }
{
    if byte == b'\'' { !quoted } else { quoted }
}

/// The text from its first byte on that is not a blank.
fn unindented(text: &[u8]) -> &[u8]
    ensures same { words result.now ≡ words text.now }
    ensures shorter { length result.now ≤ length text.now }
    ensures starts { 0 < length result.now → is_gap false (slice_index result.now 0) ≡ false }
{
    for (at, byte) in text.iter().enumerate() {
        if !is_gap(false, *byte) {
            return &text[at..];
        }
    }
    b""
}

/// How many bytes the first word has, where the text doesn't begin with a blank.
fn word_len(text: &[u8]) -> usize
    requires some { 0 < length text.now }
    requires starts { is_gap false (slice_index text.now 0) ≡ false }
    ensures some { 0 < result }
    ensures within { result ≤ length text.now }
    ensures cut { words text.now ≡ before (take result text.now) (words (drop result text.now)) }
{
    let mut quoted = false;
    for (at, byte) in text.iter().enumerate() {
        if is_gap(quoted, *byte) {
            return at;
        }
        quoted = turned(quoted, *byte);
    }
    text.len()
}

/// The first word of a text, if it has one.
pub(crate) fn next_word<'a>(text: &'a [u8]) -> Option<Cut<'a>>
    ensures { MatchOption result (words text.now ≡ [])
        (λ cut. (words text.now ≡ cut.word.now ∷ words cut.rest.now)
        × (length cut.rest.now < length text.now)) }
{
    let text = unindented(text);
    if text.is_empty() {
        return None;
    }
    let len = word_len(text);
    Some(Cut {
        word: &text[..len],
        rest: &text[len..],
    })
}

/// How many bytes of a word its keyword has: those up to the first `=`, or all.
fn keyword_len(word: &[u8]) -> usize
    ensures within { result ≤ length word.now }
    ensures keyword { take result word.now ≡ keyword word.now }
    ensures value { drop result word.now ≡ value word.now }
{
    for (at, byte) in word.iter().enumerate() {
        if *byte == b'=' {
            return at + 1;
        }
    }
    word.len()
}

/// The keyword of a word and its value: the word up to its first `=`, and what follows that.
pub(crate) fn split_keyword<'a>(word: &'a [u8]) -> Cut<'a>
    ensures keyword { result.word.now ≡ keyword word.now }
    ensures value { result.rest.now ≡ value word.now }
{
    let len = keyword_len(word);
    Cut {
        word: &word[..len],
        rest: &word[len..],
    }
}
