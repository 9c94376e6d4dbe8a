//! Single words: names and numbers.
ghost use Rattle.std.specs.Prelude.{◌≡◌, ◌≤◌, true, false, IfNone, IfSome, MatchOption};
ghost use Rattle.vr_text.specs.Number.{number_of};
ghost use Rattle.vr_job_ends.specs.Words.{is_name, is_name_or_dash, is_numeral, is_count};

/// The most digits that a number may have.
const DIGIT_LIMIT: usize = 10;

/// The most volumes that there may be.
const VOLUME_LIMIT: u64 = 16;

/// Whether a word may name a directory: it doesn't begin with `-`.
pub(crate) fn is_name(word: &str) -> bool
    ensures { result ≡ is_name word.now }
{
    match word.as_bytes().first() {
        Some(byte) => *byte != b'-',
        None => true,
    }
}

/// Whether a word may name a file or a directory, or is `-` itself.
pub(crate) fn is_name_or_dash(word: &str) -> bool
    ensures { result ≡ is_name_or_dash word.now }
{
    is_name(word) || word == "-"
}

/// The number that 1 to 10 digits write.
pub(crate) fn number(word: &str) -> Option<u64>
    ensures { MatchOption result (is_numeral word.now ≡ false)
        (λ n. (is_numeral word.now ≡ true) × (n ≡ number_of word.now)) }
{
    if word.len() > DIGIT_LIMIT {
        return None;
    }
    vr_text::number(word)
}

/// How many volumes, 1 to 16.
pub(crate) fn count(word: &str) -> Option<u32>
    ensures { MatchOption result (is_count word.now ≡ false)
        (λ n. (is_count word.now ≡ true) × (n ≡ number_of word.now)) }
{
    let count = number(word)?;
    if count == 0 || count > VOLUME_LIMIT {
        return None;
    }
    Some(count as u32)
}
