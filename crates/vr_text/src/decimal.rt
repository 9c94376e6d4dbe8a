//! Numbers in text.
ghost use Rattle.std.specs.Prelude.{◌≡◌, IfNone, IfSome};
ghost use Rattle.vr_text.specs.Number.{IsNumber, number_of};

/// The most digits that a number may have.
const DIGIT_LIMIT: usize = 19;

/// The number that 1 to 19 decimal digits write. Any other text is none.
pub fn number(text: &str) -> Option<u64>
    ensures value { IfSome result (λ n. IsNumber text.now × (n ≡ number_of text.now)) }
    ensures none { IfNone result (¬ IsNumber text.now) }
{
    if text.len() > DIGIT_LIMIT || text.as_bytes().starts_with(b"+") {
        return None;
    }
    text.parse().ok()
}
