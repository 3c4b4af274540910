//! Numbers in decimal.
ghost use Rattle.std.specs.Prelude.{◌≡◌, ◌≢◌, ◌<◌, ◌^◌, ℕ, decimal, IfSome, IfNone};
ghost use Rattle.server_words.specs.Words.{SpellsNumber, SpellsNoNumber};

use itoa::Buffer;

/// The number that a word is in decimal, without sign or leading zeros.
fn number_of(word: &str) -> Option<u32>
    ensures some { IfSome result (λ n. word.now ≡ decimal n) }
    ensures none { IfNone result ((n : ℕ) → n < 2 ^ 32 → word.now ≢ decimal n) }
{
    let Ok(number) = word.parse::<u32>() else {
        return None;
    };
    let mut buffer = Buffer::new();
    if buffer.format(number) != word {
        return None;
    }
    Some(number)
}

/// The number from `least` to `most` that a word is in decimal, without sign or leading zeros.
pub(crate) fn number_within(word: &str, least: u32, most: u32) -> Option<u32>
    ensures some { IfSome result (SpellsNumber least most word.now) }
    ensures none { IfNone result (SpellsNoNumber least most word.now) }
{
    let number = number_of(word)?;
    if number < least || most < number {
        return None;
    }
    Some(number)
}
