//! The words of a command line.
ghost use Rattle.std.specs.Prelude.{◌≡◌, ◌≢◌, ◌<◌, ◌^◌, ℕ, length, map, decimal, string_bytes, IfSome, IfNone};
ghost use Rattle.febe_data.specs.LimitsView.{standard_limits};
ghost use Rattle.green_top.specs.Words.{is_folder, SpellLimits, SpellNoLimits, AreNoWords};
ghost use Rattle.green_top.specs.inside.Forms.{limits_of, IsForm};

use febe_data::Limits;
use itoa::Buffer;

/// What the words of a command line ask for.
#[derive(Drop)]
pub(crate) enum Form {
    /// A session that comes from the source.
    Session { limits: Limits },
    /// A session that this number generates.
    Generate { start: u32 },
}

impl Form {
    /// The limits of the run.
    pub(crate) fn limits(&self) -> Limits
        ensures { result ≡ limits_of self.now }
    {
        match self {
            Form::Session { limits } => *limits,
            Form::Generate { .. } => standard_limits(),
        }
    }
}

/// The limits of a run that names none.
fn standard_limits() -> Limits
    ensures { result ≡ standard_limits }
{
    Limits::new(4_194_304, 1_073_741_824, 256).unwrap()
}

fn is_folder(word: &str) -> bool
    ensures { result ≡ is_folder word.now }
{
    match word.as_bytes().first() {
        Some(first) => *first != b'-',
        None => false,
    }
}

/// The number that a word is in decimal, without sign or leading zeros.
fn number_of(word: &str) -> Option<u32>
    ensures some { IfSome result (λ n. word.now ≡ decimal n) }
    ensures none { IfNone result ((n : ℕ) → n < 2 ^ 32 → word.now ≢ decimal n) }
{
    let Ok(number) = word.parse::<u32>() else {
        return None;
    };
    let mut buffer = Buffer::new();
    if buffer.format(number) != word {
        return None;
    }
    Some(number)
}

/// The limits of these three numbers, where each is one and they are within their bounds.
fn named_limits(entries: &str, text: &str, flush: &str) -> Option<Limits>
    ensures some { IfSome result (SpellLimits entries.now text.now flush.now) }
    ensures none { IfNone result (SpellNoLimits entries.now text.now flush.now) }
{
    let entries = number_of(entries)?;
    let text = number_of(text)?;
    let flush = number_of(flush)?;
    Limits::new(entries, text, flush).ok()
}

/// The form that six words have, where they have one.
fn six_words(words: &[String]) -> Option<Form>
    requires { length words.now ≡ 6 }
    ensures some { IfSome result (IsForm (map string_bytes words.now)) }
    ensures none { IfNone result (AreNoWords (map string_bytes words.now)) }
{
    if !is_folder(words[1].as_str()) || words[2].as_str() != "--limits" {
        return None;
    }
    let limits = named_limits(words[3].as_str(), words[4].as_str(), words[5].as_str())?;
    Some(Form::Session { limits })
}

/// The form that four words have, where they have one.
fn four_words(words: &[String]) -> Option<Form>
    requires { length words.now ≡ 4 }
    ensures some { IfSome result (IsForm (map string_bytes words.now)) }
    ensures none { IfNone result (AreNoWords (map string_bytes words.now)) }
{
    if !is_folder(words[1].as_str()) || words[2].as_str() != "--generate" {
        return None;
    }
    let start = number_of(words[3].as_str())?;
    Some(Form::Generate { start })
}

/// The form that two words have, where they have one.
fn two_words(words: &[String]) -> Option<Form>
    requires { length words.now ≡ 2 }
    ensures some { IfSome result (IsForm (map string_bytes words.now)) }
    ensures none { IfNone result (AreNoWords (map string_bytes words.now)) }
{
    if !is_folder(words[1].as_str()) {
        return None;
    }
    let limits = standard_limits();
    Some(Form::Session { limits })
}

/// The form of the program that the words have, where they have one.
pub(crate) fn form_in(words: &[String]) -> Option<Form>
    ensures some { IfSome result (IsForm (map string_bytes words.now)) }
    ensures none { IfNone result (AreNoWords (map string_bytes words.now)) }
{
    match words.len() {
        2 => two_words(words),
        4 => four_words(words),
        6 => six_words(words),
        _ => None,
    }
}
