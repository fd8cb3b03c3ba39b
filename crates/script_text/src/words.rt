ghost use Rattle.std.specs.Prelude.{◌≡◌, ◌∷◌, [], ◌+◌, ◌-◌, ◌*◌, ◌^◌, ◌<◌, ◌≤◌, IfSome, IfNone, position, length};
ghost use Rattle.std.specs.List.{list_all};
ghost use Rattle.std.specs.Option.{option_map};
ghost use Rattle.line_text.specs.Numbers.{is_digit};
ghost use Rattle.script_text.specs.Scripts.{is_space, words, three, are_digits, number_from, number_of, reading_of, verb_of, least_actor, actor_of, line_of};

use crate::script::{ScriptLine, Verb};

/// Where the first space of a text stands.
fn place_of_space(text: &[u8]) -> Option<usize>
    ensures first { result ≡ position is_space text.now }
    ensures within { IfSome result (λ i. i < length text.now) }
{
    text.iter().position(|b| *b == b' ')
}

/// What stands before and behind the first space of a text, where there is one.
fn cut_word(text: &[u8]) -> Option<(&[u8], &[u8])>
    ensures some { IfSome result (λ x. words text.now ≡ x.0.now ∷ words x.1.now) }
    ensures none { IfNone result (words text.now ≡ text.now ∷ []) }
{
    match place_of_space(text) {
        Some(place) => {
            let (front, _) = text.split_at(place);
            let (_, back) = text.split_at(place + 1);
            Some((front, back))
        }
        None => None,
    }
}

/// The three words of a line, where it has that many and no more.
fn three_words(line: &[u8]) -> Option<(&[u8], &[u8], &[u8])>
    ensures { option_map (λ w. (w.0.now, w.1.now, w.2.now)) result ≡ three (words line.now) }
{
    let (first, rest) = cut_word(line)?;
    let (second, third) = cut_word(rest)?;
    match cut_word(third) {
        Some(_) => None,
        None => Some((first, second, third)),
    }
}

/// Whether a byte is a decimal digit.
fn is_digit(byte: u8) -> bool
    ensures { result ≡ is_digit byte }
{
    48 <= byte && byte <= 57
}

/// Whether all bytes of a word are digits.
fn has_digits_alone(word: &[u8]) -> bool
    ensures { result ≡ list_all is_digit word.now }
{
    word.iter().all(|byte| is_digit(*byte))
}

/// Whether a word is 1 to 20 digits.
fn are_digits(word: &[u8]) -> bool
    ensures { result ≡ are_digits word.now }
{
    1 <= word.len() && word.len() <= 20 && has_digits_alone(word)
}

/// A number with one digit more behind it; none where that is not below 2^64.
fn with_digit(number: u64, byte: u8) -> Option<u64>
    ensures some { IfSome result (λ n. n ≡ number * 10 + (byte - 48)) }
    ensures none { IfNone result (2 ^ 64 ≤ number * 10 + (byte - 48)) }
    ensures fits { IfSome result (λ n. n < 2 ^ 64) }
{
    number
        .checked_mul(10)?
        .checked_add(u64::from(byte.saturating_sub(48)))
}

/// The number of a word's digits, where it is below 2^64.
fn number_of(word: &[u8]) -> Option<u64>
    ensures { result ≡ number_of word.now }
{
    let mut number = 0;
    let mut rest = word;
    'digits: loop {
        match rest {
            [byte, tail @ ..] => {
                match with_digit(number, *byte) {
                    Some(more) => number = more,
                    None => return None,
                }
                rest = tail;
            }
            [] => return Some(number),
        }
    }
}

/// The reading that a word writes: 1 to 20 digits whose number is below 2^64.
fn reading_of(word: &[u8]) -> Option<u64>
    ensures { result ≡ reading_of word.now }
{
    if are_digits(word) {
        number_of(word)
    } else {
        None
    }
}

/// The verb that a word is.
fn verb_of(word: &[u8]) -> Option<Verb>
    ensures { result ≡ verb_of word.now }
{
    if word == b"take".as_slice() {
        Some(Verb::Take)
    } else if word == b"merge".as_slice() {
        Some(Verb::Merge)
    } else if word == b"look".as_slice() {
        Some(Verb::Look)
    } else {
        None
    }
}

/// The digit of the least actor that a verb may have.
fn least_digit(verb: Verb) -> u8
    ensures { result ≡ 48 + least_actor verb }
{
    match verb {
        Verb::Take => b'1',
        Verb::Merge => b'1',
        Verb::Look => b'0',
    }
}

/// The actor that a word names: one digit, at most 8.
fn actor_of(verb: Verb, word: &[u8]) -> Option<u32>
    ensures { result ≡ actor_of verb word.now }
{
    match word {
        [byte, rest @ ..] => {
            if rest.is_empty() && least_digit(verb) <= *byte && *byte <= b'8' {
                Some(u32::from(*byte - 48))
            } else {
                None
            }
        }
        [] => None,
    }
}

/// What a line says, without its line feed: `READING VERB ACTOR`, one space between. None where it
/// has not this form.
pub fn line_of(line: &[u8]) -> Option<ScriptLine>
    ensures { result ≡ line_of line.now }
{
    let (reading, verb, actor) = three_words(line)?;
    let reading = reading_of(reading)?;
    let verb = verb_of(verb)?;
    let actor = actor_of(verb, actor)?;
    Some(ScriptLine {
        reading,
        verb,
        actor,
    })
}
