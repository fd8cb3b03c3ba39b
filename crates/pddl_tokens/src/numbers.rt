ghost use Rattle.std.specs.Prelude.{◌≡◌, ◌++◌, ◌^◌, ◌<◌, ◌≤◌, ◌+◌, ◌*◌, map, length, position, nat_eq, IsTrue, IfSome, is_some};
ghost use Rattle.std.specs.List.{list_all};
ghost use Rattle.std.specs.Char.{is_ascii_digit};
ghost use Rattle.std.specs.Option.{option_map};
ghost use Rattle.std.specs.Int.Digits.{number_from_digits_after};
ghost use Rattle.pddl_tokens.specs.Numbers.{IsScale, are_digits, are_zeros, as_numeral, numeral_of, unsigned_of, pointed, digit, in_u64, in_range, product_of, number_of};

use crate::form::Word;
use thiserror::Error;

/// Why a word is no number at a scale: it spells none, or the product by the scale is not whole, or
/// else it is not in the range of `i64`.
#[derive(Clone, Copy, Debug, PartialEq, Eq, Error)]
pub enum NumberFault {
    #[error("no number is spelled")]
    NotNumber,
    #[error("the number is not whole at the scale")]
    NotWhole,
    #[error("the number is too large")]
    TooLarge,
}

/// A spelled number: whether it is negative, and its digits before and behind the point.
#[derive(Clone, Copy)]
struct Numeral<'a> {
    minus: bool,
    whole: &'a [u8],
    part: &'a [u8],
}

/// The least `i64`'s distance from 0.
const FAR: u64 = 1 << 63;

/// Whether all bytes are digits.
fn all_digits(text: &[u8]) -> bool
    ensures { result ≡ list_all is_ascii_digit text.now }
{
    text.iter().all(|c| c.is_ascii_digit())
}

/// Whether some bytes are one digit or more.
fn are_digits(text: &[u8]) -> bool
    ensures { result ≡ are_digits text.now }
{
    !text.is_empty() && all_digits(text)
}

/// Whether all digits are 0.
fn are_zeros(digits: &[u8]) -> bool
    ensures { result ≡ are_zeros digits.now }
{
    digits.iter().all(|c| *c == b'0')
}

/// Where the first point of a text stands.
fn point_of(text: &[u8]) -> Option<usize>
    ensures first { result ≡ position (λ c. nat_eq c 46) text.now }
    ensures within { IfSome result (λ i. i < length text.now) }
{
    text.iter().position(|c| *c == b'.')
}

/// The numeral of digits before and behind a point, where they are digits.
fn pointed<'a>(minus: bool, whole: &'a [u8], part: &'a [u8]) -> Option<Numeral<'a>>
    ensures numeral { option_map as_numeral result ≡ pointed minus whole.now part.now }
    ensures digits { IfSome result (λ n. IsTrue (list_all is_ascii_digit n.part.now)) }
{
    if are_digits(whole) && are_digits(part) {
        Some(Numeral { minus, whole, part })
    } else {
        None
    }
}

/// The numeral that a text without a sign is.
fn unsigned_of(minus: bool, text: &[u8]) -> Option<Numeral<'_>>
    ensures numeral { option_map as_numeral result ≡ unsigned_of minus text.now }
    ensures digits { IfSome result (λ n. IsTrue (list_all is_ascii_digit n.part.now)) }
{
    match point_of(text) {
        Some(point) => {
            let (whole, _) = text.split_at(point);
            let (_, part) = text.split_at(point + 1);
            pointed(minus, whole, part)
        }
        None => {
            if are_digits(text) {
                Some(Numeral {
                    minus,
                    whole: text,
                    part: &[],
                })
            } else {
                None
            }
        }
    }
}

/// The numeral that a text is.
fn numeral_of(text: &[u8]) -> Option<Numeral<'_>>
    ensures numeral { option_map as_numeral result ≡ numeral_of text.now }
    ensures digits { IfSome result (λ n. IsTrue (list_all is_ascii_digit n.part.now)) }
{
    match text {
        [] => None,
        [first, rest @ ..] => {
            if *first == b'-' {
                unsigned_of(true, rest)
            } else {
                unsigned_of(false, text)
            }
        }
    }
}

/// A number with one digit more at its end.
fn with_digit(number: u64, c: u8) -> Option<u64>
    ensures { result ≡ in_u64 (number * 10 + digit c) }
{
    match number.checked_mul(10) {
        None => None,
        Some(shifted) => shifted.checked_add(u64::from(c.saturating_sub(b'0'))),
    }
}

/// A number with more digits at its end.
#[tactic(auto, using(crate::proofs::Values::stays_far))]
fn with_digits(number: u64, digits: &[u8]) -> Option<u64>
    ensures { result ≡ in_u64 (number_from_digits_after 10 number (map digit digits.now)) }
{
    let mut sum = number;
    for c in digits {
        match with_digit(sum, *c) {
            None => return None,
            Some(more) => sum = more,
        }
    }
    Some(sum)
}

/// The number of two rows of digits, one behind the other, and of zeros behind those.
#[tactic(auto, using(crate::proofs::Values::number_after_append, crate::proofs::Values::stays_far))]
fn joined(first: &[u8], second: &[u8], zeros: u32) -> Option<u64>
    requires { zeros ≤ 3 }
    ensures { result ≡ in_u64
        (number_from_digits_after 10 0 (map digit first.now ++ map digit second.now) * 10 ^ zeros) }
{
    let number = with_digits(0, first)?;
    let number = with_digits(number, second)?;
    number.checked_mul(10u64.pow(zeros))
}

/// How many digits behind the point a scale makes whole.
fn places_of(scale: u32) -> usize
    requires { IsScale scale }
    ensures power { 10 ^ result ≡ scale }
    ensures few { result ≤ 3 }
{
    match scale {
        1 => 0,
        10 => 1,
        100 => 2,
        _ => 3,
    }
}

/// A number with a sign, in the range of `i64`.
fn in_range(minus: bool, number: u64) -> Result<i64, NumberFault>
    ensures { result ≡ in_range minus number }
{
    if number < FAR {
        let number = number as i64;
        return Ok(if minus { -number } else { number });
    }
    if minus && number == FAR {
        Ok(i64::MIN)
    } else {
        Err(NumberFault::TooLarge)
    }
}

/// A numeral times a scale.
fn product_of(numeral: Numeral<'_>, scale: u32) -> Result<i64, NumberFault>
    requires scaled { IsScale scale }
    requires digits { IsTrue (list_all is_ascii_digit numeral.part.now) }
    ensures { result ≡ product_of scale (as_numeral numeral.entry) }
{
    let part = numeral.part;
    let places = places_of(scale);
    let kept = places.min(part.len());
    let (near, far) = part.split_at(kept);
    if !are_zeros(far) {
        return Err(NumberFault::NotWhole);
    }
    match joined(numeral.whole, near, (places - kept) as u32) {
        None => Err(NumberFault::TooLarge),
        Some(number) => in_range(numeral.minus, number),
    }
}

/// The number that a word spells, times the scale: digits, with a minus before them or without, and
/// with a point and digits behind them or without. `5.000` is 5 at scale 1, and `5.5` is 55 at
/// scale 10.
pub fn number(word: &Word, scale: u32) -> Result<i64, NumberFault>
    requires { IsScale scale }
    ensures { result ≡ number_of scale word.now.text }
{
    match numeral_of(word.text.as_slice()) {
        None => Err(NumberFault::NotNumber),
        Some(numeral) => product_of(numeral, scale),
    }
}

/// Whether a word spells a number.
pub fn is_numeral(word: &Word) -> bool
    ensures { result ≡ is_some (numeral_of word.now.text) }
{
    match numeral_of(word.text.as_slice()) {
        None => false,
        Some(_) => true,
    }
}
