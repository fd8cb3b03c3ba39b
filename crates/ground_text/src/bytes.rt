ghost use Rattle.std.specs.Prelude.{◌≡◌, ◌≤◌, length, take, drop, pos, IfOk, string_bytes};
ghost use Rattle.std.specs.List.{filter};
ghost use Rattle.ground_text.specs.Reading.{number_at, index_at, integer_at, signed_of, narrow, line_len as line_len_of, first_is as first_is_of, is_ascii_byte, name_at};

use std::alloc::{AllocError, Global};
use tp_spec::{Name, NoMemory};

/// What stands behind the first bytes, or nothing where there are no more.
pub fn skip(bytes: &[u8], count: usize) -> &[u8]
    ensures { result.now ≡ drop count bytes.now }
{
    if bytes.len() < count {
        return &[];
    }
    bytes.split_at(count).1
}

/// Whether the first byte is this one.
pub fn first_is(byte: u8, bytes: &[u8]) -> bool
    ensures { result ≡ first_is_of byte bytes.now }
{
    match bytes {
        [first, ..] => *first == byte,
        [] => false,
    }
}

/// The number that the digits in front write, held within 64 bits, and what stands behind them.
#[tactic(auto, unfolding(crate::specs::Reading::number_at))]
pub fn number(bytes: &[u8]) -> (u64, &[u8])
    ensures { (result.0, result.1.now) ≡ number_at bytes.now }
{
    let mut sum: u64 = 0;
    let mut rest = bytes;
    'digits: loop {
        match rest {
            [byte, tail @ ..] => {
                if !(48 <= *byte && *byte <= 57) {
                    return (sum, rest);
                }
                sum = sum.saturating_mul(10).saturating_add(u64::from(*byte - 48));
                rest = tail;
            }
            [] => return (sum, rest),
        }
    }
}

fn narrow(number: u64) -> u32
    ensures { result ≡ narrow number }
{
    number.min(4_294_967_295) as u32
}

/// The number in front, held within 32 bits.
#[tactic(auto, unfolding(crate::specs::Reading::index_at))]
pub fn index(bytes: &[u8]) -> (u32, &[u8])
    ensures { (result.0, result.1.now) ≡ index_at bytes.now }
{
    let (number, rest) = number(bytes);
    (narrow(number), rest)
}

/// A number with a sign, held within `i64`.
fn signed(minus: bool, number: u64) -> i64
    ensures { result ≡ signed_of minus number }
{
    if number < 1 << 63 {
        let number = number as i64;
        return if minus { -number } else { number };
    }
    i64::MIN
}

/// The number in front, with a minus before it or without, held within `i64`.
#[tactic(auto, unfolding(crate::specs::Reading::integer_at))]
pub fn integer(bytes: &[u8]) -> (i64, &[u8])
    ensures { (result.0, result.1.now) ≡ integer_at bytes.now }
{
    match bytes {
        [] => (0, bytes),
        [first, rest @ ..] => {
            if *first == b'-' {
                let (number, after) = number(rest);
                (signed(true, number), after)
            } else {
                let (number, after) = number(bytes);
                (signed(false, number), after)
            }
        }
    }
}

/// How many bytes stand before the next line feed.
pub fn line_len(bytes: &[u8]) -> usize
    ensures is { result ≡ line_len_of bytes.now }
    ensures within { result ≤ length bytes.now }
{
    let mut len = 0;
    for byte in bytes {
        if *byte == b'\n' {
            return len;
        }
        len += 1;
    }
    len
}

/// The ASCII bytes of a line as a text.
fn ascii(alloc: Global, line: &[u8]) -> Result<String, AllocError>
    ensures { IfOk result (λ s. string_bytes s ≡ filter is_ascii_byte line.now) }
{
    let mut text = String::new(alloc);
    for byte in line {
        if *byte < 128 {
            text.push(char::from(*byte))?;
        }
    }
    Ok(text)
}

/// A copy of a text as a name.
pub fn name_of(alloc: Global, text: &str) -> Result<Name, AllocError>
    ensures { IfOk result (λ n. n ≡ text.now) }
{
    match Name::of(alloc, text) {
        Ok(name) => Ok(name),
        Err(NoMemory) => Err(AllocError),
    }
}

/// The next line as a name, and what stands behind it.
#[tactic(auto, unfolding(crate::specs::Reading::name_at))]
pub fn name(alloc: Global, bytes: &[u8]) -> Result<(Name, &[u8]), AllocError>
    ensures { IfOk result (λ x. (x.0, x.1.now) ≡ name_at bytes.now) }
{
    let len = line_len(bytes);
    let (line, _) = bytes.split_at(len);
    let text = ascii(alloc, line)?;
    let name = name_of(alloc, text.as_str())?;
    Ok((name, skip(bytes, len + 1)))
}
