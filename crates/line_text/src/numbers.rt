ghost use Rattle.std.specs.Prelude.{◌≡◌, ℕ, ◌≤◌, List, length, bytes_eq, decimal, IfSome, IfNone};
ghost use Rattle.line_text.specs.Numbers.{BeginsWithNumber, digits_from};

use itoa::Buffer;

/// The number that the digits in front write, held within 64 bits, and what stands behind them.
fn leading_digits(text: &[u8]) -> (u64, &[u8])
    ensures digits { (result.0, result.1.now) ≡ digits_from 0 text.now }
    ensures within { length result.1.now ≤ length text.now }
{
    let mut sum: u64 = 0;
    let mut rest = text;
    'digits: loop {
        match rest {
            [byte, tail @ ..] => {
                if !(48 <= *byte && *byte <= 57) {
                    return (sum, rest);
                }
                sum = sum.saturating_mul(10).saturating_add(u64::from(*byte - 48));
                rest = tail;
            }
            [] => return (sum, rest),
        }
    }
}

/// Whether a text is a number in decimal.
fn is_written(number: u64, text: &[u8]) -> bool
    ensures { result ≡ bytes_eq (decimal number) text.now }
{
    let mut buffer = Buffer::new();
    buffer.format(number).as_bytes() == text
}

/// The number that a text begins with, in decimal without leading zeros, of at most so much, and
/// what stands behind it, which begins with no digit; none where the text does not begin so.
pub fn cut_number(text: &[u8], most: u64) -> Option<(u64, &[u8])>
    ensures number { IfSome result (λ x. BeginsWithNumber most text.now x.0 x.1.now) }
    ensures none { IfNone result
        ((number : ℕ) (rest : List ℕ) → BeginsWithNumber most text.now number rest → ⊥) }
{
    let (number, rest) = leading_digits(text);
    let (digits, _) = text.split_at(text.len() - rest.len());
    if most < number {
        return None;
    }
    if is_written(number, digits) {
        Some((number, rest))
    } else {
        None
    }
}
