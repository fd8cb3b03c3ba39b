ghost use Rattle.std.specs.Prelude.{◌≡◌, nat_eq, ◌<◌, ◌^◌, IfOk, true};
ghost use Rattle.pddl_tokens.specs.Numbers.{IsScale, number_of};
ghost use Rattle.plan_text.specs.Acts.{has_minus, amount_from, amount_of, Gives};

use crate::fault::Fault;
use pddl_tokens::{NumberFault, Word, number};
use tp_spec::List;

/// A number of ticks that a numeral says, or why it says none: it is not whole at the scale, or
/// above 2^63 - 1.
#[derive(Clone, Copy, Debug, PartialEq, Eq)]
pub enum Amount {
    Ticks(u64),
    Parted,
    Far,
}

/// Whether a text begins with a minus.
fn has_minus(text: &[u8]) -> bool
    ensures { result ≡ has_minus text.now }
{
    match text {
        [first, ..] => *first == b'-',
        [] => false,
    }
}

/// What a number at a scale says of a time, which is not negative; `-0` is 0.
fn amount_from(minus: bool, number: Result<i64, NumberFault>) -> Result<Amount, Fault>
    ensures { result ≡ amount_from minus number }
{
    match number {
        Ok(n) => {
            if n < 0 || minus && n != 0 {
                return Err(Fault::Shape);
            }
            Ok(Amount::Ticks(n as u64))
        }
        Err(NumberFault::NotNumber) => Err(Fault::Shape),
        Err(NumberFault::NotWhole) => {
            if minus {
                Err(Fault::Shape)
            } else {
                Ok(Amount::Parted)
            }
        }
        Err(NumberFault::TooLarge) => {
            if minus {
                Err(Fault::Shape)
            } else {
                Ok(Amount::Far)
            }
        }
    }
}

/// The number of ticks that a text says at a scale: a numeral as in PDDL files, not negative.
pub fn amount_of(scale: u32, text: Vec<u8>) -> Result<Amount, Fault>
    requires { IsScale scale }
    ensures { result ≡ amount_of scale text.items }
{
    let minus = has_minus(&text);
    let word = Word {
        at: 0,
        text: List::of(text),
    };
    amount_from(minus, number(&word, scale))
}
