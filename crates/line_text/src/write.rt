ghost use Rattle.std.specs.Prelude.{◌≡◌, ◌+◌, ◌<◌, ◌++◌, OnOk, codes, decimal, drop, if◌then◌else◌, []};
ghost use Rattle.std.specs.Fmt.{signed_decimal};
ghost use Rattle.tp_spec.specs.Texts.{tick_text};
ghost use Rattle.line_text.specs.Written.{item_text};

use itoa::Buffer;
use tp_spec::{Item, NoMemory};

/// Puts bytes behind a text. Where memory is refused, here and below, a part of them may stand
/// there.
pub fn push_bytes(text: &mut Vec<u8>, bytes: &[u8]) -> Result<(), NoMemory>
    ensures { OnOk result (text.new.items ≡ text.old.items ++ bytes.now) }
{
    text.extend_from_slice(bytes)?;
    Ok(())
}

/// Puts a number's decimal digits behind a text.
pub fn push_number(text: &mut Vec<u8>, number: u64) -> Result<(), NoMemory>
    ensures { OnOk result (text.new.items ≡ text.old.items ++ decimal number) }
{
    let mut buffer = Buffer::new();
    push_bytes(text, buffer.format(number).as_bytes())
}

/// Puts a number with its sign behind a text: `-` directly before the digits of a negative one.
pub fn push_signed(text: &mut Vec<u8>, number: i64) -> Result<(), NoMemory>
    ensures { OnOk result (text.new.items ≡ text.old.items ++ signed_decimal number) }
{
    let mut buffer = Buffer::new();
    push_bytes(text, buffer.format(number).as_bytes())
}

/// Puts a point and a number's digits but the first behind a text.
fn push_part(text: &mut Vec<u8>, number: u64) -> Result<(), NoMemory>
    ensures { OnOk result (text.new.items ≡ text.old.items
        ++ (codes "." ++ drop 1 (decimal number))) }
{
    let mut buffer = Buffer::new();
    let digits = buffer.format(number).as_bytes();
    push_bytes(text, b".")?;
    match digits {
        [_, rest @ ..] => push_bytes(text, rest),
        [] => Ok(()),
    }
}

/// Puts a tick behind a text, in units of time of `scale` ticks each: at scale 100 the tick 705 is
/// `7.05`.
pub fn push_tick(text: &mut Vec<u8>, scale: u32, tick: u64) -> Result<(), NoMemory>
    requires { 0 < scale }
    ensures { OnOk result (text.new.items ≡ text.old.items ++ tick_text scale tick) }
{
    let scale = u64::from(scale);
    push_number(text, tick / scale)?;
    if scale == 1 {
        return Ok(());
    }
    push_part(text, scale + tick % scale)
}

/// Puts an item behind a text: a timed item as `Tk`, an end as `Ea`, a start as `Sa`, by their
/// indices.
pub fn push_item(text: &mut Vec<u8>, item: Item) -> Result<(), NoMemory>
    ensures { OnOk result (text.new.items ≡ text.old.items ++ item_text item) }
{
    match item {
        Item::TimedAt(timed) => {
            push_bytes(text, b"T")?;
            push_number(text, u64::from(timed))
        }
        Item::End(action) => {
            push_bytes(text, b"E")?;
            push_number(text, u64::from(action))
        }
        Item::Start(action) => {
            push_bytes(text, b"S")?;
            push_number(text, u64::from(action))
        }
    }
}
