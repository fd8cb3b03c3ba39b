ghost use Rattle.std.specs.Prelude.{◌≡◌, Bool, [], ◌∷◌, IfSome, IfNone};
ghost use Rattle.tp_spec.specs.declared.plan.Item.{Item as Piece};
ghost use Rattle.trace_text.specs.Traces.{field, act_text, mark_text};
ghost use Rattle.trace_text.specs.Grammar.{is_narrow, is_wide, fits_act, fits_mark, fits_item, index_of};
ghost use Rattle.trace_text.specs.Cuts.{IsCut, NoneCut, spaced, signed, at_most};
ghost use Rattle.trace_text.specs.Reading.{pair_text, are_narrow, letter_of, sign_of};
ghost use Rattle.line_text.specs.Written.{item_text};

use line_text::cut_number;
use tp_spec::{Item, Mark, Timed};

/// The first byte of a text, and what stands behind it.
fn cut_byte(text: &[u8]) -> Option<(u8, &[u8])>
    ensures some { IfSome result (λ x. text.now ≡ x.0 ∷ x.1.now) }
    ensures none { IfNone result (text.now ≡ []) }
{
    match text {
        [first, rest @ ..] => Some((*first, rest)),
        [] => None,
    }
}

/// The number of at most so much that stands behind a sign at the front of a text, and what stands
/// behind it.
fn cut_signed(text: &[u8], sign: u8, most: u64) -> Option<(u64, &[u8])>
    ensures some { IfSome result (λ x. IsCut (signed sign) (at_most most) text.now x.0 x.1.now) }
    ensures none { IfNone result (NoneCut (signed sign) (at_most most) text.now) }
{
    let (first, rest) = cut_byte(text)?;
    if first != sign {
        return None;
    }
    let (number, behind) = cut_number(rest, most)?;
    Some((number, behind))
}

/// A number of 32 bits behind a space.
pub fn cut_narrow(text: &[u8]) -> Option<(u32, &[u8])>
    ensures some { IfSome result (λ x. IsCut field is_narrow text.now x.0 x.1.now) }
    ensures none { IfNone result (NoneCut field is_narrow text.now) }
{
    let (number, behind) = cut_signed(text, b' ', 4_294_967_295)?;
    Some((number as u32, behind))
}

/// A number of 64 bits behind a space.
pub fn cut_wide(text: &[u8]) -> Option<(u64, &[u8])>
    ensures some { IfSome result (λ x. IsCut field is_wide text.now x.0 x.1.now) }
    ensures none { IfNone result (NoneCut field is_wide text.now) }
{
    let (number, behind) = cut_signed(text, b' ', u64::MAX)?;
    Some((number, behind))
}

/// A number of 64 bits behind a colon.
fn cut_colon(text: &[u8]) -> Option<(u64, &[u8])>
    ensures some { IfSome result (λ x. IsCut (signed 58) is_wide text.now x.0 x.1.now) }
    ensures none { IfNone result (NoneCut (signed 58) is_wide text.now) }
{
    let (number, behind) = cut_signed(text, b':', u64::MAX)?;
    Some((number, behind))
}

/// Two numbers of 32 bits, each behind a space.
pub fn cut_pair(text: &[u8]) -> Option<(u32, u32, &[u8])>
    ensures some { IfSome result (λ x. IsCut pair_text are_narrow text.now (x.0, x.1) x.2.now) }
    ensures none { IfNone result (NoneCut pair_text are_narrow text.now) }
{
    let (first, rest) = cut_narrow(text)?;
    let (second, behind) = cut_narrow(rest)?;
    Some((first, second, behind))
}

/// An act behind a space: `ACTION:START:LENGTH`.
pub fn cut_act(text: &[u8]) -> Option<(Timed, &[u8])>
    ensures some { IfSome result (λ x. IsCut (spaced act_text) fits_act text.now x.0 x.1.now) }
    ensures none { IfNone result (NoneCut (spaced act_text) fits_act text.now) }
{
    let (action, rest) = cut_narrow(text)?;
    let (start, rest) = cut_colon(rest)?;
    let (length, behind) = cut_colon(rest)?;
    Some((
        Timed {
            action,
            start,
            length,
        },
        behind,
    ))
}

/// The item of a letter and an index.
fn item_of(letter: u8, index: u32) -> Option<Item>
    ensures letter { IfSome result (λ i. letter_of i ≡ letter) }
    ensures index { IfSome result (λ i. index_of i ≡ index) }
    ensures none { IfNone result ((i : Piece) → letter_of i ≡ letter → ⊥) }
{
    match letter {
        b'T' => Some(Item::TimedAt(index)),
        b'E' => Some(Item::End(index)),
        b'S' => Some(Item::Start(index)),
        _ => None,
    }
}

/// An item at the front of a text: `Tk`, `Ea` or `Sa`.
fn cut_item(text: &[u8]) -> Option<(Item, &[u8])>
    ensures some { IfSome result (λ x. IsCut item_text fits_item text.now x.0 x.1.now) }
    ensures none { IfNone result (NoneCut item_text fits_item text.now) }
{
    let (letter, rest) = cut_byte(text)?;
    let (index, behind) = cut_number(rest, 4_294_967_295)?;
    let item = item_of(letter, index as u32)?;
    Some((item, behind))
}

/// Whether a mark with this sign is fresh.
fn fresh_of(sign: u8) -> Option<bool>
    ensures some { IfSome result (λ fresh. sign_of fresh ≡ sign) }
    ensures none { IfNone result ((fresh : Bool) → sign_of fresh ≡ sign → ⊥) }
{
    match sign {
        b'+' => Some(true),
        b'.' => Some(false),
        _ => None,
    }
}

/// A mark behind a space: `+` where it is fresh, else `.`, and its item.
pub fn cut_mark(text: &[u8]) -> Option<(Mark, &[u8])>
    ensures some { IfSome result (λ x. IsCut (spaced mark_text) fits_mark text.now x.0 x.1.now) }
    ensures none { IfNone result (NoneCut (spaced mark_text) fits_mark text.now) }
{
    let (space, rest) = cut_byte(text)?;
    if space != b' ' {
        return None;
    }
    let (sign, rest) = cut_byte(rest)?;
    let fresh = fresh_of(sign)?;
    let (item, behind) = cut_item(rest)?;
    Some((Mark { fresh, item }, behind))
}
