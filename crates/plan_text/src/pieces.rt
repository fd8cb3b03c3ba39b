ghost use Rattle.std.specs.Prelude.{◌≡◌, ◌∷◌, [], ◌++◌, ◌<◌, map, position, nat_eq, length, IfOk, OnOk, IfSome, if◌then◌else◌};
ghost use Rattle.std.specs.List.{list_all, list_any};
ghost use Rattle.std.specs.Option.{option_map};
ghost use Rattle.std.specs.Char.{to_ascii_lowercase};
ghost use Rattle.pddl_tokens.specs.Tokens.{is_blank};
ghost use Rattle.plan_text.specs.Pieces.{is_mark, cut, unindented, spaced_behind, spaced, behind, uncommented, plain};

use std::alloc::Global;
use tp_spec::NoMemory;

/// Whether a byte is white space: space, tab, line feed or carriage return.
fn is_blank(b: u8) -> bool
    ensures { result ≡ is_blank b }
{
    b == b' ' || b == b'\t' || b == b'\n' || b == b'\r'
}

/// Whether a text has nothing but white space.
pub fn is_all_blank(text: &[u8]) -> bool
    ensures { result ≡ list_all is_blank text.now }
{
    text.iter().all(|b| is_blank(*b))
}

/// Whether a mark stands in a text.
pub fn has_mark(mark: u8, text: &[u8]) -> bool
    ensures { result ≡ list_any (is_mark mark) text.now }
{
    text.iter().any(|b| *b == mark)
}

/// Where the first mark of a text stands.
fn place_of(mark: u8, text: &[u8]) -> Option<usize>
    ensures first { result ≡ position (is_mark mark) text.now }
    ensures within { IfSome result (λ i. i < length text.now) }
{
    text.iter().position(|b| *b == mark)
}

/// What stands before and behind the first mark of a text, where there is one.
pub fn cut(mark: u8, text: &[u8]) -> Option<(&[u8], &[u8])>
    ensures { option_map (λ w. (w.0.now, w.1.now)) result ≡ cut mark text.now }
{
    match place_of(mark, text) {
        Some(place) => {
            let (front, _) = text.split_at(place);
            let (_, back) = text.split_at(place + 1);
            Some((front, back))
        }
        None => None,
    }
}

/// A text without the white space at its start.
pub fn unindented(text: &[u8]) -> &[u8]
    ensures { result.now ≡ unindented text.now }
{
    let mut rest = text;
    loop {
        match rest {
            [first, tail @ ..] => {
                if !is_blank(*first) {
                    return rest;
                }
                rest = tail;
            }
            [] => return rest,
        }
    }
}

/// What stands behind white space and a mark, where they begin a text.
pub fn behind(mark: u8, text: &[u8]) -> Option<&[u8]>
    ensures { option_map (λ w. w.now) result ≡ behind mark text.now }
{
    match unindented(text) {
        [first, rest @ ..] => { if *first == mark { Some(rest) } else { None } }
        [] => None,
    }
}

/// Puts a byte behind a text.
fn push(out: &mut Vec<u8>, b: u8) -> Result<(), NoMemory>
    ensures { OnOk result (out.new.items ≡ out.old.items ++ b ∷ []) }
{
    match out.push(b) {
        Ok(()) => Ok(()),
        Err(_) => Err(NoMemory),
    }
}

/// Puts a byte of a word behind a text, and a space before it where white space stood there.
fn push_spaced(out: &mut Vec<u8>, blank: bool, b: u8) -> Result<(), NoMemory>
    ensures { OnOk result
        (out.new.items ≡ out.old.items ++ (if blank then 32 ∷ b ∷ [] else b ∷ [])) }
{
    if blank {
        push(out, b' ')?;
    }
    push(out, b)
}

/// The words of a text with one space between them.
pub fn spaced(alloc: Global, text: &[u8]) -> Result<Vec<u8>, NoMemory>
    ensures { IfOk result (λ t. t.items ≡ spaced text.now) }
{
    let mut out = Vec::new(alloc);
    let mut blank = false;
    for b in unindented(text) {
        if is_blank(*b) {
            blank = true;
        } else {
            push_spaced(&mut out, blank, *b)?;
            blank = false;
        }
    }
    Ok(out)
}

/// A line without its comment, which a semicolon begins.
pub fn uncommented(line: &[u8]) -> &[u8]
    ensures { result.now ≡ uncommented line.now }
{
    match place_of(b';', line) {
        Some(place) => line.split_at(place).0,
        None => line,
    }
}

/// A line without its comment and in lower case.
pub fn plain(alloc: Global, line: &[u8]) -> Result<Vec<u8>, NoMemory>
    ensures { IfOk result (λ t. t.items ≡ plain line.now) }
{
    let mut out = Vec::new(alloc);
    for b in uncommented(line) {
        push(&mut out, b.to_ascii_lowercase())?;
    }
    Ok(out)
}
