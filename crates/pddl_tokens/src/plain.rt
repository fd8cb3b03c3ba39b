ghost use Rattle.std.specs.Prelude.{◌≡◌, ◌+◌, ◌++◌, IfOk, OnOk, vec_len, length};
ghost use Rattle.pddl_tokens.specs.Tokens.{is_letter, lower, shown, runs_on, uncommented_lower, plain};

use std::alloc::{AllocError, Global};

/// The bytes of a byte order mark in UTF-8.
const BYTE_ORDER_MARK: [u8; 3] = [0xef, 0xbb, 0xbf];

/// An ASCII letter in lower case, another byte as it is.
fn lower(c: u8) -> u8
    ensures { result ≡ lower c }
{
    if c >= b'A' && c <= b'Z' { c + 32 } else { c }
}

/// A byte as it stands outside comments, where those are blanks.
fn shown(inside: bool, c: u8) -> u8
    ensures { result ≡ shown inside c }
{
    if inside || c == b';' { b' ' } else { c }
}

/// Whether a comment goes on behind a byte.
fn runs_on(inside: bool, c: u8) -> bool
    ensures { result ≡ runs_on inside c }
{
    if inside { c != b'\n' } else { c == b';' }
}

/// Whether a byte stands in a word: it is neither white space nor a parenthesis.
pub fn is_letter(c: u8) -> bool
    ensures { result ≡ is_letter c }
{
    !(c == b' ' || c == b'\t' || c == b'\n' || c == b'\r' || c == b'(' || c == b')')
}

/// Puts a text without its comments and in lower case behind some bytes.
fn push_plain(out: &mut Vec<u8>, text: &[u8]) -> Result<(), AllocError>
    ensures plain { OnOk result (out.new.items ≡ out.old.items ++ uncommented_lower text.now) }
    ensures len { OnOk result (vec_len out.new ≡ vec_len out.old + length text.now) }
{
    let mut inside = false;
    for byte in text {
        let c = lower(*byte);
        out.push(shown(inside, c))?;
        inside = runs_on(inside, c);
    }
    Ok(())
}

/// The text with blanks for a byte order mark and for comments, and in lower case: each byte keeps
/// its place.
pub fn plain_of(alloc: Global, text: &[u8]) -> Result<Vec<u8>, AllocError>
    ensures plain { IfOk result (λ v. v.items ≡ plain text.now) }
    ensures len { IfOk result (λ v. vec_len v ≡ length text.now) }
{
    let mut out = Vec::with_capacity(alloc, text.len())?;
    if text.starts_with(&BYTE_ORDER_MARK) {
        out.extend_from_slice(b"   ")?;
        push_plain(&mut out, &text[3..])?;
    } else {
        push_plain(&mut out, text)?;
    }
    Ok(out)
}
