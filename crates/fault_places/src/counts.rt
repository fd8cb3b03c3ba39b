ghost use Rattle.std.specs.Prelude.{◌≡◌, ◌≤◌, length};
ghost use Rattle.line_text.specs.Lines.{line_len as line_len_of};
ghost use Rattle.fault_places.specs.Places.{line_feeds as line_feeds_of, characters as characters_of, tail_len as tail_len_of, is_inside as is_inside_of};

use line_text::cut_line;

/// Whether a byte is one of a UTF-8 character behind its first one.
pub(crate) fn is_inside(byte: u8) -> bool
    ensures { result ≡ is_inside_of byte }
{
    128 <= byte && byte <= 191
}

/// How many line feeds a text has.
pub(crate) fn line_feeds(text: &[u8]) -> usize
    ensures is { result ≡ line_feeds_of text.now }
    ensures within { result ≤ length text.now }
{
    let mut count = 0;
    for byte in text {
        if *byte == b'\n' {
            count += 1;
        }
    }
    count
}

/// How many characters begin in a text.
pub(crate) fn characters(text: &[u8]) -> usize
    ensures is { result ≡ characters_of text.now }
    ensures within { result ≤ length text.now }
{
    let mut count = 0;
    for byte in text {
        if !is_inside(*byte) {
            count += 1;
        }
    }
    count
}

/// How many bytes stand behind the last line feed of a text.
pub(crate) fn tail_len(text: &[u8]) -> usize
    ensures is { result ≡ tail_len_of 0 text.now }
    ensures within { result ≤ length text.now }
{
    let mut len = 0;
    for byte in text {
        if *byte == b'\n' {
            len = 0;
        } else {
            len += 1;
        }
    }
    len
}

/// How many bytes stand before the first line feed of a text, or before its end.
pub(crate) fn line_len(text: &[u8]) -> usize
    ensures is { result ≡ line_len_of text.now }
    ensures within { result ≤ length text.now }
{
    match cut_line(text) {
        Some((line, _)) => line.len(),
        None => text.len(),
    }
}
