ghost use Rattle.std.specs.Prelude.{◌≡◌, ◌≤◌, ◌∷◌, ◌++◌, length, IfSome, IfNone, IsTrue};
ghost use Rattle.line_text.specs.Lines.{is_line, line_len as line_len_of};

/// How many bytes stand before the first line feed, or before the end.
fn line_len(text: &[u8]) -> usize
    ensures is { result ≡ line_len_of text.now }
    ensures within { result ≤ length text.now }
{
    let mut len = 0;
    for byte in text {
        if *byte == b'\n' {
            return len;
        }
        len += 1;
    }
    len
}

/// The first line of a text, without its line feed, and what stands behind that; none where no line
/// feed is.
pub fn cut_line(text: &[u8]) -> Option<(&[u8], &[u8])>
    ensures parts { IfSome result (λ x. text.now ≡ x.0.now ++ 10 ∷ x.1.now) }
    ensures line { IfSome result (λ x. IsTrue (is_line x.0.now)) }
    ensures none { IfNone result (IsTrue (is_line text.now)) }
{
    let (line, behind) = text.split_at(line_len(text));
    match behind {
        [_, rest @ ..] => Some((line, rest)),
        [] => None,
    }
}
