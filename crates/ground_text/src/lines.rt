ghost use Rattle.std.specs.Prelude.{◌≡◌, ◌≤◌, length, IsTrue};
ghost use Rattle.line_text.specs.Lines.{has_lines, lines};
ghost use Rattle.ground_text.specs.Completion.{lines_len as lines_len_of, lines_stand};

/// Whether two texts are the same.
pub fn same_bytes(one: &[u8], other: &[u8]) -> bool
    ensures yes { IsTrue result → one.now ≡ other.now }
    ensures no { one.now ≡ other.now → IsTrue result }
{
    one == other
}

/// How many bytes the first lines have, and whether there are as many.
fn lines_len(text: &[u8], count: usize) -> (usize, bool)
    ensures len { result.0 ≡ lines_len_of count text.now }
    ensures within { result.0 ≤ length text.now }
    ensures all { result.1 ≡ lines_stand count text.now }
{
    let mut left = count;
    let mut len = 0;
    for byte in text {
        if left == 0 {
            return (len, true);
        }
        if *byte == b'\n' {
            left -= 1;
        }
        len += 1;
    }
    (len, left == 0)
}

/// The first lines with their line feeds, or all bytes where there are fewer, and whether there are
/// as many.
pub fn first_lines(text: &[u8], count: usize) -> (&[u8], bool)
    ensures front { result.0.now ≡ lines count text.now }
    ensures all { result.1 ≡ has_lines count text.now }
{
    let (len, all) = lines_len(text, count);
    (text.split_at(len).0, all)
}
