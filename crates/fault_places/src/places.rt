ghost use Rattle.std.specs.Prelude.{◌≡◌, ◌≤◌, length};
ghost use Rattle.fault_places.specs.Places.{IsPlace, lines_len};

use crate::counts::{characters, line_feeds, line_len, tail_len};

/// Where an offset stands: the numbers of its line and of its character there, both from 1, and the
/// offsets at which its line begins and ends, the line feed left out.
#[derive(Clone, Copy, Debug, PartialEq, Eq)]
pub struct LinePlace {
    pub line: usize,
    pub column: usize,
    pub start: usize,
    pub end: usize,
}

/// The place of an offset in bytes; that of the end where the offset stands behind it.
pub fn place(text: &[u8], offset: usize) -> LinePlace
    ensures { IsPlace text.now offset result }
{
    let (before, behind) = text.split_at(offset.min(text.len()));
    let start = before.len() - tail_len(before);
    LinePlace {
        line: 1 + line_feeds(before),
        column: 1 + characters(&before[start..]),
        start,
        end: before.len() + line_len(behind),
    }
}

/// The offset behind the first `count` lines, where the next one begins; the end where there are
/// fewer.
pub fn line_offset(text: &[u8], count: usize) -> usize
    ensures is { result ≡ lines_len count text.now }
    ensures within { result ≤ length text.now }
{
    let mut left = count;
    let mut len = 0;
    for byte in text {
        if left == 0 {
            return len;
        }
        if *byte == b'\n' {
            left -= 1;
        }
        len += 1;
    }
    len
}
