ghost use Rattle.std.specs.Prelude.{◌≡◌, ◌≤◌, length};
ghost use Rattle.trace_text.specs.Reading.{keyword_of, first_word, behind_word, word_len as word_len_of};

/// The first word of an event's line.
#[derive(Clone, Copy)]
pub enum Keyword {
    OfTick,
    OfTake,
    OfExpand,
    OfDrop,
    OfDispatch,
    OfPublish,
    OfExhaust,
    OfLimit,
    OfHalt,
}

/// How many bytes stand before the first space, or before the end.
fn word_len(line: &[u8]) -> usize
    ensures is { result ≡ word_len_of line.now }
    ensures within { result ≤ length line.now }
{
    let mut len = 0;
    for byte in line {
        if *byte == b' ' {
            return len;
        }
        len += 1;
    }
    len
}

/// What stands before the first space of a line, and the rest from that space on.
pub fn split_word(line: &[u8]) -> (&[u8], &[u8])
    ensures word { result.0.now ≡ first_word line.now }
    ensures rest { result.1.now ≡ behind_word line.now }
{
    line.split_at(word_len(line))
}

/// The keyword that a word is.
pub fn keyword_of(word: &[u8]) -> Option<Keyword>
    ensures { result ≡ keyword_of word.now }
{
    if word == b"tick".as_slice() {
        Some(Keyword::OfTick)
    } else if word == b"take".as_slice() {
        Some(Keyword::OfTake)
    } else if word == b"expand".as_slice() {
        Some(Keyword::OfExpand)
    } else if word == b"drop".as_slice() {
        Some(Keyword::OfDrop)
    } else if word == b"do".as_slice() {
        Some(Keyword::OfDispatch)
    } else if word == b"publish".as_slice() {
        Some(Keyword::OfPublish)
    } else if word == b"exhaust".as_slice() {
        Some(Keyword::OfExhaust)
    } else if word == b"limit".as_slice() {
        Some(Keyword::OfLimit)
    } else if word == b"halt".as_slice() {
        Some(Keyword::OfHalt)
    } else {
        None
    }
}
