ghost use Rattle.std.specs.Prelude.{◌≤◌, length};

/// What stands at an offset of a PDDL text.
#[derive(Clone, Copy)]
pub(crate) enum Token<'a> {
    /// A word.
    Word(&'a [u8]),
    /// A list, by the word that it begins with; empty where it begins with none.
    List(&'a [u8]),
    /// A closing parenthesis.
    Close,
    /// The end of the text.
    End,
}

/// Whether a byte ends a word.
fn ends_word(byte: u8) -> bool {
    byte <= b' ' || byte == b'(' || byte == b')' || byte == b';'
}

/// How many bytes of a text come before one that ends a word.
fn word_len(text: &[u8]) -> usize
    ensures { result ≤ length text.now }
{
    let mut len = 0;
    for byte in text {
        if ends_word(*byte) {
            return len;
        }
        len += 1;
    }
    len
}

/// How many white bytes a text begins with.
fn white_len(text: &[u8]) -> usize
    ensures { result ≤ length text.now }
{
    let mut len = 0;
    for byte in text {
        if *byte > b' ' {
            return len;
        }
        len += 1;
    }
    len
}

/// The word that a text begins with.
fn front_word(text: &[u8]) -> &[u8] {
    let (word, _) = text.split_at(word_len(text));
    word
}

/// What stands at an offset.
pub(crate) fn token_at(text: &[u8], offset: usize) -> Token<'_> {
    let (_, behind) = text.split_at(offset.min(text.len()));
    match behind {
        [] => Token::End,
        [b')', ..] => Token::Close,
        [b'(', rest @ ..] => {
            let (_, inner) = rest.split_at(white_len(rest));
            Token::List(front_word(inner))
        }
        _ => Token::Word(front_word(behind)),
    }
}
