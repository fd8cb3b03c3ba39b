ghost use Rattle.std.specs.Prelude.{◌≡◌};
ghost use Rattle.std.specs.List.{list_all};
ghost use Rattle.tp_spec.specs.WellFormed.{is_name_byte};
ghost use Rattle.pddl_parts.specs.Words.{is_logic_left_out, is_rest_left_out, is_left_out, begins_with, is_dash, is_symbol, is_name, is_thing, is_variable, is_atom_word, is_head_word, is_order, is_update};

use pddl_tokens::{Word, is_numeral};

fn is_logic_left_out(text: &[u8]) -> bool
    ensures { result ≡ is_logic_left_out text.now }
{
    text == b"or".as_slice()
        || text == b"imply".as_slice()
        || text == b"forall".as_slice()
        || text == b"exists".as_slice()
        || text == b"when".as_slice()
        || text == b"preference".as_slice()
        || text == b"either".as_slice()
}

fn is_rest_left_out(text: &[u8]) -> bool
    ensures { result ≡ is_rest_left_out text.now }
{
    text == b"*".as_slice()
        || text == b"/".as_slice()
        || text == b"scale-up".as_slice()
        || text == b"scale-down".as_slice()
        || text == b"#t".as_slice()
        || text == b"?duration".as_slice()
        || text == b":derived".as_slice()
        || text == b":constraints".as_slice()
}

/// Whether a word is of PDDL's parts that are left out.
pub fn is_left_out(text: &[u8]) -> bool
    ensures { result ≡ is_left_out text.now }
{
    is_logic_left_out(text) || is_rest_left_out(text)
}

/// Whether a text begins with a byte.
pub fn begins_with(c: u8, text: &[u8]) -> bool
    ensures { result ≡ begins_with c text.now }
{
    match text {
        [] => false,
        [first, ..] => *first == c,
    }
}

/// Whether a word is a hyphen alone.
pub fn is_dash(text: &[u8]) -> bool
    ensures { result ≡ is_dash text.now }
{
    text == b"-".as_slice()
}

fn is_name_byte(c: u8) -> bool
    ensures { result ≡ is_name_byte c }
{
    c >= 33 && c <= 126 && !(c >= b'A' && c <= b'Z') && !(c == b'(' || c == b')' || c == b';')
}

fn are_name_bytes(text: &[u8]) -> bool
    ensures { result ≡ list_all is_name_byte text.now }
{
    text.iter().all(|c| is_name_byte(*c))
}

/// Whether a word is a symbol that is no variable, keyword or hyphen.
pub fn is_symbol(word: &Word) -> bool
    ensures { result ≡ is_symbol word.now.text }
{
    let text = word.text.as_slice();
    !begins_with(b'?', text) && !begins_with(b':', text) && !is_dash(text) && !is_numeral(word)
}

/// Whether a word has the form of a name.
pub fn is_name(word: &Word) -> bool
    ensures { result ≡ is_name word.now.text }
{
    are_name_bytes(word.text.as_slice()) && is_symbol(word)
}

/// Whether a word names a thing: it may be a name, and is not left out.
pub fn is_thing(word: &Word) -> bool
    ensures { result ≡ is_thing word.now.text }
{
    is_name(word) && !is_left_out(word.text.as_slice())
}

/// Whether a word may be a variable.
pub fn is_variable(word: &Word) -> bool
    ensures { result ≡ is_variable word.now.text }
{
    let text = word.text.as_slice();
    are_name_bytes(text) && begins_with(b'?', text) && text.len() > 1
}

/// Whether an atom, or a function with its arguments, may begin with a word that has no form of its
/// own there.
pub fn is_atom_word(word: &Word) -> bool
    ensures { result ≡ is_atom_word word.now.text }
{
    is_symbol(word) && !is_left_out(word.text.as_slice())
}

/// Whether a list that takes no `not` may begin with a word.
pub fn is_head_word(word: &Word) -> bool
    ensures { result ≡ is_head_word word.now.text }
{
    is_atom_word(word) && !(word.text.as_slice() == b"not".as_slice())
}

/// Whether a word is an order of numbers.
pub fn is_order(text: &[u8]) -> bool
    ensures { result ≡ is_order text.now }
{
    text == b"<".as_slice()
        || text == b"<=".as_slice()
        || text == b">=".as_slice()
        || text == b">".as_slice()
}

/// Whether a word begins an update of a fluent.
pub fn is_update(text: &[u8]) -> bool
    ensures { result ≡ is_update text.now }
{
    text == b"increase".as_slice() || text == b"decrease".as_slice() || text == b"assign".as_slice()
}
