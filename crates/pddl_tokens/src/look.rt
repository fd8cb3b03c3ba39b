ghost use Rattle.pddl_tokens.specs.Looks.{IsHead};
ghost use Rattle.pddl_tokens.specs.Trees.{trees_of};

use crate::form::{Form, Word};

/// How some forms begin: with nothing, or with a word or a list and the forms behind it.
#[derive(Clone, Copy)]
pub enum Head<'a> {
    Missing,
    Word(&'a Word, &'a [Form]),
    List {
        at: u32,
        close: u32,
        parts: &'a [Form],
        rest: &'a [Form],
    },
}

/// The first of some forms, and the forms behind it.
pub fn head_of(forms: &[Form]) -> Head<'_>
    ensures { IsHead result (trees_of forms.now) }
{
    if forms.is_empty() {
        return Head::Missing;
    }
    let rest = &forms[1..];
    match &forms[0] {
        Form::Single(word) => Head::Word(word, rest),
        Form::Group { at, close, parts } => Head::List {
            at: *at,
            close: *close,
            parts: parts.as_slice(),
            rest,
        },
    }
}
