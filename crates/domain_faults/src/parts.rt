ghost use Rattle.std.specs.Prelude.{◌≡◌};
ghost use Rattle.pddl_tokens.specs.Trees.{trees_of};
ghost use Rattle.domain_faults.specs.Parts.{condition_key, is_duration_key, is_key, slot_of, part_of, behind_name, is_action, kind_of};

use pddl_tokens::{Form, Head, head_of};

/// What an action is: all at one time, or from a start to an end.
#[derive(Clone, Copy, Debug, PartialEq, Eq)]
pub enum ActionKind {
    Instant,
    Durative,
}

/// What is to stand among the parts of an action, for who looks for one of them.
#[derive(Clone, Copy, Debug, PartialEq, Eq)]
pub enum Slot {
    /// A keyword.
    Keyword,
    /// The part that is looked for.
    Wanted,
    /// Another part.
    Other,
}

/// The keyword of an action's condition.
fn condition_key(kind: ActionKind) -> &'static [u8]
    ensures { result.now ≡ condition_key kind }
{
    match kind {
        ActionKind::Instant => b":precondition",
        ActionKind::Durative => b":condition",
    }
}

/// Whether a word is the keyword of a duration, which only durative actions have.
fn is_duration_key(kind: ActionKind, text: &[u8]) -> bool
    ensures { result ≡ is_duration_key kind text.now }
{
    match kind {
        ActionKind::Instant => false,
        ActionKind::Durative => text == b":duration".as_slice(),
    }
}

/// Whether a word is a keyword of an action.
pub fn is_key(kind: ActionKind, text: &[u8]) -> bool
    ensures { result ≡ is_key kind text.now }
{
    text == b":parameters".as_slice()
        || text == b":effect".as_slice()
        || text == condition_key(kind)
        || is_duration_key(kind, text)
}

fn slot_of(kind: ActionKind, key: &[u8], text: &[u8]) -> Slot
    ensures { result ≡ slot_of kind key.now text.now }
{
    if is_key(kind, text) {
        if text == key {
            Slot::Wanted
        } else {
            Slot::Other
        }
    } else {
        Slot::Keyword
    }
}

/// The members of the list behind the first such keyword of an action of this kind; none where
/// there is no list. `members` stand behind the action's name.
pub fn part_of<'a>(kind: ActionKind, key: &[u8], members: &'a [Form]) -> &'a [Form]
    ensures { trees_of result.now ≡ part_of kind key.now (trees_of members.now) }
{
    let mut slot = Slot::Keyword;
    let mut rest = members;
    'parts: loop {
        match head_of(rest) {
            Head::Missing => return rest,
            Head::Word(word, more) => {
                slot = match slot {
                    Slot::Keyword => slot_of(kind, key, word.text.as_slice()),
                    Slot::Wanted => return &[],
                    Slot::Other => Slot::Keyword,
                };
                rest = more;
            }
            Head::List {
                parts,
                rest: more,
                ..
            } => {
                match slot {
                    Slot::Wanted => return parts,
                    Slot::Keyword | Slot::Other => {}
                }
                slot = Slot::Keyword;
                rest = more;
            }
        }
    }
}

/// What stands behind a first member, as behind an action's name.
pub fn behind_name(members: &[Form]) -> &[Form]
    ensures { trees_of result.now ≡ behind_name (trees_of members.now) }
{
    match head_of(members) {
        Head::Missing => members,
        Head::Word(_, rest) => rest,
        Head::List { rest, .. } => rest,
    }
}

/// Whether a section with this head is an action.
pub fn is_action(text: &[u8]) -> bool
    ensures { result ≡ is_action text.now }
{
    text == b":action".as_slice() || text == b":durative-action".as_slice()
}

/// The kind of the action that a section with this head is.
pub fn kind_of(text: &[u8]) -> ActionKind
    ensures { result ≡ kind_of text.now }
{
    if text == b":durative-action".as_slice() {
        ActionKind::Durative
    } else {
        ActionKind::Instant
    }
}
