ghost use Rattle.std.specs.Prelude.{◌≡◌, ◌∷◌, [], ◌++◌};
ghost use Rattle.pddl_tokens.specs.Tokens.{Spells, Opens, Closes};
ghost use Rattle.pddl_tokens.specs.Trees.{Trees, tree_of, trees_of, spelled, all_spelled};

use std::alloc::{AllocError, AllocFailed, Global};
use thiserror::Error;
use tp_spec::{List, NoMemory};

/// A word in lower case, by its bytes, and the offset of its first byte in the file.
#[derive(Drop)]
pub struct Word {
    pub at: u32,
    pub text: List<u8>,
}

/// A word, or a list with the offsets of its two parentheses.
#[derive(Drop)]
pub enum Form {
    Single(Word),
    Group {
        at: u32,
        close: u32,
        parts: List<Form>,
    },
}

/// What a file holds, in its order, and its number of bytes.
#[derive(Drop)]
pub struct Forms {
    pub forms: List<Form>,
    pub bytes: u32,
}

/// Why a text is no row of words and lists, with the offset of the byte: one that is no UTF-8, a
/// parenthesis that stays open or closes nothing, a list in 64 others. Or memory was refused.
#[derive(Clone, Copy, Debug, PartialEq, Eq, Error)]
pub enum TextFault {
    #[error("the file is not UTF-8 from byte {at} on")]
    NotUtf8 { at: u32 },
    #[error("the parenthesis at byte {at} is never closed")]
    Unclosed { at: u32 },
    #[error("the parenthesis at byte {at} closes nothing")]
    Unopened { at: u32 },
    #[error("the list at byte {at} is nested more than 64 deep")]
    TooDeep { at: u32 },
    #[error("memory was refused")]
    NoMemory,
}

impl From<NoMemory> for TextFault {
    ghost use Rattle.std.specs.Prelude.{◌≡◌};
    ghost use Rattle.pddl_tokens.specs.declared.form.TextFault.TheVariants.{NoMemory as out_of_memory};

    ghost from_gives = { λ _ fault. fault ≡ out_of_memory };

    fn from(_refused: NoMemory) -> TextFault {
        TextFault::NoMemory
    }
}

impl From<AllocError> for TextFault {
    ghost use Rattle.std.specs.Prelude.{◌≡◌};
    ghost use Rattle.pddl_tokens.specs.declared.form.TextFault.TheVariants.{NoMemory as out_of_memory};

    ghost from_gives = { λ _ fault. fault ≡ out_of_memory };

    fn from(_refused: AllocError) -> TextFault {
        TextFault::NoMemory
    }
}

impl<T: Drop> From<AllocFailed<T>> for TextFault {
    ghost use Rattle.std.specs.Prelude.{◌≡◌};
    ghost use Rattle.pddl_tokens.specs.declared.form.TextFault.TheVariants.{NoMemory as out_of_memory};

    ghost from_gives = { λ _ fault. fault ≡ out_of_memory };

    fn from(_refused: AllocFailed<T>) -> TextFault {
        TextFault::NoMemory
    }
}

pub(crate) fn single(word: Word) -> Form
    ensures { spelled (tree_of result) ≡ Spells word.at word.text ∷ [] }
{
    Form::Single(word)
}

/// Lists of at most so many members are copied to memory that just holds them.
const FEW: usize = 8;

/// Some forms in memory that just holds them, or as they are where that is refused. What a short
/// list grew in then serves the next one; given back in part, it would stay as a hole.
fn copied(alloc: Global, mut forms: Vec<Form>) -> Vec<Form>
    ensures { result.items ≡ forms.items }
{
    match Vec::with_capacity(alloc, forms.len()) {
        Err(_) => forms,
        Ok(mut copy) => match copy.append(&mut forms) {
            Ok(()) => copy,
            Err(_) => forms,
        },
    }
}

/// A list that holds no memory beyond its members, where that can be had: most lists of a text are
/// short, and all stay.
fn fitted(alloc: Global, parts: List<Form>) -> List<Form>
    ensures { result ≡ parts }
{
    let mut forms = parts.into_vec();
    if forms.len() <= FEW {
        return List::of(copied(alloc, forms));
    }
    forms.shrink_to_fit();
    List::of(forms)
}

pub(crate) fn group(alloc: Global, at: u32, close: u32, parts: List<Form>) -> Form
    ensures { spelled (tree_of result)
        ≡ Opens at ∷ (all_spelled (trees_of parts) ++ Closes close ∷ []) }
{
    let parts = fitted(alloc, parts);
    Form::Group { at, close, parts }
}

/// Tokens are the spelling of one row of trees at most. So what `read_forms` ensures of its answer
/// leaves no other.
#[tactic(auto, using(crate::proofs::Unique::same_trees))]
pub fn spelled_once()
    ensures { (ts us : Trees) → all_spelled ts ≡ all_spelled us → ts ≡ us }
{}
