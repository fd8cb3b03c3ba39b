ghost use Rattle.std.specs.Prelude.{◌≡◌, ◌<◌, ◌≤◌, ◌+◌, ◌^◌, ℕ, List, Option, [], ◌∷◌, ◌++◌, length, take, vec_len, IfOk, OnOk, IfErr, IsTrue};
ghost use Rattle.std.specs.Str.Lossy.{utf8_valid_len};
ghost use Rattle.pddl_tokens.specs.Tokens.{tokens_from, tokens_of_text};
ghost use Rattle.pddl_tokens.specs.Trees.{trees_of, all_spelled, have_letters};
ghost use Rattle.pddl_tokens.specs.Faults.{fault_from, fault_of, bad_byte, Gives};
ghost use Rattle.pddl_tokens.specs.Building.{read_so_far, stack_of, IsFaultAt};

use crate::builder::Builder;
use crate::form::{Form, Forms, TextFault};
use crate::plain::{is_letter, plain_of};
use std::alloc::Global;
use tp_spec::List;

/// Reads one byte more, behind the beginning of a word.
#[tactic(auto, using(crate::proofs::Growth::reads))]
fn step(
    alloc: Global,
    tree: &mut Builder,
    word: &mut Vec<u8>,
    at: u32,
    c: u8,
) -> Result<(), TextFault>
    requires { vec_len word.old ≤ at }
    ensures read { OnOk result ((rest : List ℕ)
        → read_so_far tree.new.frames.items tree.new.parts
        ++ tokens_from (at + 1) word.new.items rest
        ≡ read_so_far tree.old.frames.items tree.old.parts
        ++ tokens_from at word.old.items (c ∷ rest)) }
    ensures goes_on { OnOk result ((bad : Option ℕ) (rest : List ℕ)
        → fault_from bad (stack_of tree.new.frames.items) (tokens_from (at + 1) word.new.items rest)
        ≡ fault_from bad (stack_of tree.old.frames.items)
        (tokens_from at word.old.items (c ∷ rest))) }
    ensures fault { IfErr result
        (λ f. IsFaultAt f (stack_of tree.old.frames.items) at word.old.items c) }
    ensures short { OnOk result (vec_len word.new ≤ at + 1) }
{
    if is_letter(c) {
        word.push(c)?;
    } else {
        tree.finish_word(alloc, at, word)?;
        word.clear();
        tree.mark(alloc, at, c)?;
    }
    Ok(())
}

/// The tree of a text without comments, or its first fault; `bad` is the byte behind it that is no
/// text.
fn read_plain(alloc: Global, plain: &[u8], bad: Option<u32>) -> Result<List<Form>, TextFault>
    requires { length plain.now < 2 ^ 31 }
    ensures found { IfOk result (λ forms. all_spelled (trees_of forms)
        ≡ tokens_from 0 [] plain.now) }
    ensures fault { Gives result (fault_from bad [] (tokens_from 0 [] plain.now)) }
{
    let mut tree = Builder::new(alloc);
    let mut word: Vec<u8> = Vec::new(alloc);
    for i in 0..plain.len() {
        step(alloc, &mut tree, &mut word, i as u32, plain[i])?;
    }
    tree.finish_word(alloc, plain.len() as u32, &word)?;
    match tree.fault_at_end(bad) {
        Some(fault) => Err(fault),
        None => Ok(tree.into_forms()),
    }
}

/// The bytes before the first one that is no text, and its place.
fn valid_part(text: &[u8]) -> (&[u8], Option<u32>)
    requires { length text.now < 2 ^ 31 }
    ensures valid { result.0.now ≡ take (utf8_valid_len text.now) text.now }
    ensures bad { result.1 ≡ bad_byte text.now }
{
    match str::from_utf8(text) {
        Ok(_) => (text, None),
        Err(e) => {
            let n = e.valid_up_to();
            (&text[..n], Some(n as u32))
        }
    }
}

/// The words and lists that a text spells, or the text's first fault in the order of its bytes; a
/// list that is never closed comes last, by its innermost open parenthesis. It takes time linear in
/// the text, and no deep stack.
#[tactic(auto, using(crate::proofs::Growth::whole, crate::proofs::Letters::spelled_letters))]
pub fn read_forms(alloc: Global, text: &[u8]) -> Result<Forms, TextFault>
    requires { length text.now < 2 ^ 31 }
    ensures found { IfOk result (λ f. all_spelled (trees_of f.forms) ≡ tokens_of_text text.now) }
    ensures letters { IfOk result (λ f. IsTrue (have_letters (trees_of f.forms))) }
    ensures bytes { IfOk result (λ f. f.bytes ≡ length text.now) }
    ensures fault { Gives result (fault_of text.now) }
{
    let (valid, bad) = valid_part(text);
    let plain = plain_of(alloc, valid)?;
    let forms = read_plain(alloc, &plain, bad)?;
    let bytes = text.len() as u32;
    Ok(Forms { forms, bytes })
}
