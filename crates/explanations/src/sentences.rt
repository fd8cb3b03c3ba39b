use crate::quotes::push_quoted;
use crate::scales::offered_scale;
use crate::tokens::Token;
use line_text::{push_bytes, push_number};
use std::alloc::Global;
use tp_spec::NoMemory;

/// What stands at the place of a fault, as it begins a sentence.
fn push_token(text: &mut Vec<u8>, alloc: Global, token: Token<'_>) -> Result<(), NoMemory> {
    match token {
        Token::Word(word) => push_quoted(text, alloc, word, b"", b""),
        Token::List(word) => {
            if word.is_empty() {
                return push_bytes(text, b"this list");
            }
            push_bytes(text, b"the list ")?;
            push_quoted(text, alloc, word, b"(", b" ..)")
        }
        Token::Close => push_bytes(text, b"this closing parenthesis"),
        Token::End => push_bytes(text, b"the end of the file"),
    }
}

/// What follows on what stands at the place where a form is wrong.
fn shape_words(token: Token<'_>) -> &'static str {
    match token {
        Token::Word(_) => " does not fit here",
        Token::List(_) => " does not fit here, or has no form that is read",
        Token::Close => " comes too early: a part that is needed is missing before it",
        Token::End => " comes too early: no form stands before it",
    }
}

/// What follows on what stands at the place of a fault of a PDDL text; it is the subject.
fn pddl_words(fault: &str, token: Token<'_>) -> &'static str {
    match fault {
        "NotUtf8" => " is not UTF-8 from this byte on",
        "Unclosed" => " is opened here and never closed",
        "Unopened" => " has no opening one",
        "TooDeep" => " is opened more than 64 parentheses deep",
        "Shape" => shape_words(token),
        "LeftOut" => " is a part of PDDL that is left out here",
        "Unknown" => " is not declared as what it is used for here",
        "Arity" => " has another number of arguments than its declaration",
        "Twice" => " was declared or given before",
        "Cycle" => " is a type above itself: its parents lead back to it",
        "NotWhole" => " is no whole number at scale ",
        "TooLarge" => " does not fit in 64 bits with a sign at scale ",
        "ClashingTimed" => " contradicts a timed literal at the same time",
        "OtherDomain" => " is not the name of the domain file's domain",
        _ => " is refused",
    }
}

/// Puts the sentence of a fault of a PDDL text behind a text: what stands there, and what is wrong
/// with it at this scale.
pub(crate) fn push_pddl_sentence(
    text: &mut Vec<u8>,
    alloc: Global,
    fault: &str,
    token: Token<'_>,
    scale: u32,
) -> Result<(), NoMemory> {
    if fault == "NotUtf8" {
        push_bytes(text, b"the text")?;
    } else {
        push_token(text, alloc, token)?;
    }
    push_bytes(text, pddl_words(fault, token).as_bytes())?;
    if fault == "NotWhole" || fault == "TooLarge" {
        push_number(text, u64::from(scale))?;
    }
    if let Token::Word(word) = token {
        if fault == "NotWhole" {
            push_bytes(text, offered_scale(word).as_bytes())?;
        }
    }
    Ok(())
}

/// What is wrong with a line of a ground problem, a plan, a script or a trace.
pub(crate) fn line_sentence(role: &str, fault: &str) -> &'static str {
    match (role, fault) {
        ("ground", _) => "in no ground problem this line follows on the lines before it",
        ("plan", "Shape") => {
            "this is no act `START: (NAME) [LENGTH]`, and no `plan` or `end TIME` in its place"
        }
        ("plan", "UnknownAction") => "the problem has no action of this name",
        ("plan", "NotWhole") => "a time is no whole number of ticks at the problem's scale",
        ("plan", "TooLarge") => "a time, or a start with its length, is above 2^63 - 1 ticks",
        ("trace", _) => "in no trace this line follows on the lines before it",
        ("script", "Holding") => "this actor takes a node while it holds one: it must merge first",
        ("script", "Idle") => "this actor merges without a node: it must take one first",
        ("script", _) => "this is no line `READING VERB ACTOR`, as `0 take 1`",
        _ => "this line is refused",
    }
}

/// What there are too many of, and how many there may be.
pub(crate) fn count_words(fault: &str) -> &'static str {
    match fault {
        "TooManySubstitutions" => " choices of objects for actions, at most 16777216 are taken",
        "TooManyActions" => " ground actions, at most 4096 are taken",
        "TooManyFacts" => " facts, at most 4096 are taken",
        "TooManyFluents" => " fluents, at most 256 are taken",
        "TooManyTimed" => " timed items, at most 256 are taken",
        _ => " of a kind, more than are taken",
    }
}

/// What a role is called in a sentence.
pub(crate) fn role_words(role: &str) -> &'static str {
    match role {
        "domain" => "PDDL domain",
        "problem" => "PDDL problem",
        "ground" => "ground problem",
        "script" => "script",
        "trace" => "trace",
        "plan" => "plan file",
        _ => "file",
    }
}
