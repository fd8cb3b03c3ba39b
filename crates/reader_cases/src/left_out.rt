use crate::answers::{Telling, domain_answer};
use anyhow::bail;
use std::alloc::Global;

/// The answer to a domain with a word between two texts, at scale 1.
fn with_word(alloc: Global, before: &str, word: &str, behind: &str) -> anyhow::Result<String> {
    let text = format!(in alloc; "{before}{word}{behind}")?;
    if text.len() >= 1_000_000 {
        bail!("a text is too long");
    }
    domain_answer(alloc, 1, Telling::Fault, text.as_bytes())
}

/// The answer to a domain with the first of some words in the place of `_`, and how many of the
/// words have this answer.
fn told_of(alloc: Global, words: &str, text: &str) -> anyhow::Result<String> {
    let (before, behind) = text.split_once('_').unwrap_or((text, ""));
    let mut first = String::new(alloc);
    let mut same = 0u32;
    for word in words.split(' ') {
        let told = with_word(alloc, before, word, behind)?;
        if first.is_empty() {
            first.push_str(&told)?;
        }
        if told == first {
            same = same.wrapping_add(1);
        }
    }
    Ok(format!(in alloc; "{first} by {same} words")?)
}

/// Prints the answers of a table of places: its first line has words, the others texts in which `_`
/// stands for each of them.
pub fn print_left_out(
    rt: &(impl Print + AllocGlobal),
    name: &str,
    text: &str,
) -> anyhow::Result<()> {
    let (words, places) = text.split_once('\n').unwrap_or((text, ""));
    let mut number = 1u32;
    for place in places.lines() {
        number = number.wrapping_add(1);
        let told = told_of(rt.alloc(), words, place)?;
        println!(rt; "{name} {number} {told}")?;
    }
    Ok(())
}
