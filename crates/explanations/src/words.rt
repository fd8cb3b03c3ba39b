use crate::quotes::push_quoted;
use crate::refusal::Refusal;
use line_text::push_bytes;
use run_cli::help_text;
use std::alloc::Global;
use tp_spec::NoMemory;

/// The word of an index; an empty one where there are fewer.
fn word_at(words: &[String], index: usize) -> &str {
    match words.get(index) {
        Some(word) => word.as_str(),
        None => "",
    }
}

/// The option whose value stands in a word of an index: it is the word's own front, as in
/// `--name=value`, or the word before it.
fn option_at(words: &[String], index: usize) -> &str {
    let word = word_at(words, index);
    match word.split_once('=') {
        Some((name, _)) => {
            if name.starts_with("--") {
                name
            } else {
                word_at(words, index.saturating_sub(1))
            }
        }
        None => word_at(words, index.saturating_sub(1)),
    }
}

/// The numbers that an option takes.
fn range_words(option: &str) -> &'static str {
    match option {
        "--lead" => "--lead takes a number from 0 to 1000",
        "--actions" => "--actions takes a number from 1 to 64",
        "--horizon" => "--horizon takes a number from 1 to 1099511627776",
        "--nodes" => "--nodes takes a number from 1 to 200000",
        "--seed" => "--seed takes a number from 0 to 9999999999999",
        "--scale" => "--scale takes 1, 10, 100 or 1000",
        _ => "the option takes another number",
    }
}

/// What is wrong with the word of a fault, behind that word.
fn word_words(fault: &str) -> &'static str {
    match fault {
        "UnknownCommand" => " is no command",
        "UnknownOption" => " is no option of the command",
        "Twice" => " gives an option that was given before",
        "NoValue" => " is the last word, and wants a value behind it",
        "BadNumber" => " is not the number that is wanted: ",
        _ => " is refused",
    }
}

/// Which option a command lacks that it needs.
fn missing_words(command: &str) -> &'static str {
    match command {
        "validate" => "validate wants a plan file: --plan FILE",
        "simulate" => "simulate wants a script: --script FILE",
        "replay" => "replay wants a trace: --trace FILE",
        "summary" => "summary wants a seed: --seed N",
        _ => "an option that the command needs is missing",
    }
}

/// What is wrong with all words together; none where it is a single word.
fn whole_words(command: &str, fault: &str) -> Option<&'static str> {
    match fault {
        "NoCommand" => Some("no command is given"),
        "FileCount" => Some(
            "the command takes another number of files, which stands behind its name",
        ),
        "ScaleOfGround" => Some("a ground problem has a scale of its own: leave --scale out"),
        "Missing" => Some(missing_words(command)),
        _ => None,
    }
}

/// Puts what is wrong with the words behind a text.
fn push_sentence(
    text: &mut Vec<u8>,
    alloc: Global,
    words: &[String],
    refusal: &Refusal<'_>,
) -> Result<(), NoMemory> {
    if let Some(sentence) = whole_words(word_at(words, 0), refusal.fault) {
        return push_bytes(text, sentence.as_bytes());
    }
    let index = refusal.number();
    push_quoted(text, alloc, word_at(words, index).as_bytes(), b"", b"")?;
    push_bytes(text, word_words(refusal.fault).as_bytes())?;
    if refusal.fault == "BadNumber" {
        push_bytes(text, range_words(option_at(words, index)).as_bytes())?;
    }
    Ok(())
}

/// Puts the line of help of a command behind a text, or those of all commands where it is none of
/// them.
fn push_help(text: &mut Vec<u8>, alloc: Global, command: &str) -> Result<(), NoMemory> {
    let help = String::from_utf8_lossy(alloc, &help_text(alloc)?)?;
    for line in help.lines() {
        if let Some((name, _)) = line.split_once(' ') {
            if name == command {
                push_bytes(text, line.as_bytes())?;
                return push_bytes(text, b"\n");
            }
        }
    }
    push_bytes(text, help.as_bytes())
}

/// The explanation of a refusal of the words: which word, why, and the files and options that the
/// command takes, as `help` has them.
pub(crate) fn explain_words(
    alloc: Global,
    words: &[String],
    refusal: &Refusal<'_>,
) -> Result<Vec<u8>, NoMemory> {
    let mut text = Vec::new(alloc);
    push_sentence(&mut text, alloc, words, refusal)?;
    push_bytes(&mut text, b"\n")?;
    push_help(&mut text, alloc, word_at(words, 0))?;
    Ok(text)
}
