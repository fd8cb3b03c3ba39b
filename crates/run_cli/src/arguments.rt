ghost use Rattle.std.specs.Prelude.{◌≡◌, ◌<◌, ◌^◌, ◌++◌, ◌∷◌, [], map, length, IfOk, OnOk, string_bytes};
ghost use Rattle.std.specs.Option.{option_map};
ghost use Rattle.run_cli.specs.Options.{options_of};
ghost use Rattle.run_cli.specs.Arguments.{begins_with_dash as begins_with_dash_of};
ghost use Rattle.run_cli.specs.Arguments.{long_sort, without_dash, undashed, sort_of, argument_of, names_at, argument_at, awaited_at, last_argument, arguments_of, view_of, sort_view};

use crate::options::{Command, Setting, option_named};
use std::alloc::Global;
use tp_spec::NoMemory;

/// What the words behind the command say, one by one. A place is the index of a word.
#[derive(Clone, Copy)]
pub enum Argument<'a> {
    /// A file.
    File {
        name: &'a str,
    },
    /// An option and its value, with the places of the words in which they stand.
    Given {
        at: u32,
        setting: Setting,
        value_at: u32,
        value: &'a str,
    },
    /// An option that is the last word and has no value.
    Bare {
        at: u32,
        setting: Setting,
    },
    /// A word with a dash that is no option of the command.
    Strange {
        at: u32,
    },
}

/// What a word is by itself.
#[derive(Clone, Copy)]
enum Sort<'a> {
    /// `--name`: the next word is the value.
    Names { setting: Setting },
    /// `--name=value`
    Assigns { setting: Setting, value: &'a str },
    /// A word with a dash that is no option of the command.
    Unknown,
    /// A file.
    Plain,
}

/// An option that waits for its value, and its place.
#[derive(Clone, Copy)]
struct Awaited {
    at: u32,
    setting: Setting,
}

/// What stands behind a dash.
fn without_dash(text: &str) -> Option<&str>
    ensures { option_map (λ t. t.now) result ≡ without_dash text.now }
{
    text.strip_prefix('-')
}

/// What stands behind two dashes.
fn undashed(word: &str) -> Option<&str>
    ensures { option_map (λ t. t.now) result ≡ undashed word.now }
{
    without_dash(without_dash(word)?)
}

fn begins_with_dash(word: &[u8]) -> bool
    ensures { result ≡ begins_with_dash_of word.now }
{
    match word {
        [first, ..] => *first == 45,
        [] => false,
    }
}

/// What a text behind two dashes is: a name, or a name and a value round the first `=`.
fn long_sort(command: Command, text: &str) -> Sort<'_>
    ensures { sort_view result ≡ long_sort (options_of command) text.now }
{
    match text.split_once('=') {
        Some((name, value)) => match option_named(command, name.as_bytes()) {
            Some(setting) => Sort::Assigns { setting, value },
            None => Sort::Unknown,
        },
        None => match option_named(command, text.as_bytes()) {
            Some(setting) => Sort::Names { setting },
            None => Sort::Unknown,
        },
    }
}

fn sort_of(command: Command, word: &str) -> Sort<'_>
    ensures { sort_view result ≡ sort_of (options_of command) word.now }
{
    match undashed(word) {
        Some(text) => long_sort(command, text),
        None => {
            if begins_with_dash(word.as_bytes()) {
                Sort::Unknown
            } else {
                Sort::Plain
            }
        }
    }
}

/// Puts an argument behind the others.
fn push<'a>(arguments: &mut Vec<Argument<'a>>, argument: Argument<'a>) -> Result<(), NoMemory>
    ensures { OnOk result (map view_of arguments.new.items ≡ map view_of arguments.old.items
        ++ view_of argument.entry ∷ []) }
{
    match arguments.push(argument) {
        Ok(()) => Ok(()),
        Err(_) => Err(NoMemory),
    }
}

/// Puts what a word by itself says behind the other arguments, and gives the option that now waits
/// for its value.
fn push_sort<'a>(
    arguments: &mut Vec<Argument<'a>>,
    command: Command,
    at: u32,
    name: &'a str,
) -> Result<Option<Awaited>, NoMemory>
    ensures arguments { IfOk result (λ a. map view_of arguments.new.items
        ≡ map view_of arguments.old.items
        ++ argument_of at name.now (sort_of (options_of command) name.now)) }
    ensures awaited { IfOk result (λ a. a ≡ names_at at (sort_of (options_of command) name.now)) }
{
    match sort_of(command, name) {
        Sort::Names { setting } => Ok(Some(Awaited { at, setting })),
        Sort::Assigns { setting, value } => {
            push(
                arguments,
                Argument::Given {
                    at,
                    setting,
                    value_at: at,
                    value,
                },
            )?;
            Ok(None)
        }
        Sort::Unknown => {
            push(arguments, Argument::Strange { at })?;
            Ok(None)
        }
        Sort::Plain => {
            push(arguments, Argument::File { name })?;
            Ok(None)
        }
    }
}

/// Puts what a word says behind the other arguments, and gives the option that now waits for its
/// value.
fn push_word<'a>(
    arguments: &mut Vec<Argument<'a>>,
    command: Command,
    at: u32,
    awaited: Option<Awaited>,
    word: &'a str,
) -> Result<Option<Awaited>, NoMemory>
    ensures arguments { IfOk result (λ a. map view_of arguments.new.items
        ≡ map view_of arguments.old.items ++ argument_at (options_of command) at awaited word.now) }
    ensures awaited { IfOk result (λ a. a ≡ awaited_at (options_of command) at awaited word.now) }
{
    match awaited {
        Some(option) => {
            push(
                arguments,
                Argument::Given {
                    at: option.at,
                    setting: option.setting,
                    value_at: at,
                    value: word,
                },
            )?;
            Ok(None)
        }
        None => push_sort(arguments, command, at, word),
    }
}

/// Puts an option that still waits for its value behind the other arguments.
fn push_last(arguments: &mut Vec<Argument<'_>>, awaited: Option<Awaited>) -> Result<(), NoMemory>
    ensures { OnOk result (map view_of arguments.new.items ≡ map view_of arguments.old.items
        ++ last_argument awaited) }
{
    match awaited {
        Some(option) => push(
            arguments,
            Argument::Bare {
                at: option.at,
                setting: option.setting,
            },
        ),
        None => Ok(()),
    }
}

/// What the words behind a command say.
pub fn arguments_of(
    alloc: Global,
    command: Command,
    words: &[String],
) -> Result<Vec<Argument<'_>>, NoMemory>
    requires { length words.now < 2 ^ 31 }
    ensures { IfOk result (λ v. map view_of v.items
        ≡ arguments_of (options_of command) (map string_bytes words.now)) }
{
    let mut arguments = Vec::new(alloc);
    let mut at = 1u32;
    let mut awaited = None;
    for word in words {
        awaited = push_word(&mut arguments, command, at, awaited, word.as_str())?;
        at += 1;
    }
    push_last(&mut arguments, awaited)?;
    Ok(arguments)
}
