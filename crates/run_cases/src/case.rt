use crate::running::unfit;
use std::alloc::Global;
use std::io;

/// A command line, and what is outside when it is run.
#[derive(Drop)]
pub struct Case {
    /// Whether the call is `run_local`, else `run`.
    pub local: bool,
    /// The words of the command line, at most 16.
    pub words: Vec<String>,
    /// The readings of the clock.
    pub readings: Vec<u64>,
    /// The numbers of the loads that fail, from 0.
    pub loads: Vec<u64>,
    /// The numbers of the puts that fail, from 0, with how many of their bytes still go out.
    pub puts: Vec<(u64, u64)>,
    /// The names of files of nothing but line feeds, with how many these are.
    pub blank: Vec<(String, u64)>,
}

/// The most words of a line.
pub const MOST_WORDS: usize = 16;

/// The words of a text, with spaces between them: at most 16.
pub fn words_of(alloc: Global, text: &str) -> io::Result<Vec<String>> {
    let mut words = Vec::new(alloc);
    for word in text.split(' ') {
        if !word.is_empty() {
            words.push(String::from_str(alloc, word)?)?;
        }
    }
    if words.len() > MOST_WORDS {
        return Err(unfit());
    }
    Ok(words)
}

fn number_of(text: &str) -> io::Result<u64> {
    text.parse::<u64>().map_err(|_| unfit())
}

/// Numbers with commas between them.
fn numbers_of(alloc: Global, text: &str) -> io::Result<Vec<u64>> {
    let mut numbers = Vec::new(alloc);
    for number in text.split(',') {
        numbers.push(number_of(number)?)?;
    }
    Ok(numbers)
}

/// Two numbers with a `:` between them.
fn pair_of(text: &str) -> io::Result<(u64, u64)> {
    let Some((first, second)) = text.split_once(':') else {
        return Err(unfit());
    };
    Ok((number_of(first)?, number_of(second)?))
}

/// A name and a number with a `:` between them.
fn named_number_of(alloc: Global, text: &str) -> io::Result<(String, u64)> {
    let Some((name, number)) = text.split_once(':') else {
        return Err(unfit());
    };
    Ok((String::from_str(alloc, name)?, number_of(number)?))
}

/// Reads what one word says of the outside: `local`, `clock=` and `loads=` with numbers, `put=`
/// with a number and how many bytes still go out, `blank=` with a file and its length in bytes.
fn set_outside(alloc: Global, case: &mut Case, word: &str) -> io::Result<()> {
    if word == "local" {
        case.local = true;
    } else if let Some(numbers) = word.strip_prefix("clock=") {
        case.readings = numbers_of(alloc, numbers)?;
    } else if let Some(numbers) = word.strip_prefix("loads=") {
        case.loads = numbers_of(alloc, numbers)?;
    } else if let Some(pair) = word.strip_prefix("put=") {
        case.puts.push(pair_of(pair)?)?;
    } else if let Some(named) = word.strip_prefix("blank=") {
        case.blank.push(named_number_of(alloc, named)?)?;
    } else {
        return Err(unfit());
    }
    Ok(())
}

/// Reads the line of a case: words of the outside, a `|`, and the command line.
pub fn case_of(alloc: Global, line: &str) -> io::Result<Case> {
    let Some((outside, words)) = line.split_once('|') else {
        return Err(unfit());
    };
    let mut case = Case {
        local: false,
        words: words_of(alloc, words)?,
        readings: Vec::new(alloc),
        loads: Vec::new(alloc),
        puts: Vec::new(alloc),
        blank: Vec::new(alloc),
    };
    for word in outside.split(' ') {
        if !word.is_empty() {
            set_outside(alloc, &mut case, word)?;
        }
    }
    Ok(case)
}
