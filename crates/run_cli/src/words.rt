ghost use Rattle.std.specs.Prelude.{◌≡◌, ◌≤◌, ◌<◌, ◌^◌, ◌++◌, ◌∷◌, [], map, length, Ok, IfOk, IfErr, MatchOption, string_bytes};
ghost use Rattle.std.specs.Option.{option_map};
ghost use Rattle.word_network.specs.Conditions.{AreLimits};
ghost use Rattle.run_cli.specs.Options.{numbers_of};
ghost use Rattle.run_cli.specs.Arguments.{view_of};
ghost use Rattle.run_cli.specs.declared.words.WordFault.TheVariants.{NoValue as no_value};
ghost use Rattle.run_cli.specs.declared.words.WordFault.TheVariants.{NoMemory as no_memory};
ghost use Rattle.run_cli.specs.declared.words.Order.TheVariants.{Solve as search_of};
ghost use Rattle.run_cli.specs.Orders.{gives, is_given, twice_faults, range_faults, argument_faults, faults_from, files_of, first_name, second_name, value_of, number_or, number_of, most_of, limits_of, source_from, named_view, named_of, simulation, validation, grounding, replaying, order_with, summary, sourceless, order_from, whole_order, ordered, order_of, Answers, first_of, named_fault, fault_text};

use crate::arguments::{Argument, arguments_of};
use crate::options::{
    Command, Numbers, Setting, command_named, name_of, number_in, numbers_of, takes,
};
use line_text::{push_bytes, push_number};
use std::alloc::Global;
use thiserror::Error;
use tp_spec::{Limits, Name, NoMemory};

/// The files of which a problem is made.
#[derive(Drop)]
pub enum Source {
    /// A ground text.
    GroundText {
        name: Name,
    },
    /// A PDDL domain and a PDDL problem, with the ticks of a unit of time: 1, 10, 100 or 1000.
    Pddl {
        domain: Name,
        problem: Name,
        scale: u32,
    },
}

/// What a command line orders: a command, its files, and the limits of a run, with the default of
/// each that is not given.
#[derive(Drop)]
pub enum Order {
    /// To search for a plan of a problem, and to keep the run in a file where one is named.
    Solve {
        source: Source,
        limits: Limits,
        trace: Option<Name>,
    },
    /// To run the steps of a script on a problem, and to keep the run in a file where one is named.
    Simulate {
        source: Source,
        script: Name,
        limits: Limits,
        trace: Option<Name>,
    },
    /// To judge the plan of a plan file for a problem.
    Validate {
        source: Source,
        plan: Name,
        limits: Limits,
    },
    /// To print the ground text of a PDDL domain and a PDDL problem at this scale.
    Ground {
        domain: Name,
        problem: Name,
        scale: u32,
    },
    /// To judge the trace of a run on a problem, with the limits of that run.
    Replay {
        source: Source,
        trace: Name,
        limits: Limits,
    },
    /// To search for a plan of the problem that this number draws, and to tell its sizes.
    Summary {
        seed: u64,
    },
    /// To tell the commands.
    Help,
}

/// The first fault of a command line. `at` is the index of a word, the command's being 0. The last
/// three stand behind all others, in this order, with the number of words for `at`.
#[derive(Clone, Copy, Debug, PartialEq, Eq, Error)]
pub enum WordFault {
    /// There is no word.
    #[error("there is no command")]
    NoCommand { at: u32 },
    /// The first word is none of the commands.
    #[error("word {at} is no command")]
    UnknownCommand { at: u32 },
    /// The word begins with `-`, and is no option of the command.
    #[error("word {at} is no option of the command")]
    UnknownOption { at: u32 },
    /// The option was given before.
    #[error("the option in word {at} was given before")]
    Twice { at: u32 },
    /// The option is the last word and has no value.
    #[error("the option in word {at} has no value")]
    NoValue { at: u32 },
    /// The word holds a number that is misspelt or out of its limits.
    #[error("the number in word {at} is misspelt or out of its limits")]
    BadNumber { at: u32 },
    /// The number of files is not the command's.
    #[error("the number of files is not right ({at} words)")]
    FileCount { at: u32 },
    /// A scale was given beside a ground text, which has its own.
    #[error("a ground text has its own scale ({at} words)")]
    ScaleOfGround { at: u32 },
    /// An option is missing that the command needs.
    #[error("an option is missing ({at} words)")]
    Missing { at: u32 },
    /// Memory was refused; it says nothing of the words.
    #[error("memory was refused")]
    NoMemory,
}

impl From<NoMemory> for WordFault {
    ghost use Rattle.std.specs.Prelude.{◌≡◌};
    ghost use Rattle.run_cli.specs.declared.words.WordFault.TheVariants.{NoMemory as out_of_memory};

    ghost from_gives = { λ _ fault. fault ≡ out_of_memory };

    fn from(_fault: NoMemory) -> WordFault {
        WordFault::NoMemory
    }
}

/// The files that options name, each where it is given.
#[derive(Clone, Copy)]
struct Named<'a> {
    script: Option<&'a str>,
    plan: Option<&'a str>,
    trace: Option<&'a str>,
}

/// Whether an argument gives an option.
fn gives(setting: Setting, argument: &Argument<'_>) -> bool
    ensures { result ≡ gives setting (view_of argument.now) }
{
    match argument {
        Argument::Given { setting: given, .. } => name_of(*given) == name_of(setting),
        Argument::File { .. } | Argument::Bare { .. } | Argument::Strange { .. } => false,
    }
}

/// Whether some argument gives an option.
fn is_given(arguments: &[Argument<'_>], setting: Setting) -> bool
    ensures { result ≡ is_given (map view_of arguments.now) setting }
{
    for argument in arguments {
        if gives(setting, argument) {
            return true;
        }
    }
    false
}

fn twice_fault(before: &[Argument<'_>], at: u32, setting: Setting) -> Option<WordFault>
    ensures { result ≡ first_of (twice_faults (map view_of before.now) at setting) }
{
    if is_given(before, setting) {
        Some(WordFault::Twice { at })
    } else {
        None
    }
}

/// Whether a value is misspelt or out of the limits of its option.
fn value_fault(at: u32, setting: Setting, value: &str) -> Option<WordFault>
    ensures { result ≡ first_of (range_faults at (numbers_of setting) value.now) }
{
    let numbers = numbers_of(setting)?;
    match number_in(numbers, value) {
        Some(_) => None,
        None => Some(WordFault::BadNumber { at }),
    }
}

/// The first fault of an option with a value.
#[tactic(auto, using(crate::proofs::FirstFaults::first_onto))]
fn given_fault(
    before: &[Argument<'_>],
    at: u32,
    setting: Setting,
    value_at: u32,
    value: &str,
) -> Option<WordFault>
    ensures { result ≡ first_of (twice_faults (map view_of before.now) at setting
        ++ range_faults value_at (numbers_of setting) value.now) }
{
    match twice_fault(before, at, setting) {
        Some(fault) => Some(fault),
        None => value_fault(value_at, setting, value),
    }
}

/// The first fault of an option without a value.
#[tactic(auto, using(crate::proofs::FirstFaults::first_onto))]
fn bare_fault(before: &[Argument<'_>], at: u32, setting: Setting) -> Option<WordFault>
    ensures { result ≡ first_of (twice_faults (map view_of before.now) at setting ++ no_value at
        ∷ []) }
{
    match twice_fault(before, at, setting) {
        Some(fault) => Some(fault),
        None => Some(WordFault::NoValue { at }),
    }
}

/// The first fault of an argument, behind the arguments before it.
fn argument_fault(before: &[Argument<'_>], argument: &Argument<'_>) -> Option<WordFault>
    ensures { result ≡ first_of (argument_faults (map view_of before.now) (view_of argument.now)) }
{
    match argument {
        Argument::File { .. } => None,
        Argument::Given {
            at,
            setting,
            value_at,
            value,
        } => given_fault(before, *at, *setting, *value_at, value),
        Argument::Bare { at, setting } => bare_fault(before, *at, *setting),
        Argument::Strange { at } => Some(WordFault::UnknownOption { at: *at }),
    }
}

/// The first fault of single words.
fn words_fault(arguments: &[Argument<'_>]) -> Option<WordFault>
    ensures { result ≡ first_of (faults_from [] (map view_of arguments.now)) }
{
    for index in 0..arguments.len() {
        let (before, rest) = arguments.split_at(index);
        if let [argument, ..] = rest {
            if let Some(fault) = argument_fault(before, argument) {
                return Some(fault);
            }
        }
    }
    None
}

/// The name of the first file.
fn first_file<'a>(arguments: &[Argument<'a>]) -> Option<&'a str>
    ensures { option_map (λ t. t.now) result ≡ first_name (files_of (map view_of arguments.now)) }
{
    for argument in arguments {
        if let Argument::File { name } = argument {
            return Some(name);
        }
    }
    None
}

/// The name of the second file.
fn second_file<'a>(arguments: &[Argument<'a>]) -> Option<&'a str>
    ensures { option_map (λ t. t.now) result ≡ second_name (files_of (map view_of arguments.now)) }
{
    let mut rest = arguments;
    loop {
        match rest {
            [Argument::File { .. }, tail @ ..] => return first_file(tail),
            [_, tail @ ..] => rest = tail,
            [] => return None,
        }
    }
}

/// The value of an option.
fn value_of<'a>(arguments: &[Argument<'a>], setting: Setting) -> Option<&'a str>
    ensures { option_map (λ t. t.now) result ≡ value_of (map view_of arguments.now) setting }
{
    for argument in arguments {
        if let Argument::Given {
            setting: given,
            value,
            ..
        } = argument
        {
            if name_of(*given) == name_of(setting) {
                return Some(value);
            }
        }
    }
    None
}

/// A value as a number in range; where it is none, or is not there, the default.
fn number_or(numbers: Numbers, value: Option<&str>) -> u64
    requires { numbers.default ≤ numbers.most }
    ensures number { result ≡ number_or numbers (option_map (λ t. t.now) value.entry) }
    ensures most { result ≤ numbers.most }
{
    match value {
        Some(text) => match number_in(numbers, text) {
            Some(number) => number,
            None => numbers.default,
        },
        None => numbers.default,
    }
}

/// The number of an option: the one that is given, or its default; 0 for an option without numbers.
fn number_of(arguments: &[Argument<'_>], setting: Setting) -> u64
    ensures number { result ≡ number_of (map view_of arguments.now) setting }
    ensures most { result ≤ most_of setting }
{
    match numbers_of(setting) {
        Some(numbers) => number_or(numbers, value_of(arguments, setting)),
        None => 0,
    }
}

/// The limits that the arguments give.
fn limits_of(arguments: &[Argument<'_>]) -> Limits
    ensures { result ≡ limits_of (map view_of arguments.now) }
{
    Limits {
        actions: number_of(arguments, Setting::Actions) as u32,
        horizon: number_of(arguments, Setting::Horizon),
        lead: number_of(arguments, Setting::Lead),
        nodes: number_of(arguments, Setting::Nodes) as u32,
    }
}

/// The limits of a run where no option gives one.
pub fn default_limits() -> Limits
    ensures is { result ≡ limits_of [] }
    ensures limited { AreLimits result }
{
    limits_of(&[])
}

/// How many files are named.
fn file_count(arguments: &[Argument<'_>]) -> usize
    ensures { result ≡ length (files_of (map view_of arguments.now)) }
{
    let mut count = 0;
    for argument in arguments {
        if let Argument::File { .. } = argument {
            count += 1;
        }
    }
    count
}

/// The source that a first and a second file name; `scaled` says whether a scale is given.
fn source_from(
    alloc: Global,
    count: u32,
    first: Option<&str>,
    second: Option<&str>,
    scaled: bool,
    scale: u32,
) -> Result<Source, WordFault>
    ensures { Answers result (source_from count (option_map (λ t. t.now) first.entry)
        (option_map (λ t. t.now) second.entry) scaled scale) }
{
    match (first, second) {
        (None, _) => Err(WordFault::FileCount { at: count }),
        (Some(name), None) => {
            if scaled {
                return Err(WordFault::ScaleOfGround { at: count });
            }
            Ok(Source::GroundText {
                name: Name::of(alloc, name)?,
            })
        }
        (Some(domain), Some(problem)) => Ok(Source::Pddl {
            domain: Name::of(alloc, domain)?,
            problem: Name::of(alloc, problem)?,
            scale,
        }),
    }
}

/// A name, where there is one.
fn name_where(alloc: Global, text: Option<&str>) -> Result<Option<Name>, WordFault>
    ensures named { IfOk result (λ name. name ≡ option_map (λ t. t.now) text.entry) }
    ensures memory { IfErr result (λ fault. fault ≡ no_memory) }
{
    match text {
        Some(text) => Ok(Some(Name::of(alloc, text)?)),
        None => Ok(None),
    }
}

/// To search for a plan of a source's problem.
fn search_for(
    alloc: Global,
    source: Source,
    limits: Limits,
    trace: Option<&str>,
) -> Result<Order, WordFault>
    ensures { Answers result (Ok (search_of source limits (option_map (λ t. t.now) trace.entry))) }
{
    let trace = name_where(alloc, trace)?;
    Ok(Order::Solve {
        source,
        limits,
        trace,
    })
}

/// To play a script, which is needed.
fn simulation(
    alloc: Global,
    count: u32,
    script: Option<&str>,
    source: Source,
    limits: Limits,
    trace: Option<&str>,
) -> Result<Order, WordFault>
    ensures { Answers result (simulation count (option_map (λ t. t.now) script.entry) source
        limits (option_map (λ t. t.now) trace.entry)) }
{
    match script {
        Some(script) => {
            let script = Name::of(alloc, script)?;
            let trace = name_where(alloc, trace)?;
            Ok(Order::Simulate {
                source,
                script,
                limits,
                trace,
            })
        }
        None => Err(WordFault::Missing { at: count }),
    }
}

/// To judge a plan file, which is needed.
fn validation(
    alloc: Global,
    count: u32,
    plan: Option<&str>,
    source: Source,
    limits: Limits,
) -> Result<Order, WordFault>
    ensures { Answers result (validation count (option_map (λ t. t.now) plan.entry) source
        limits) }
{
    match plan {
        Some(plan) => Ok(Order::Validate {
            source,
            plan: Name::of(alloc, plan)?,
            limits,
        }),
        None => Err(WordFault::Missing { at: count }),
    }
}

/// To ground a domain and a problem, which both are needed.
fn grounding(count: u32, source: Source) -> Result<Order, WordFault>
    ensures { Answers result (grounding count source) }
{
    match source {
        Source::Pddl {
            domain,
            problem,
            scale,
        } => Ok(Order::Ground {
            domain,
            problem,
            scale,
        }),
        Source::GroundText { .. } => Err(WordFault::FileCount { at: count }),
    }
}

/// To judge a trace, which is needed.
fn replaying(
    alloc: Global,
    count: u32,
    trace: Option<&str>,
    source: Source,
    limits: Limits,
) -> Result<Order, WordFault>
    ensures { Answers result (replaying count (option_map (λ t. t.now) trace.entry) source
        limits) }
{
    match trace {
        Some(trace) => Ok(Order::Replay {
            source,
            trace: Name::of(alloc, trace)?,
            limits,
        }),
        None => Err(WordFault::Missing { at: count }),
    }
}

/// The order of a command that has a source, with the files that options name.
fn order_with(
    alloc: Global,
    command: Command,
    count: u32,
    named: Named<'_>,
    limits: Limits,
    source: Source,
) -> Result<Order, WordFault>
    ensures { Answers result (order_with command count (named_view named.entry) limits source) }
{
    match command {
        Command::Solve => search_for(alloc, source, limits, named.trace),
        Command::Simulate => { simulation(alloc, count, named.script, source, limits, named.trace) }
        Command::Validate => validation(alloc, count, named.plan, source, limits),
        Command::Ground => grounding(count, source),
        Command::Replay => replaying(alloc, count, named.trace, source, limits),
        Command::Summary => Err(WordFault::FileCount { at: count }),
        Command::Help => Ok(Order::Help),
    }
}

/// The files that options name.
fn named_of<'a>(arguments: &[Argument<'a>]) -> Named<'a>
    ensures { named_view result ≡ named_of (map view_of arguments.now) }
{
    Named {
        script: value_of(arguments, Setting::Script),
        plan: value_of(arguments, Setting::PlanFile),
        trace: value_of(arguments, Setting::TraceFile),
    }
}

/// To search for a plan of the problem that a seed draws; the seed has to be given.
fn summary(count: u32, value: Option<&str>, seed: u64) -> Result<Order, WordFault>
    ensures { result ≡ summary count (option_map (λ t. t.now) value.entry) seed }
{
    match value {
        Some(_) => Ok(Order::Summary { seed }),
        None => Err(WordFault::Missing { at: count }),
    }
}

/// The order of a command that has no source; none where the command has one.
fn sourceless(
    command: Command,
    count: u32,
    arguments: &[Argument<'_>],
) -> Option<Result<Order, WordFault>>
    ensures { result ≡ sourceless command count (map view_of arguments.now) }
{
    match command {
        Command::Help => Some(Ok(Order::Help)),
        Command::Summary => {
            let value = value_of(arguments, Setting::Seed);
            Some(summary(count, value, number_of(arguments, Setting::Seed)))
        }
        _ => None,
    }
}

/// The order of a command with its files, those that options name, and its scale.
#[tactic(auto, using(crate::proofs::Sourced::with_fault, crate::proofs::Sourced::with_order))]
fn order_from(
    alloc: Global,
    command: Command,
    count: u32,
    arguments: &[Argument<'_>],
) -> Result<Order, WordFault>
    ensures { Answers result (order_from command count (map view_of arguments.now)) }
{
    if let Some(order) = sourceless(command, count, arguments) {
        return order;
    }
    let source = source_from(
        alloc,
        count,
        first_file(arguments),
        second_file(arguments),
        is_given(arguments, Setting::Scale),
        number_of(arguments, Setting::Scale) as u32,
    );
    match source {
        Ok(source) => order_with(
            alloc,
            command,
            count,
            named_of(arguments),
            limits_of(arguments),
            source,
        ),
        Err(fault) => Err(fault),
    }
}

/// The order of all arguments of a command, where it takes so many files.
fn whole_order(
    alloc: Global,
    command: Command,
    count: u32,
    arguments: &[Argument<'_>],
) -> Result<Order, WordFault>
    ensures { Answers result (whole_order command count (map view_of arguments.now)) }
{
    if takes(command, file_count(arguments) as u64) {
        order_from(alloc, command, count, arguments)
    } else {
        Err(WordFault::FileCount { at: count })
    }
}

/// The order that a command's arguments say, or their first fault; there are `count` words.
fn judge(
    alloc: Global,
    command: Command,
    count: u32,
    arguments: &[Argument<'_>],
) -> Result<Order, WordFault>
    ensures { Answers result (ordered command count (map view_of arguments.now)) }
{
    match words_fault(arguments) {
        Some(fault) => Err(fault),
        None => whole_order(alloc, command, count, arguments),
    }
}

/// Reads the words of a command line behind the program's name: the command, then files and options
/// in any order. An option stands as `--name`, with the next word for its value, whatever that is,
/// or as `--name=value`. A number is 1 to 13 digits. A problem is one file, or a domain and a
/// problem; those take `--scale` (1, 10, 100 or 1000). `solve` takes a problem and `--lead` (0 to
/// 1000), `--actions` (1 to 64), `--horizon` (1 to 2^40), `--nodes` (1 to 200,000) and `--trace`, a
/// file; `simulate` takes these and `--script`, which it needs; `validate` takes a problem,
/// `--plan`, which it needs, `--actions` and `--horizon`; `ground` takes two files; `replay` takes
/// the words of `solve`, and needs `--trace`; `summary` takes no file and `--seed` (0 to
/// 9,999,999,999,999), which it needs; `help` takes no file and no option. The answer is
/// exactly what the words say, or their first fault, or want of memory.
pub fn read_words(alloc: Global, words: &[String]) -> Result<Order, WordFault>
    requires { length words.now < 2 ^ 31 }
    ensures { Answers result (order_of (map string_bytes words.now)) }
{
    let (command, rest) = match words {
        [] => return Err(WordFault::NoCommand { at: 0 }),
        [word, rest @ ..] => match command_named(word.as_bytes()) {
            Some(command) => (command, rest),
            None => return Err(WordFault::UnknownCommand { at: 0 }),
        },
    };
    let arguments = arguments_of(alloc, command, rest)?;
    judge(alloc, command, words.len() as u32, &arguments)
}

/// The name of a fault and its place; none for want of memory.
fn name_and_place(fault: WordFault) -> Option<(&'static [u8], u32)>
    ensures { MatchOption result (fault_text fault ≡ [])
        (λ x. fault_text fault ≡ named_fault x.0.now x.1) }
{
    match fault {
        WordFault::NoCommand { at } => Some((b"NoCommand", at)),
        WordFault::UnknownCommand { at } => Some((b"UnknownCommand", at)),
        WordFault::UnknownOption { at } => Some((b"UnknownOption", at)),
        WordFault::Twice { at } => Some((b"Twice", at)),
        WordFault::NoValue { at } => Some((b"NoValue", at)),
        WordFault::BadNumber { at } => Some((b"BadNumber", at)),
        WordFault::FileCount { at } => Some((b"FileCount", at)),
        WordFault::ScaleOfGround { at } => Some((b"ScaleOfGround", at)),
        WordFault::Missing { at } => Some((b"Missing", at)),
        WordFault::NoMemory => None,
    }
}

/// The line that a fault prints: `refused words PLACE FAULT`; no text for want of memory.
pub fn fault_line(alloc: Global, fault: WordFault) -> Result<Vec<u8>, NoMemory>
    ensures { IfOk result (λ t. t.items ≡ fault_text fault) }
{
    let mut text = Vec::new(alloc);
    if let Some((name, at)) = name_and_place(fault) {
        push_bytes(&mut text, b"refused words ")?;
        push_number(&mut text, u64::from(at))?;
        push_bytes(&mut text, b" ")?;
        push_bytes(&mut text, name)?;
        push_bytes(&mut text, b"\n")?;
    }
    Ok(text)
}
