ghost use Rattle.std.specs.Prelude.{◌≡◌, ◌≤◌, Some, None, IfSome, false};
ghost use Rattle.std.specs.Char.{is_ascii_digit};
ghost use Rattle.std.specs.List.{list_all};
ghost use Rattle.run_cli.specs.Options.{all_commands, command_name, file_bounds, takes, command_named, row_of, name_of, numbers_of, options_of, option_named, is_number, within, is_scale, among, number_in};

/// A command of the program.
#[derive(Clone, Copy, Debug, PartialEq, Eq)]
pub enum Command {
    /// Searches for a plan.
    Solve,
    /// Runs the steps of a script.
    Simulate,
    /// Judges a plan file.
    Validate,
    /// Prints the ground text of a domain and a problem.
    Ground,
    /// Judges the trace of a run.
    Replay,
    /// Searches for a plan of a problem that a seed draws.
    Summary,
    /// Tells the commands, with their files and options.
    Help,
}

/// An option of a command.
#[derive(Clone, Copy, Debug, PartialEq, Eq)]
pub enum Setting {
    /// How many ticks before its time a start is given out at the latest.
    Lead,
    /// The most acts of a plan.
    Actions,
    /// The last tick of a plan.
    Horizon,
    /// The most ids that the search gives to nodes.
    Nodes,
    /// How many ticks there are in a unit of time of a domain and a problem.
    Scale,
    /// The script whose steps are to be run.
    Script,
    /// The plan file that is to be judged.
    PlanFile,
    /// The file in which the decisions of a run are kept, or from which they are read.
    TraceFile,
    /// The number that a problem is drawn from.
    Seed,
}

/// The numbers that an option takes: from `least` to `most`, only those of a scale (1, 10, 100 and
/// 1000) where `scales`, and the one where none is given.
#[derive(Clone, Copy)]
pub struct Numbers {
    pub least: u64,
    pub most: u64,
    pub default: u64,
    pub scales: bool,
}

/// An option: its name without the dashes, and its numbers where it takes one.
#[derive(Clone, Copy)]
struct Row {
    name: &'static [u8],
    numbers: Option<Numbers>,
}

/// All commands.
pub fn all_commands() -> &'static [Command]
    ensures { result.now ≡ all_commands }
{
    &[
        Command::Solve,
        Command::Simulate,
        Command::Validate,
        Command::Ground,
        Command::Replay,
        Command::Summary,
        Command::Help,
    ]
}

/// The name of a command.
pub fn command_name(command: Command) -> &'static [u8]
    ensures { result.now ≡ command_name command }
{
    match command {
        Command::Solve => b"solve",
        Command::Simulate => b"simulate",
        Command::Validate => b"validate",
        Command::Ground => b"ground",
        Command::Replay => b"replay",
        Command::Summary => b"summary",
        Command::Help => b"help",
    }
}

/// The least and the greatest number of files of a command.
pub fn file_bounds(command: Command) -> (u64, u64)
    ensures { result ≡ file_bounds command }
{
    match command {
        Command::Solve => (1, 2),
        Command::Simulate => (1, 2),
        Command::Validate => (1, 2),
        Command::Ground => (2, 2),
        Command::Replay => (1, 2),
        Command::Summary => (0, 0),
        Command::Help => (0, 0),
    }
}

/// Whether a command takes so many files.
pub fn takes(command: Command, count: u64) -> bool
    ensures { result ≡ takes command count }
{
    let (least, most) = file_bounds(command);
    within(least, most, count).is_some()
}

/// The command that a word names.
pub fn command_named(word: &[u8]) -> Option<Command>
    ensures { result ≡ command_named word.now }
{
    for command in all_commands() {
        if command_name(*command) == word {
            return Some(*command);
        }
    }
    None
}

/// The options of a command.
pub fn options_of(command: Command) -> &'static [Setting]
    ensures { result.now ≡ options_of command }
{
    match command {
        Command::Solve => &[
            Setting::Lead,
            Setting::Actions,
            Setting::Horizon,
            Setting::Nodes,
            Setting::Scale,
            Setting::TraceFile,
        ],
        Command::Simulate => &[
            Setting::Script,
            Setting::Lead,
            Setting::Actions,
            Setting::Horizon,
            Setting::Nodes,
            Setting::Scale,
            Setting::TraceFile,
        ],
        Command::Validate => &[
            Setting::PlanFile,
            Setting::Actions,
            Setting::Horizon,
            Setting::Scale,
        ],
        Command::Ground => &[Setting::Scale],
        Command::Replay => &[
            Setting::TraceFile,
            Setting::Lead,
            Setting::Actions,
            Setting::Horizon,
            Setting::Nodes,
            Setting::Scale,
        ],
        Command::Summary => &[Setting::Seed],
        Command::Help => &[],
    }
}

/// The row of an option whose value is a number.
fn numbered(name: &'static [u8], least: u64, most: u64, default: u64) -> Row
    ensures name { result.name.now ≡ name.now }
    ensures numbers { result.numbers
        ≡ Some (record { least = least; most = most; default = default; scales = false }) }
{
    Row {
        name,
        numbers: Some(Numbers {
            least,
            most,
            default,
            scales: false,
        }),
    }
}

/// The row of an option whose value is a text.
fn worded(name: &'static [u8]) -> Row
    ensures name { result.name.now ≡ name.now }
    ensures numbers { result.numbers ≡ None }
{
    Row {
        name,
        numbers: None,
    }
}

/// The options: the name, the least and the greatest number, and the number where none is given.
fn row_of(setting: Setting) -> Row
    ensures name { result.name.now ≡ (row_of setting).name }
    ensures numbers { result.numbers ≡ (row_of setting).numbers }
    ensures default { IfSome result.numbers (λ n. n.default ≤ n.most) }
{
    match setting {
        Setting::Lead => numbered(b"lead", 0, 1000, 0),
        Setting::Actions => numbered(b"actions", 1, 64, 64),
        Setting::Horizon => numbered(b"horizon", 1, 1 << 40, 1 << 40),
        Setting::Nodes => numbered(b"nodes", 1, 200_000, 50_000),
        Setting::Scale => Row {
            name: b"scale",
            numbers: Some(Numbers {
                least: 1,
                most: 1000,
                default: 1,
                scales: true,
            }),
        },
        Setting::Script => worded(b"script"),
        Setting::PlanFile => worded(b"plan"),
        Setting::TraceFile => worded(b"trace"),
        Setting::Seed => numbered(b"seed", 0, 9_999_999_999_999, 0),
    }
}

/// The name of an option, without the dashes.
pub fn name_of(setting: Setting) -> &'static [u8]
    ensures { result.now ≡ name_of setting }
{
    row_of(setting).name
}

/// The numbers of an option that takes one.
pub fn numbers_of(setting: Setting) -> Option<Numbers>
    ensures numbers { result ≡ numbers_of setting }
    ensures default { IfSome result (λ n. n.default ≤ n.most) }
{
    row_of(setting).numbers
}

/// The option of a command that has this name.
pub fn option_named(command: Command, name: &[u8]) -> Option<Setting>
    ensures { result ≡ option_named (options_of command) name.now }
{
    for setting in options_of(command) {
        if name_of(*setting) == name {
            return Some(*setting);
        }
    }
    None
}

/// Whether all bytes are digits.
fn all_digits(text: &[u8]) -> bool
    ensures { result ≡ list_all is_ascii_digit text.now }
{
    text.iter().all(|b| b.is_ascii_digit())
}

/// Whether a text is 1 to 13 digits.
fn is_number(text: &[u8]) -> bool
    ensures { result ≡ is_number text.now }
{
    !text.is_empty() && text.len() < 14 && all_digits(text)
}

/// A number that is from `low` to `high`.
fn within(low: u64, high: u64, number: u64) -> Option<u64>
    ensures number { result ≡ within low high number }
    ensures most { IfSome result (λ n. n ≤ high) }
{
    if number < low {
        None
    } else if high < number {
        None
    } else {
        Some(number)
    }
}

/// Whether a number is 1, 10, 100 or 1000.
fn is_scale(number: u64) -> bool
    ensures { result ≡ is_scale number }
{
    number == 1 || number == 10 || number == 100 || number == 1000
}

/// A number that is one of some numbers.
fn among(numbers: Numbers, number: u64) -> Option<u64>
    ensures number { result ≡ among numbers number }
    ensures most { IfSome result (λ n. n ≤ numbers.most) }
{
    if numbers.scales && !is_scale(number) {
        None
    } else {
        within(numbers.least, numbers.most, number)
    }
}

/// The number of some numbers that a text spells by 1 to 13 digits.
pub fn number_in(numbers: Numbers, text: &str) -> Option<u64>
    ensures number { result ≡ number_in numbers text.now }
    ensures most { IfSome result (λ n. n ≤ numbers.most) }
{
    if !is_number(text.as_bytes()) {
        return None;
    }
    match text.parse::<u64>() {
        Ok(number) => among(numbers, number),
        Err(_) => None,
    }
}
