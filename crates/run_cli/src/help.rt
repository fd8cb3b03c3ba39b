ghost use Rattle.std.specs.Prelude.{◌≡◌, ◌++◌, OnOk, IfOk};
ghost use Rattle.run_cli.specs.Help.{files_text, option_text, options_text, command_line, command_lines, help_text};

use crate::options::{
    Command, Setting, all_commands, command_name, file_bounds, name_of, options_of,
};
use line_text::{push_bytes, push_number};
use std::alloc::Global;
use tp_spec::NoMemory;

/// Puts a number of files behind a text, or the least and the greatest with a dash between them.
fn push_files(text: &mut Vec<u8>, least: u64, most: u64) -> Result<(), NoMemory>
    ensures { OnOk result (text.new.items ≡ text.old.items ++ files_text least most) }
{
    push_number(text, least)?;
    if least != most {
        push_bytes(text, b"-")?;
        push_number(text, most)?;
    }
    Ok(())
}

/// Puts an option behind a text.
fn push_option(text: &mut Vec<u8>, setting: Setting) -> Result<(), NoMemory>
    ensures { OnOk result (text.new.items ≡ text.old.items ++ option_text setting) }
{
    push_bytes(text, b" --")?;
    push_bytes(text, name_of(setting))
}

/// Puts options behind a text.
fn push_options(text: &mut Vec<u8>, settings: &[Setting]) -> Result<(), NoMemory>
    ensures { OnOk result (text.new.items ≡ text.old.items ++ options_text settings.now) }
{
    for setting in settings {
        push_option(text, *setting)?;
    }
    Ok(())
}

/// Puts the line of a command behind a text.
fn push_command(text: &mut Vec<u8>, command: Command) -> Result<(), NoMemory>
    ensures { OnOk result (text.new.items ≡ text.old.items ++ command_line command) }
{
    let (least, most) = file_bounds(command);
    push_bytes(text, command_name(command))?;
    push_bytes(text, b" ")?;
    push_files(text, least, most)?;
    push_options(text, options_of(command))?;
    push_bytes(text, b"\n")
}

/// What `help` prints: for each command a line of its name, the number of its files, and its
/// options.
pub fn help_text(alloc: Global) -> Result<Vec<u8>, NoMemory>
    ensures { IfOk result (λ t. t.items ≡ help_text) }
{
    let mut text = Vec::new(alloc);
    for command in all_commands() {
        push_command(&mut text, *command)?;
    }
    Ok(text)
}
