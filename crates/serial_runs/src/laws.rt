ghost use Rattle.serial_runs.specs.Commands.{CommandsAreCommitted};

/// The commands that a history prints are the lines of the commitments behind it, in order.
pub fn commands_of_history()
    ensures { CommandsAreCommitted }
{}
