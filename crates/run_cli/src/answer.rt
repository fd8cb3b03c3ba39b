ghost use Rattle.std.specs.Prelude.{◌<◌};

/// What a command says before its work or in its place: the status of the program, and the line
/// that it prints.
#[derive(Drop)]
pub struct Answer {
    pub status: u8,
    pub line: Vec<u8>,
    ghost below: { status < 6 },
}
