ghost use Rattle.std.specs.Prelude.{◌≡◌, ◌++◌, IfOk, OnOk, [], ◌∷◌};
ghost use Rattle.fault_places.specs.Places.{blanks, line_before};

use crate::counts::{is_inside, tail_len};
use std::alloc::{AllocError, Global};
use tp_spec::NoMemory;

/// Puts blanks as wide as a text is shown behind a line.
fn push_blanks(line: &mut Vec<u8>, text: &[u8]) -> Result<(), AllocError>
    ensures { OnOk result (line.new.items ≡ line.old.items ++ blanks text.now) }
{
    for byte in text {
        if *byte == b'\t' {
            line.push(b'\t')?;
        } else if !is_inside(*byte) {
            line.push(b' ')?;
        }
    }
    Ok(())
}

/// The line to show below the line of an offset: a caret that stands below what is there, with the
/// tabs that the line has before it.
pub fn caret_line(alloc: Global, text: &[u8], offset: usize) -> Result<Vec<u8>, NoMemory>
    ensures { IfOk result (λ v. v.items ≡ blanks (line_before offset text.now) ++ 94 ∷ []) }
{
    let (before, _) = text.split_at(offset.min(text.len()));
    let mut line = Vec::new(alloc);
    push_blanks(&mut line, &before[before.len() - tail_len(before)..])?;
    line.extend_from_slice(b"^")?;
    Ok(line)
}
