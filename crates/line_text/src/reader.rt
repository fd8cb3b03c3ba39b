ghost use Rattle.std.specs.Prelude.{◌≡◌, ℕ, ◌^◌, ◌<◌, false, List, [], ◌∷◌, ◌++◌, length, IfOk, IfErr, OnOk, IsTrue};
ghost use Rattle.tp_spec.specs.Lists.{BeginsWith};
ghost use Rattle.line_text.specs.Lines.{is_line, joined};
ghost use Rattle.line_text.specs.FirstFault.{SomeBegins, NoneBegins, TellsFault};

use crate::lines::cut_line;
use tp_spec::{LineFault, NoMemory};

/// A reader that takes the lines of a text one after the other, as long as some whole text of its
/// grammar begins with them.
pub trait LineReader {
    /// The whole texts of the grammar.
    ghost IsWhole: { List ℕ → Type 0 };

    /// What the reader is once it has taken these lines.
    ghost HasTaken: { List (List ℕ) → Self → Type 0 };

    /// Takes the next line, without its line feed. False where no text of the grammar begins with
    /// it and the lines before it; then nothing is said of the reader.
    fn take_line(&mut self, line: &[u8]) -> Result<bool, NoMemory>
        requires { IsTrue (is_line line.now) }
        ensures taken { IfOk result (λ taken. IsTrue taken → (before : List (List ℕ))
            → HasTaken before self.old → HasTaken (before ++ line.now ∷ []) self.new) }
        ensures refused { IfOk result (λ taken. taken ≡ false → (before : List (List ℕ))
            → HasTaken before self.old → NoneBegins IsWhole (before ++ line.now ∷ [])) };

    /// Whether the lines that were taken are a whole text.
    fn is_whole(&self) -> bool
        ensures whole { IsTrue result → (taken : List (List ℕ)) → HasTaken taken self.now
            → IsWhole (joined taken) }
        ensures open { result ≡ false → (taken : List (List ℕ)) → HasTaken taken self.now
            → IsWhole (joined taken) → ⊥ };

    /// Some text of the grammar begins with all lines that were taken.
    ghost completable: { (taken : List (List ℕ)) (reader : Self) → HasTaken taken reader
        → SomeBegins IsWhole taken };
}

/// Reads a text by a reader that has taken no line yet. `Line` where it is no text of the grammar:
/// the number, from 1, of the first line such that no text of the grammar begins with the lines up
/// to it.
pub fn read_lines<R: LineReader>(reader: &mut R, text: &[u8]) -> Result<(), LineFault>
    requires new { R.HasTaken [] reader.old }
    requires short { length text.now < 2 ^ 31 }
    ensures whole { OnOk result (R.IsWhole text.now) }
    ensures taken { OnOk result ((taken : List (List ℕ)) × R.HasTaken taken reader.new
        × (text.now ≡ joined taken)) }
    ensures line { IfErr result (λ fault. TellsFault R.IsWhole fault text.now) }
{
    let mut number = 1;
    let mut rest = text;
    'lines: loop {
        match cut_line(rest) {
            Some((line, behind)) => {
                match reader.take_line(line) {
                    Ok(true) => {}
                    Ok(false) => return Err(LineFault::Line { number }),
                    Err(NoMemory) => return Err(LineFault::NoMemory),
                }
                number += 1;
                rest = behind;
            }
            None => {
                if rest.is_empty() && reader.is_whole() {
                    return Ok(());
                }
                return Err(LineFault::Line { number });
            }
        }
    }
}
