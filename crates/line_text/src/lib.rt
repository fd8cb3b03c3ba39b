//! What all texts of lines are written and read with: numbers, ticks and items put behind a growing
//! text, lines and numbers read strictly, and the rule of the first faulty line.
#![tactic(auto)]

mod lines;
mod numbers;
mod reader;
mod write;

pub use lines::cut_line;
pub use numbers::cut_number;
pub use reader::{LineReader, read_lines};
pub use write::{push_bytes, push_item, push_number, push_signed, push_tick};
