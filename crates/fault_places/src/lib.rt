//! Where in a text an offset stands: its line, its column and the bytes of its line; the caret
//! below it; and the offset at which a line of a given number begins.
#![tactic(auto)]

mod carets;
mod counts;
mod places;

pub use carets::caret_line;
pub use places::{LinePlace, line_offset, place};
