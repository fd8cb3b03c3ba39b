//! Cases of line texts as data: reads a table from the standard input, a case a line, and prints
//! what the readers answer to each. `src/cases.rt` tells what a line of the table says.
#![tactic(auto)]

mod cases;
mod escapes;

use crate::cases::Cases;
use std::io;

fn main(rt: HostRuntime) -> io::Result<()> {
    let mut cases = Cases::new(rt.alloc());
    for line in rt.lines(rt.alloc()) {
        let said = cases.answer(rt.alloc(), line?.as_str())?;
        print!(rt; "{said}")?;
    }
    Ok(())
}
