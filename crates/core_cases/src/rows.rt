use crate::problems::no_memory;
use std::alloc::Global;
use std::io;
use world_state::BitRow;

/// What two sets of numbers below 100 have to do with one another.
pub fn of_two_sets(alloc: Global) -> io::Result<String> {
    let Ok(mut first) = BitRow::of(alloc, 100, &[3, 70]) else {
        return Err(no_memory());
    };
    let Ok(mut second) = first.copy(alloc) else {
        return Err(no_memory());
    };
    let Ok(mut third) = BitRow::empty(alloc, 100) else {
        return Err(no_memory());
    };
    second.remove(3);
    second.insert(99);
    third.add_all(&second);
    third.remove_all(&first);
    first.remove_each(&[70, 71]);
    first.insert_each(&[0, 99]);
    let meets = first.meets(&second);
    let within = third.is_within(&second);
    second.clear();
    let text = format!(in alloc;
        "rows: first {} {} {}, third {} {}, meets {meets}, within {within}, cleared {}",
        first.has(0),
        first.has(70),
        first.has(99),
        third.has(70),
        third.has(99),
        second.has(99)
    )?;
    Ok(text)
}
