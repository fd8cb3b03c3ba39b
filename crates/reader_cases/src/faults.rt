use pddl_parts::PddlFault;
use pddl_tokens::{NumberFault, TextFault};

fn print_text_faults(rt: &impl Print) -> anyhow::Result<()> {
    let at = 7;
    let faults = [
        TextFault::NotUtf8 { at },
        TextFault::Unclosed { at },
        TextFault::Unopened { at },
        TextFault::TooDeep { at },
        TextFault::NoMemory,
    ];
    for fault in &faults {
        println!(rt; "{fault}")?;
    }
    Ok(())
}

fn print_number_faults(rt: &impl Print) -> anyhow::Result<()> {
    let faults = [
        NumberFault::NotNumber,
        NumberFault::NotWhole,
        NumberFault::TooLarge,
    ];
    for fault in &faults {
        println!(rt; "{fault}")?;
    }
    Ok(())
}

fn print_pddl_faults(rt: &impl Print) -> anyhow::Result<()> {
    let at = 7;
    let faults = [
        PddlFault::Shape { at },
        PddlFault::LeftOut { at },
        PddlFault::Unknown { at },
        PddlFault::Arity { at },
        PddlFault::Twice { at },
        PddlFault::Cycle { at },
        PddlFault::NotWhole { at },
        PddlFault::TooLarge { at },
        PddlFault::ClashingTimed { at },
        PddlFault::OtherDomain { at },
        PddlFault::NoMemory,
    ];
    for fault in &faults {
        println!(rt; "{fault}")?;
    }
    Ok(())
}

/// Prints the text of each fault.
pub fn print_faults(rt: &impl Print) -> anyhow::Result<()> {
    print_text_faults(rt)?;
    print_number_faults(rt)?;
    print_pddl_faults(rt)
}
