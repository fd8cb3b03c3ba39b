use run_cli::{Order, Source};

/// The file that a source has in a role.
fn source_file<'a>(source: &'a Source, role: &str) -> Option<&'a str> {
    match source {
        Source::GroundText { name } => {
            if role == "ground" {
                Some(name.as_str())
            } else {
                None
            }
        }
        Source::Pddl {
            domain,
            problem,
            ..
        } => {
            if role == "domain" {
                Some(domain.as_str())
            } else if role == "problem" {
                Some(problem.as_str())
            } else {
                None
            }
        }
    }
}

/// The file that an order has in a role, which is called as in printed lines.
pub(crate) fn file_in<'a>(order: &'a Order, role: &str) -> Option<&'a str> {
    match order {
        Order::Solve { source, .. } => source_file(source, role),
        Order::Simulate { source, script, .. } => {
            if role == "script" {
                Some(script.as_str())
            } else {
                source_file(source, role)
            }
        }
        Order::Validate { source, plan, .. } => {
            if role == "plan" {
                Some(plan.as_str())
            } else {
                source_file(source, role)
            }
        }
        Order::Ground {
            domain,
            problem,
            ..
        } => {
            if role == "domain" {
                Some(domain.as_str())
            } else if role == "problem" {
                Some(problem.as_str())
            } else {
                None
            }
        }
        Order::Replay { source, trace, .. } => {
            if role == "trace" {
                Some(trace.as_str())
            } else {
                source_file(source, role)
            }
        }
        Order::Summary { .. } => None,
        Order::Help => None,
    }
}

/// The scale that a source is read at; 1 for a ground text, which has its own.
fn source_scale(source: &Source) -> u32 {
    match source {
        Source::GroundText { .. } => 1,
        Source::Pddl { scale, .. } => *scale,
    }
}

/// The scale at which an order has its PDDL files read.
pub(crate) fn scale_in(order: &Order) -> u32 {
    match order {
        Order::Solve { source, .. } => source_scale(source),
        Order::Simulate { source, .. } => source_scale(source),
        Order::Validate { source, .. } => source_scale(source),
        Order::Ground { scale, .. } => *scale,
        Order::Replay { source, .. } => source_scale(source),
        Order::Summary { .. } => 1,
        Order::Help => 1,
    }
}
