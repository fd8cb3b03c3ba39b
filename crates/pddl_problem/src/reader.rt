ghost use Rattle.std.specs.Prelude.{◌≡◌, IfOk};
ghost use Rattle.pddl_tokens.specs.Numbers.{IsScale};
ghost use Rattle.pddl_tokens.specs.Trees.{trees_of};
ghost use Rattle.pddl_domain.specs.Meaning.{Gives};
ghost use Rattle.pddl_problem.specs.Passes.{problem_fault};
ghost use Rattle.pddl_problem.specs.Meaning.{task_of};

use crate::meaning::task_of;
use crate::passes::problem_fault;
use crate::task::Task;
use pddl_domain::Domain;
use pddl_parts::PddlFault;
use pddl_tokens::Forms;
use std::alloc::Global;

/// The problem of this domain that a file of words and lists says, where it has no fault; numbers
/// and times are in units of `scale`, 1, 10, 100 or 1000. Else the first fault: of the
/// declarations, where they have one, or else of `:init` and `:goal`.
pub fn read_problem(
    alloc: Global,
    forms: &Forms,
    domain: &Domain,
    scale: u32,
) -> Result<Task, PddlFault>
    requires { IsScale scale }
    ensures task { IfOk result (λ t. t ≡ task_of domain.now scale (trees_of forms.now.forms)) }
    ensures fault { Gives result (problem_fault domain.now scale forms.now.bytes
        (trees_of forms.now.forms)) }
{
    match problem_fault(alloc, domain, scale, forms) {
        Err(_) => Err(PddlFault::NoMemory),
        Ok(Some(fault)) => Err(fault.reported()),
        Ok(None) => {
            match task_of(alloc, domain, scale, forms.forms.as_slice()) {
                Ok(task) => Ok(task),
                Err(_) => Err(PddlFault::NoMemory),
            }
        }
    }
}
