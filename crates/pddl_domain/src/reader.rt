ghost use Rattle.std.specs.Prelude.{◌≡◌, IfOk};
ghost use Rattle.pddl_tokens.specs.Numbers.{IsScale};
ghost use Rattle.pddl_tokens.specs.Trees.{trees_of};
ghost use Rattle.domain_faults.specs.Passes.{domain_fault};
ghost use Rattle.pddl_domain.specs.Meaning.{domain_of, Gives};

use crate::domain::Domain;
use crate::meaning::domain_of;
use domain_faults::domain_fault;
use pddl_parts::PddlFault;
use pddl_tokens::Forms;
use std::alloc::Global;

/// The domain that a file of words and lists says, where it has no fault; numbers and durations are
/// in units of `scale`, 1, 10, 100 or 1000. Else the first fault: of the declarations, where they
/// have one, or else of the actions.
pub fn read_domain(alloc: Global, forms: &Forms, scale: u32) -> Result<Domain, PddlFault>
    requires { IsScale scale }
    ensures domain { IfOk result (λ d. d ≡ domain_of scale (trees_of forms.now.forms)) }
    ensures fault { Gives result (domain_fault scale forms.now.bytes (trees_of forms.now.forms)) }
{
    match domain_fault(alloc, scale, forms) {
        Err(_) => Err(PddlFault::NoMemory),
        Ok(Some(fault)) => Err(fault.reported()),
        Ok(None) => {
            match domain_of(alloc, scale, forms.forms.as_slice()) {
                Ok(domain) => Ok(domain),
                Err(_) => Err(PddlFault::NoMemory),
            }
        }
    }
}
