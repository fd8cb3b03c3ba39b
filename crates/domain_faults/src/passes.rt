ghost use Rattle.std.specs.Prelude.{◌≡◌, IfOk};
ghost use Rattle.pddl_tokens.specs.Numbers.{IsScale};
ghost use Rattle.pddl_tokens.specs.Trees.{trees_of};
ghost use Rattle.pddl_parts.specs.First.{first};
ghost use Rattle.domain_faults.specs.Passes.{sections_of, acting_faults, domain_fault};

use crate::actions::actions_fault;
use crate::outer::declared_fault;
use crate::parts::behind_name;
use crate::scopes::scope_of;
use pddl_parts::Fault;
use pddl_tokens::{Form, Forms, Head, head_of};
use std::alloc::Global;
use tp_spec::NoMemory;

/// The sections of a domain, by the forms of its file: what stands in the first form behind
/// `define` and what names it.
pub fn sections_of(forms: &[Form]) -> &[Form]
    ensures { trees_of result.now ≡ sections_of (trees_of forms.now) }
{
    match head_of(forms) {
        Head::Missing => forms,
        Head::Word(..) => &[],
        Head::List { parts, .. } => behind_name(behind_name(parts)),
    }
}

/// The first fault of the actions among sections; numbers are whole at `scale`.
fn acting_fault(alloc: Global, scale: u32, sections: &[Form]) -> Result<Option<Fault>, NoMemory>
    requires { IsScale scale }
    ensures { IfOk result (λ fault. fault ≡ first (acting_faults scale (trees_of sections.now))) }
{
    let scope = scope_of(alloc, sections)?;
    actions_fault(alloc, &scope, scale, sections)
}

/// The first fault of a domain's file: that of its declarations, where they have one, else that of
/// its actions. A number has a fault where it is not whole in units of `scale`, 1, 10, 100 or 1000.
/// The error is want of memory.
pub fn domain_fault(alloc: Global, scale: u32, forms: &Forms) -> Result<Option<Fault>, NoMemory>
    requires { IsScale scale }
    ensures { IfOk result (λ fault. fault
        ≡ domain_fault scale forms.now.bytes (trees_of forms.now.forms)) }
{
    let declared = declared_fault(alloc, forms)?;
    match declared {
        Some(fault) => Ok(Some(fault)),
        None => acting_fault(alloc, scale, sections_of(forms.forms.as_slice())),
    }
}
