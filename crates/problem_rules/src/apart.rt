ghost use Rattle.std.specs.Prelude.{◌≡◌, not, bytes_eq, IfOk};
ghost use Rattle.tp_spec.specs.Lists.{each_pair};

use std::alloc::Global;
use std::collections::BTreeSet;
use tp_spec::{Action, NoMemory};

/// Whether no two actions have one name. The names are kept in an ordered set, so that no pairs are
/// compared.
pub fn told_apart(alloc: Global, actions: &[Action]) -> Result<bool, NoMemory>
    ensures { IfOk result (λ is. is ≡ each_pair (λ a b. not (bytes_eq a.name b.name)) actions.now) }
{
    let mut seen = BTreeSet::new(alloc);
    for action in actions {
        match seen.insert(action.name.as_str()) {
            Ok(true) => {}
            Ok(false) => return Ok(false),
            Err(_) => return Err(NoMemory),
        }
    }
    Ok(true)
}
