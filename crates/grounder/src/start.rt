ghost use Rattle.std.specs.Prelude.{◌≡◌, map, length};
ghost use Rattle.std.specs.List.{range_with_len};
ghost use Rattle.std.specs.BTreeSet.{contains_text};
ghost use Rattle.std.specs.BTreeMap.{get_by_text};
ghost use Rattle.std.proofs.Props.{props};
ghost use Rattle.grounder.specs.Sources.{source_of};
ghost use Rattle.grounder.specs.Starts.{Tells, Gives};
ghost use Rattle.grounder.specs.Objects.{objects_by_type};
ghost use Rattle.grounder.specs.Rigid.{is_static_predicate, is_static_function};

use crate::sources::Source;
use std::collections::{BTreeMap, BTreeSet};
use tp_spec::List;

/// A source, and tables made of it once: the objects of each type, which predicates and functions
/// are static, the names of the atoms that are true at the start, and the values there by the
/// names of function terms.
#[derive(Drop)]
pub struct Start<'a> {
    pub source: Source<'a>,
    pub objects: List<List<u32>>,
    pub predicates: List<bool>,
    pub functions: List<bool>,
    pub truths: BTreeSet<String>,
    pub values: BTreeMap<String, i64>,
    ghost of_types: { objects ≡ objects_by_type (source_of source) },
    ghost static_predicates: { predicates ≡ map (is_static_predicate (source_of source))
        (range_with_len 0 (length source.domain.now.predicates)) },
    ghost static_functions: { functions ≡ map (is_static_function (source_of source))
        (range_with_len 0 (length source.domain.now.functions)) },
    ghost true_ones: { Tells (source_of source) (contains_text truths) } by { Prim.hlevel props },
    ghost given_ones: { Gives (source_of source) (get_by_text values) } by { Prim.hlevel props },
}
