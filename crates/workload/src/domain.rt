ghost use Rattle.std.specs.Prelude.{◌≡◌, IfOk};
ghost use Rattle.workload.specs.Domain.{domain_text};

use std::alloc::Global;
use tp_spec::NoMemory;

/// The text of the domain.
pub fn domain_text(alloc: Global) -> Result<Vec<u8>, NoMemory>
    ensures { IfOk result (λ t. t.items ≡ domain_text) }
{
    let lines: &[u8] = b"(define (domain Courier)\n \
        (:requirements :typing :durative-actions :numeric-fluents :timed-initial-literals)\n \
        (:types vehicle place - object customer - place)\n \
        (:constants Depot - place)\n \
        (:predicates (at ?v - vehicle ?p - place) (open ?c - customer) (served ?c - customer))\n \
        (:functions (dist ?a ?b - place) - number)\n \
        (:durative-action drive\n  \
        :parameters (?v - vehicle ?a ?b - place)\n  \
        :duration (= ?duration (dist ?a ?b))\n  \
        :condition (at start (at ?v ?a))\n  \
        :effect (and (at start (not (at ?v ?a))) (at end (at ?v ?b))))\n \
        (:durative-action serve\n  \
        :parameters (?v - vehicle ?c - customer)\n  \
        :duration (= ?duration 3.000)\n  \
        :condition (and (at start (at ?v ?c)) (over all (at ?v ?c)) (over all (open ?c)))\n  \
        :effect (at end (served ?c))))\n";
    let text = Vec::from_slice(alloc, lines)?;
    Ok(text)
}
