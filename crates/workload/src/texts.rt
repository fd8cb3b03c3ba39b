ghost use Rattle.std.specs.Prelude.{◌≡◌, ◌≤◌, ◌++◌, OnOk, IfOk, length};
ghost use Rattle.workload.specs.Draws.{state_after, next_state};
ghost use Rattle.workload.specs.Texts.{names_text, objects_text, distance_text, distances_text, open_text, opens_text, line_end, deadline_text, deadlines_text, goal_text, goals_text, customers_drawn, lines_text, problem_text, made_texts};

use crate::domain::domain_text;
use crate::draws::Draws;
use crate::places::{Leg, customers_of, legs_of, places_of, push_place_name};
use line_text::{push_bytes, push_number};
use std::alloc::Global;
use tp_spec::NoMemory;

/// Puts the names of customers, each behind a space.
fn push_names(text: &mut Vec<u8>, customers: &[u32]) -> Result<(), NoMemory>
    ensures { OnOk result (text.new.items ≡ text.old.items ++ names_text customers.now) }
{
    for customer in customers {
        push_bytes(text, b" ")?;
        push_place_name(text, *customer)?;
    }
    Ok(())
}

/// Puts the line of the objects.
fn push_objects(text: &mut Vec<u8>, customers: &[u32]) -> Result<(), NoMemory>
    ensures { OnOk result (text.new.items ≡ text.old.items ++ objects_text customers.now) }
{
    push_bytes(text, b" (:objects v1 v2 - vehicle")?;
    push_names(text, customers)?;
    push_bytes(text, b" - customer)\n")
}

/// Puts the line of a leg's distance.
fn push_distance(text: &mut Vec<u8>, leg: Leg, distance: u32) -> Result<(), NoMemory>
    ensures { OnOk result (text.new.items ≡ text.old.items ++ distance_text leg distance) }
{
    push_bytes(text, b"  (= (dist ")?;
    push_place_name(text, leg.from)?;
    push_bytes(text, b" ")?;
    push_place_name(text, leg.to)?;
    push_bytes(text, b") ")?;
    push_number(text, u64::from(distance))?;
    push_bytes(text, b".000)\n")
}

/// Puts a line for each leg, and draws its distance.
fn push_distances(text: &mut Vec<u8>, legs: &[Leg], draws: &mut Draws) -> Result<(), NoMemory>
    ensures text { OnOk result (text.new.items
        ≡ text.old.items ++ distances_text legs.now draws.old.state) }
    ensures state { OnOk result (draws.new.state ≡ state_after legs.now draws.old.state) }
{
    for leg in legs {
        let distance = 3 + draws.below(7);
        push_distance(text, *leg, distance)?;
    }
    Ok(())
}

/// Puts the line that a customer is open.
fn push_open(text: &mut Vec<u8>, customer: u32) -> Result<(), NoMemory>
    ensures { OnOk result (text.new.items ≡ text.old.items ++ open_text customer) }
{
    push_bytes(text, b"  (open ")?;
    push_place_name(text, customer)?;
    push_bytes(text, b")\n")
}

/// Puts the lines that customers are open.
fn push_opens(text: &mut Vec<u8>, customers: &[u32]) -> Result<(), NoMemory>
    ensures { OnOk result (text.new.items ≡ text.old.items ++ opens_text customers.now) }
{
    for customer in customers {
        push_open(text, *customer)?;
    }
    Ok(())
}

/// Ends a line, behind closing parentheses where no line of its list comes after it.
fn push_line_end(text: &mut Vec<u8>, rest: &[u32], closing: &[u8]) -> Result<(), NoMemory>
    ensures { OnOk result (text.new.items ≡ text.old.items ++ line_end rest.now closing.now) }
{
    if rest.is_empty() {
        push_bytes(text, closing)?;
    }
    push_bytes(text, b"\n")
}

/// Puts the line of a customer's deadline, without its end.
fn push_deadline(text: &mut Vec<u8>, customer: u32, deadline: u64) -> Result<(), NoMemory>
    ensures { OnOk result (text.new.items ≡ text.old.items ++ deadline_text customer deadline) }
{
    push_bytes(text, b"  (at ")?;
    push_number(text, deadline)?;
    push_bytes(text, b".000 (not (open ")?;
    push_place_name(text, customer)?;
    push_bytes(text, b")))")
}

/// Puts a line for each customer, and draws its deadline.
fn push_deadlines(text: &mut Vec<u8>, customers: &[u32], draws: &mut Draws) -> Result<(), NoMemory>
    ensures { OnOk result (text.new.items
        ≡ text.old.items ++ deadlines_text customers.now draws.old.state) }
{
    let mut rest = customers;
    'customers: loop {
        match rest {
            [customer, tail @ ..] => {
                let drawn = u64::from(draws.below(20));
                let deadline = 100 + 40 * u64::from(*customer) + drawn;
                push_deadline(text, *customer, deadline)?;
                push_line_end(text, tail, b")")?;
                rest = tail;
            }
            [] => return Ok(()),
        }
    }
}

/// Puts the line that a customer is to be served, without its end.
fn push_goal(text: &mut Vec<u8>, customer: u32) -> Result<(), NoMemory>
    ensures { OnOk result (text.new.items ≡ text.old.items ++ goal_text customer) }
{
    push_bytes(text, b"  (served ")?;
    push_place_name(text, customer)?;
    push_bytes(text, b")")
}

/// Puts the lines that customers are to be served.
fn push_goals(text: &mut Vec<u8>, customers: &[u32]) -> Result<(), NoMemory>
    ensures { OnOk result (text.new.items ≡ text.old.items ++ goals_text customers.now) }
{
    let mut rest = customers;
    'customers: loop {
        match rest {
            [customer, tail @ ..] => {
                push_goal(text, *customer)?;
                push_line_end(text, tail, b"))")?;
                rest = tail;
            }
            [] => return Ok(()),
        }
    }
}

/// The text of a problem with these customers and legs.
fn lines_text(
    alloc: Global,
    customers: &[u32],
    legs: &[Leg],
    draws: &mut Draws,
) -> Result<Vec<u8>, NoMemory>
    ensures { IfOk result (λ t. t.items ≡ lines_text customers.now legs.now draws.old.state) }
{
    let mut text = Vec::new(alloc);
    push_bytes(
        &mut text,
        b"(define (problem Courier-1)\n (:domain COURIER)\n",
    )?;
    push_objects(&mut text, customers)?;
    push_bytes(&mut text, b" (:init\n  (at v1 depot) (at v2 depot)\n")?;
    push_distances(&mut text, legs, draws)?;
    push_opens(&mut text, customers)?;
    push_deadlines(&mut text, customers, draws)?;
    push_bytes(&mut text, b" (:goal (and\n")?;
    push_goals(&mut text, customers)?;
    push_bytes(&mut text, b" (:metric minimize (total-time)))\n")?;
    Ok(text)
}

/// The text of the problem that a seed draws.
fn problem_text(alloc: Global, seed: u64) -> Result<Vec<u8>, NoMemory>
    ensures { IfOk result (λ t. t.items ≡ problem_text seed) }
{
    let mut draws = Draws { state: seed };
    let count = 4 + draws.below(3);
    let customers = customers_of(alloc, count)?;
    let places = places_of(alloc, count)?;
    let legs = legs_of(alloc, &places)?;
    lines_text(alloc, &customers, &legs, &mut draws)
}

/// The texts of a domain and of a problem in it, drawn from a seed: two couriers at a depot, 4 to
/// 6 customers, distances of 3 to 9 units of time, and a deadline for each customer, from which on
/// it can't be served: for the i-th, 100 + 40 i to 119 + 40 i. The domain is the same at each seed.
/// Only want of memory is refused.
pub fn make(alloc: Global, seed: u64) -> Result<(Vec<u8>, Vec<u8>), NoMemory>
    ensures texts { IfOk result (λ t. (t.0.items, t.1.items) ≡ made_texts seed) }
    ensures short { IfOk result (λ t. (length t.0.items ≤ 2048) × (length t.1.items ≤ 2048)) }
{
    let domain = domain_text(alloc)?;
    let problem = problem_text(alloc, seed)?;
    Ok((domain, problem))
}
