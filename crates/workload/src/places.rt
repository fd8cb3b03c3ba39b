ghost use Rattle.std.specs.Prelude.{◌≡◌, ◌∷◌, [], ◌++◌, OnOk, IfOk};
ghost use Rattle.workload.specs.Places.{customers, places, legs_from, legs_between, legs, place_name};

use line_text::{push_bytes, push_number};
use std::alloc::Global;
use tp_spec::NoMemory;

/// The way from a place to another one. Place 0 is the depot, and i is the customer ci.
#[derive(Clone, Copy, Debug, PartialEq, Eq)]
pub struct Leg {
    pub from: u32,
    pub to: u32,
}

/// Puts a place behind others.
fn push_place(places: &mut Vec<u32>, place: u32) -> Result<(), NoMemory>
    ensures { OnOk result (places.new.items ≡ places.old.items ++ place ∷ []) }
{
    match places.push(place) {
        Ok(()) => Ok(()),
        Err(_) => Err(NoMemory),
    }
}

/// Puts the customers 1 to `count` behind other places.
fn push_customers(places: &mut Vec<u32>, count: u32) -> Result<(), NoMemory>
    ensures { OnOk result (places.new.items ≡ places.old.items ++ customers count) }
{
    for before in 0..count {
        push_place(places, before + 1)?;
    }
    Ok(())
}

/// The customers 1 to `count`.
pub fn customers_of(alloc: Global, count: u32) -> Result<Vec<u32>, NoMemory>
    ensures { IfOk result (λ v. v.items ≡ customers count) }
{
    let mut all = Vec::new(alloc);
    push_customers(&mut all, count)?;
    Ok(all)
}

/// The depot and the customers 1 to `count`.
pub fn places_of(alloc: Global, count: u32) -> Result<Vec<u32>, NoMemory>
    ensures { IfOk result (λ v. v.items ≡ places count) }
{
    let mut all = Vec::new(alloc);
    push_place(&mut all, 0)?;
    push_customers(&mut all, count)?;
    Ok(all)
}

/// Puts a leg behind others.
fn push_leg(legs: &mut Vec<Leg>, leg: Leg) -> Result<(), NoMemory>
    ensures { OnOk result (legs.new.items ≡ legs.old.items ++ leg ∷ []) }
{
    match legs.push(leg) {
        Ok(()) => Ok(()),
        Err(_) => Err(NoMemory),
    }
}

/// Puts the legs from a place to each other one behind others.
fn push_legs_from(legs: &mut Vec<Leg>, from: u32, places: &[u32]) -> Result<(), NoMemory>
    ensures { OnOk result (legs.new.items ≡ legs.old.items ++ legs_from from places.now) }
{
    for to in places {
        if *to != from {
            push_leg(legs, Leg { from, to: *to })?;
        }
    }
    Ok(())
}

/// Each ordered pair of different places, the first place leading.
pub fn legs_of(alloc: Global, places: &[u32]) -> Result<Vec<Leg>, NoMemory>
    ensures { IfOk result (λ v. v.items ≡ legs places.now) }
{
    let mut legs = Vec::new(alloc);
    for from in places {
        push_legs_from(&mut legs, *from, places)?;
    }
    Ok(legs)
}

/// Puts the name of a place behind a text.
pub fn push_place_name(text: &mut Vec<u8>, place: u32) -> Result<(), NoMemory>
    ensures { OnOk result (text.new.items ≡ text.old.items ++ place_name place) }
{
    if place == 0 {
        return push_bytes(text, b"depot");
    }
    push_bytes(text, b"c")?;
    push_number(text, u64::from(place))
}
