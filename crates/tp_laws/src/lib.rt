//! Laws over the planner's definitions, and the definitions checked against worked examples. A
//! function here has no body: its contract is the law.
#![tactic(auto)]

mod clocks;
mod examples;
mod instants;
mod laws;
mod plans;

pub use clocks::{
    acts_of_sound_words, deadlines_of_words, earlier_clocks, extreme_schedules, one_tick_tells,
};
pub use examples::{
    busy_histories, goal_at_start, invariants_given_together, printed_texts, spelled_words,
    states_after, unsafe_plans,
};
pub use instants::{
    deadlines_of_instants, empty_word, outlooks_by_mark, starts_among_timed_items,
    starts_at_the_horizon,
};
pub use laws::{end_of_word, nothing_happens, order_of_items, states_read};
pub use plans::{
    fronts_of_plans, hopeless_words, laws_of_words, plans_are_of_words, possible_plans,
    spelled_plans, words_of_plans,
};
