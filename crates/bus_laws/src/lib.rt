//! Laws about the definitions of the bus.
#![tactic(auto)]

mod laws;
mod object_laws;

pub use laws::{
    accepted_programs_are_sound, accepted_values_found_room, answers_are_returns,
    cost_bounds_the_calls, done_after_the_last_phase, due_follows_the_last_start,
    legal_is_computed, no_chain_of_waits_returns, timing_is_due_after_a_tick, what_is_stuck,
};
pub use object_laws::answers_look_at_one_object;
