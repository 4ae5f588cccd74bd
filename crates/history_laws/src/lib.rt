//! What every legal history of a sound plan keeps, and what each of its activations asks.
//!
//! They speak of each runnable of the plan and each of its events. 'Followed' answers are those of which each one answers what was
//! asked before it; a claim that does not name them holds of any answers.
#![tactic(auto)]

mod areas;
mod calls;
mod coming;
mod laws;
mod modes;
mod parts;
mod running;
mod servers;

pub use areas::held_areas_have_a_holder;
pub use calls::calls_come;
pub use coming::{one_entry_of_a_wish, unjoined_points_return_nothing};
pub use laws::{
    activations_ask_what_fits, activations_go_on, admission_comes_first, areas_open_and_close,
    direct_activations_make_no_calls, hearing_follows_an_accepted_ask, one_return_before_the_end,
    what_touches_nothing,
};
pub use modes::none_disabled_runs;
pub use parts::{legal_histories_part_into_objects, what_comes_may_follow, wishes_match};
pub use running::running_activations_go_on;
pub use servers::{direct_callers_wait, hearers_have_asked, requests_have_servers};
