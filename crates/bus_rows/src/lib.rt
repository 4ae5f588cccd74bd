//! Worked rows as theorems: each is a legal run of its script, by computing, and wrong variants of it are refused by the clause that
//! should refuse them. What traces of some of them are called, by the definition of the check, and why. And plans that are not sound, each for one fact that it lacks.
//!
//! Each law in `rows.rt` is a row: a plan, a mapping, a script, a session and its text. Of each row it says that the session is a
//! whole legal run of the script (`runs`, `legal`) and has its text (`spelled`), and that the plan is sound (`sound`). At the end
//! the bus is quiet (`quiet`), and the entries part into a past of each object (`parted`). What is refused is an entry that fits,
//! after a legal beginning. The laws in `checked.rt` say what a trace of such a row is called, whatever stands behind the line
//! that is refused; those in `unsound.rt` speak of plans alone.
#![tactic(auto)]

mod checked;
mod rows;
mod unsound;

pub use checked::{mode_switch_checked, ten_ticks_checked, traces_of_nothing};
pub use rows::{
    acknowledged_mode_switch, area_is_held_until_it_is_left, asynchronous_mode_switch,
    coherent_list_is_fetched_at_one_moment, coherent_list_publishes_what_was_written,
    direct_server_runs_within_its_call, environment_asks_a_server,
    implicit_read_keeps_the_fetched_value, implicit_write_is_published_at_the_end,
    mode_switch_on_three_cores, mode_switch_that_waits, queue_of_two_loses_the_third,
    server_serves_in_the_order_of_calls, ten_ticks_write_then_read, two_machines_go_on_apart,
    two_receivers_one_full,
};
pub use unsound::{plans_that_lack_one_fact_are_not_sound, sound_plans_break_no_fact};
