//! The law of no stall.

ghost use Rattle.bus_semantics.specs.declared.script.Mapping.{Mapping};
ghost use Rattle.bus_semantics.specs.Common.{Plan, History, IsLegal, IsAtRest, IsQuiet, IsSound};

use history_laws::{
    activations_ask_what_fits, admission_comes_first, areas_open_and_close,
    direct_activations_make_no_calls, hearing_follows_an_accepted_ask, held_areas_have_a_holder,
    requests_have_servers, running_activations_go_on,
};

/// A legal history of a sound plan that is at rest is quiet: no activation runs, no event is due, and each machine is
/// stable and has begun every accepted switch.
pub fn no_history_stalls()
    ensures quiet { (p : Plan) (m : Mapping) (h : History) → IsSound p m → IsLegal p h → IsAtRest p m h → IsQuiet p h }
{
    // what an activation asks
    activations_ask_what_fits();
    admission_comes_first();
    hearing_follows_an_accepted_ask();
    direct_activations_make_no_calls();
    areas_open_and_close();
    // what a legal history keeps
    running_activations_go_on();
    held_areas_have_a_holder();
    requests_have_servers();
}
