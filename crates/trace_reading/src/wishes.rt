//! Wishes that fit.

ghost use Rattle.std.specs.Prelude.{◌≡◌};
ghost use Rattle.bus_semantics.specs.Common.{activation_may_want, environment_may_want, machine_may_want, wish_fits, plan_of, wanted_of};

use crate::list_owners::{list_fits, may_be_published};
use crate::owners::{
    area_fits, event_fits, is_provided, is_required, key_fits, may_be_read, may_be_received,
    may_be_sent, may_be_written, mode_port_fits, own_point, result_point, switch_fits, takes,
};
use bus_semantics::{Actor, BusPlan, Wish};
use line_fields::instance_of;
use rte_value::ActKey;

/// Whether an activation of an instance may want this.
fn activation_may_want(p: &BusPlan, key: ActKey, home: Option<u32>, wish: &Wish) -> bool
    ensures { result ≡ activation_may_want (plan_of p.now) key home (wanted_of wish.now) }
{
    match wish {
        Wish::Tick => false,
        Wish::Phase => false,
        Wish::Start { event } => event_fits(p, home, *event),
        Wish::Admit { event } => event_fits(p, home, *event),
        Wish::End { event } => event_fits(p, home, *event),
        Wish::Fetch { elem } => may_be_read(p, home, *elem),
        Wish::Read { elem } => may_be_read(p, home, *elem),
        Wish::Write { elem, value } => may_be_written(p, home, *elem, value),
        Wish::Publish { elem, value } => may_be_written(p, home, *elem, value),
        Wish::Invalidate { elem } => is_provided(p, home, *elem),
        Wish::IsUpdated { elem } => is_required(p, home, *elem),
        Wish::Send { elem, value } => may_be_sent(p, home, *elem, value),
        Wish::Receive { elem } => may_be_received(p, home, *elem),
        Wish::Ask { point, .. } => own_point(p, Some(key.runnable), *point),
        Wish::Answer { point } => own_point(p, Some(key.runnable), *point),
        Wish::TakeResult { point } => result_point(p, home, *point),
        Wish::Return { code, .. } => *code < 64,
        Wish::Enter { area } => area_fits(p, home, *area),
        Wish::Leave { area } => area_fits(p, home, *area),
        Wish::Switch { machine, mode } => switch_fits(p, home, *machine, *mode),
        Wish::Mode { port } => mode_port_fits(p, home, *port),
        Wish::FetchAll { list } => list_fits(p, key.runnable, true, *list),
        Wish::PublishAll {
            list,
            written,
            value,
        } => may_be_published(p, key.runnable, *list, *written, value),
    }
}

/// Whether the environment may want this.
fn environment_may_want(p: &BusPlan, wish: &Wish) -> bool
    ensures { result ≡ environment_may_want (plan_of p.now) (wanted_of wish.now) }
{
    match wish {
        Wish::Tick => true,
        Wish::Write { elem, value } => takes(p, None, *elem, value),
        Wish::Read { elem } => is_required(p, None, *elem),
        Wish::Send { elem, value } => may_be_sent(p, None, *elem, value),
        Wish::Receive { elem } => may_be_received(p, None, *elem),
        Wish::Ask { point, .. } => own_point(p, None, *point),
        Wish::TakeResult { point } => own_point(p, None, *point),
        Wish::Switch { machine, mode } => switch_fits(p, None, *machine, *mode),
        Wish::Mode { port } => mode_port_fits(p, None, *port),
        Wish::Start { .. }
        | Wish::Admit { .. }
        | Wish::End { .. }
        | Wish::Fetch { .. }
        | Wish::Publish { .. }
        | Wish::Invalidate { .. }
        | Wish::IsUpdated { .. }
        | Wish::Answer { .. }
        | Wish::Return { .. }
        | Wish::Enter { .. }
        | Wish::Leave { .. }
        | Wish::FetchAll { .. }
        | Wish::PublishAll { .. }
        | Wish::Phase => false,
    }
}

/// Whether a machine may want this: phases alone.
fn machine_may_want(wish: &Wish) -> bool
    ensures { result ≡ machine_may_want (wanted_of wish.now) }
{
    match wish {
        Wish::Phase => true,
        _ => false,
    }
}

/// Whether the wish fits the plan and the actor: each name is one that the actor's own instance (or an outer port) has, and of
/// the kind that the call takes (Software Component Template: RunnableEntity and its accesses).
pub fn wish_fits(p: &BusPlan, who: Actor, wish: &Wish) -> bool
    ensures { result ≡ wish_fits (plan_of p.now) who (wanted_of wish.now) }
{
    match who {
        Actor::Env => environment_may_want(p, wish),
        Actor::Machine(machine) => {
            (machine as usize) < p.machines.len() && machine_may_want(wish)
        }
        Actor::Act(key) => {
            key_fits(p, key) && activation_may_want(p, key, instance_of(p, key.runnable), wish)
        }
    }
}
