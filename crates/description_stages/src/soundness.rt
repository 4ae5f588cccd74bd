//! The law of sound plans.

ghost use Rattle.plan_definitions.specs.Common.{Description, Flat, IsWhole};
ghost use Rattle.bus_semantics.specs.declared.plan.BusPlan.{BusPlan};
ghost use Rattle.bus_semantics.specs.declared.script.Mapping.{Mapping};
ghost use Rattle.bus_semantics.specs.Common.{plan_of, IsSound};

use sound_plans::{
    bundles_of_plans_fit, direct_servers_fit, elements_of_plans_are_sound, events_fit,
    groups_of_plans_fit, joined_elements_of_plans_agree, lists_of_plans_are_sound,
    machines_of_plans_are_sound, mode_ports_have_machines, names_of_plans_fit,
    objects_of_plans_are_counted, plans_are_arranged, plans_name_their_instances,
    points_are_named_once, points_fit_their_servers, points_of_plans_are_few,
    points_stand_by_caller, ports_stand_together, queues_of_plans_are_bounded, runnables_fit,
    servers_serve, tasks_fit, things_of_plans_are_named_once, waits_are_ordered,
};

/// The plan of a description that breaks none of the rules is sound with its mapping.
pub fn plans_are_sound()
    ensures { (d : Description) (f : Flat) (p : BusPlan) (m : Mapping) → IsWhole d f p m → IsSound (plan_of p) m }
{
    names_of_plans_fit();
    things_of_plans_are_named_once();
    points_are_named_once();
    ports_stand_together();
    plans_are_arranged();
    plans_name_their_instances();
    groups_of_plans_fit();
    objects_of_plans_are_counted();
    elements_of_plans_are_sound();
    joined_elements_of_plans_agree();
    machines_of_plans_are_sound();
    mode_ports_have_machines();
    points_stand_by_caller();
    points_fit_their_servers();
    runnables_fit();
    events_fit();
    servers_serve();
    direct_servers_fit();
    queues_of_plans_are_bounded();
    points_of_plans_are_few();
    lists_of_plans_are_sound();
    bundles_of_plans_fit();
    tasks_fit();
    waits_are_ordered();
}
