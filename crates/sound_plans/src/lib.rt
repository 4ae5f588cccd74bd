//! The plan of a description that breaks no rule is sound: each law says a field of `IsSound` (`bus_semantics`), or a part of one, from
//! `IsWhole` (`plan_definitions`). What elements of one group have to do with joins (`groups_are_what_joins_connect`) is the one law
//! besides.
#![tactic(auto)]

mod behavior;
mod bundles;
mod elements;
mod names;
mod sizes;

pub use behavior::{
    direct_servers_fit, events_fit, lists_of_plans_are_sound, points_are_named_once,
    points_fit_their_servers, points_stand_by_caller, runnables_fit, servers_serve, tasks_fit,
    waits_are_ordered,
};
pub use bundles::bundles_of_plans_fit;
pub use elements::{
    elements_of_plans_are_sound, groups_are_what_joins_connect, groups_of_plans_fit,
    joined_elements_of_plans_agree,
};
pub use names::{
    mode_ports_have_machines, names_of_plans_fit, plans_are_arranged, plans_name_their_instances,
    ports_stand_together, things_of_plans_are_named_once,
};
pub use sizes::{
    machines_of_plans_are_sound, objects_of_plans_are_counted, points_of_plans_are_few,
    queues_of_plans_are_bounded,
};
