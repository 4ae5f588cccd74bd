//! What stands in a line: its parts, the names, numbers and values that these are, and what a name names in a plan, each found over a walk. It
//! takes no memory.
#![tactic(auto)]

mod cuts;
mod finding;
mod laws;
mod names;
mod numbers;
mod values;

pub use cuts::{cut, split_line};
pub use finding::{
    area_named, elem_named, event_named, instance_named, instance_of, machine_named, mode_named,
    mode_port_named, point_named, runnable_named, same_number,
};
pub use laws::names_find_what_they_name;
pub use names::{is_name, is_pair_name};
pub use numbers::{is_number, number_in};
pub use values::{is_value, value_in};
