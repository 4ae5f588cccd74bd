//! What a plan calls things. A number out of range has an empty name.

ghost use Rattle.std.specs.Prelude.{◌≡◌, codes};
ghost use Rattle.bus_semantics.specs.declared.version.Version.TheVariants.{Two};
ghost use Rattle.bus_semantics.specs.Common.{look, plan_of, Letters, area_name, elem_name, event_name, instance_text, machine_name, mode_port_name, mode_text, point_name};

use bus_semantics::BusPlan;
use rte_text::Text;

/// The path of the instance, and `env` for the environment.
pub fn instance_name(p: &BusPlan, instance: Option<u32>) -> &[u8]
    ensures { result.now ≡ instance_text (plan_of p.now) instance }
{
    match instance {
        None => b"env",
        Some(number) => match p.names.items().get(number as usize) {
            Some(name) => name.bytes(),
            None => b"",
        },
    }
}

/// The name of the element: `PORT.ELEMENT`, and of a variable its name alone.
pub fn elem_name(p: &BusPlan, elem: u32) -> &[u8]
    ensures { result.now ≡ elem_name (plan_of p.now) elem }
{
    match p.elements.items().get(elem as usize) {
        Some(element) => element.name.bytes(),
        None => b"",
    }
}

/// The name of what the point calls: `PORT.OPERATION`.
pub fn point_name(p: &BusPlan, point: u32) -> &[u8]
    ensures { result.now ≡ point_name (plan_of p.now) point }
{
    match p.points.items().get(point as usize) {
        Some(point) => point.name.bytes(),
        None => b"",
    }
}

/// The name of the exclusive area.
pub fn area_name(p: &BusPlan, area: u32) -> &[u8]
    ensures { result.now ≡ area_name (plan_of p.now) area }
{
    match p.areas.items().get(area as usize) {
        Some(area) => area.name.bytes(),
        None => b"",
    }
}

/// The name of the provided mode element: `PORT.ELEMENT`.
pub fn machine_name(p: &BusPlan, machine: u32) -> &[u8]
    ensures { result.now ≡ machine_name (plan_of p.now) machine }
{
    match p.machines.items().get(machine as usize) {
        Some(machine) => machine.name.bytes(),
        None => b"",
    }
}

/// The name of the required mode element: `PORT.ELEMENT`.
pub fn mode_port_name(p: &BusPlan, port: u32) -> &[u8]
    ensures { result.now ≡ mode_port_name (plan_of p.now) port }
{
    match p.mode_ports.items().get(port as usize) {
        Some(port) => port.name.bytes(),
        None => b"",
    }
}

/// The name of the event.
pub fn event_name(p: &BusPlan, event: u32) -> &[u8]
    ensures { result.now ≡ event_name (plan_of p.now) event }
{
    match p.events.items().get(event as usize) {
        Some(event) => event.name.bytes(),
        None => b"",
    }
}

/// The name of one of these modes, and a dash for any other number.
fn name_among(modes: &[Text], mode: u32) -> &[u8]
    ensures { result.now ≡ look modes.now mode (λ (t : Letters). t) (codes "-") }
{
    match modes.get(mode as usize) {
        Some(name) => name.bytes(),
        None => b"-",
    }
}

/// The name of a mode of the machine. The transition value has none: it is a dash, as is every number that is no mode of a
/// machine.
pub fn mode_name(p: &BusPlan, machine: Option<u32>, mode: u32) -> &[u8]
    ensures { result.now ≡ mode_text Two (plan_of p.now) machine mode }
{
    match machine {
        None => b"-",
        Some(number) => match p.machines.items().get(number as usize) {
            Some(machine) => name_among(machine.modes.items(), mode),
            None => b"-",
        },
    }
}
