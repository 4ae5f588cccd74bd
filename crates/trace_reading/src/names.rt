//! What a name finds.

ghost use Rattle.std.specs.Prelude.{◌≡◌, Some, position};
ghost use Rattle.std.specs.Option.{ForSome};
ghost use Rattle.bus_semantics.specs.Plan.{plan_of};
ghost use Rattle.trace_reading.specs.Finding.{area_at, elem_at, event_at, instance_at, is_result, machine_at, mode_named, mode_place, mode_port_at, point_at, result_at, runnable_at};

use crate::fields::numbered;
use crate::looking::home_of_caller;
use crate::tables::Tables;
use bus_semantics::{BusPlan, MachinePlan, PointPlan};
use line_fields::same_number;

/// A plan in which names are found: in tables, or by walks.
#[derive(Clone, Copy)]
pub struct Names<'n> {
    pub plan: &'n BusPlan,
    pub tables: Option<&'n Tables<'n>>,
    ghost same_plan: { ForSome tables (λ t. t.now.plan.now ≡ plan.now) },
}

fn is_result(p: &BusPlan, home: Option<u32>, name: &[u8], point: &PointPlan) -> bool
    ensures { result ≡ is_result (plan_of p.now) home name.now point.now }
{
    point.asynchronous
        && same_number(home_of_caller(p, point.runnable), home)
        && point.name.bytes() == name
}

/// The place of the point of this name at which a runnable of the home calls without waiting.
fn place_of_result(p: &BusPlan, home: Option<u32>, name: &[u8]) -> Option<usize>
    ensures { result ≡ position (is_result (plan_of p.now) home name.now) (plan_of p.now).points }
{
    p.points
        .items()
        .iter()
        .position(|point| is_result(p, home, name, point))
}

/// The place of a mode of this name. A dash is the transition value.
fn mode_place(machine: &MachinePlan, name: &[u8]) -> Option<usize>
    ensures { result ≡ mode_place machine.now name.now }
{
    if name == b"-".as_slice() {
        Some(machine.modes.len())
    } else {
        line_fields::mode_named(machine, name)
    }
}

impl Names<'_> {
    /// The instance of this path.
    pub fn instance(&self, path: &[u8]) -> Option<u32>
        ensures { result ≡ instance_at (plan_of self.now.plan.now) path.now }
    {
        match self.tables {
            Some(tables) => numbered(tables.instance(path)),
            None => numbered(line_fields::instance_named(self.plan, path)),
        }
    }

    /// The place of the instance's runnable of this name.
    pub fn runnable(&self, instance: u32, name: &[u8]) -> Option<usize>
        ensures { result ≡ runnable_at (plan_of self.now.plan.now) (Some instance) name.now }
    {
        match self.tables {
            Some(tables) => tables.runnable(Some(instance), name),
            None => line_fields::runnable_named(self.plan, Some(instance), name),
        }
    }

    /// The home's element of this name.
    pub fn elem(&self, home: Option<u32>, name: &[u8]) -> Option<u32>
        ensures { result ≡ elem_at (plan_of self.now.plan.now) home name.now }
    {
        match self.tables {
            Some(tables) => numbered(tables.elem(home, name)),
            None => numbered(line_fields::elem_named(self.plan, home, name)),
        }
    }

    /// The home's exclusive area of this name.
    pub fn area(&self, home: Option<u32>, name: &[u8]) -> Option<u32>
        ensures { result ≡ area_at (plan_of self.now.plan.now) home name.now }
    {
        match self.tables {
            Some(tables) => numbered(tables.area(home, name)),
            None => numbered(line_fields::area_named(self.plan, home, name)),
        }
    }

    /// The home's machine of this name.
    pub fn machine(&self, home: Option<u32>, name: &[u8]) -> Option<u32>
        ensures { result ≡ machine_at (plan_of self.now.plan.now) home name.now }
    {
        match self.tables {
            Some(tables) => numbered(tables.machine(home, name)),
            None => numbered(line_fields::machine_named(self.plan, home, name)),
        }
    }

    /// The home's mode port of this name.
    pub fn mode_port(&self, home: Option<u32>, name: &[u8]) -> Option<u32>
        ensures { result ≡ mode_port_at (plan_of self.now.plan.now) home name.now }
    {
        match self.tables {
            Some(tables) => numbered(tables.mode_port(home, name)),
            None => numbered(line_fields::mode_port_named(self.plan, home, name)),
        }
    }

    /// The event of this name that starts a runnable of the home.
    pub fn event(&self, home: Option<u32>, name: &[u8]) -> Option<u32>
        ensures { result ≡ event_at (plan_of self.now.plan.now) home name.now }
    {
        match self.tables {
            Some(tables) => numbered(tables.event(home, name)),
            None => numbered(line_fields::event_named(self.plan, home, name)),
        }
    }

    /// The point of this name at which the runnable of this place calls, or for None the environment.
    pub fn point(&self, caller: Option<usize>, name: &[u8]) -> Option<u32>
        ensures { result ≡ point_at (plan_of self.now.plan.now) caller name.now }
    {
        match self.tables {
            Some(tables) => numbered(tables.point(caller, name)),
            None => numbered(line_fields::point_named(self.plan, caller, name)),
        }
    }

    /// The point of this name at which a runnable of the home calls without waiting.
    pub fn result(&self, home: Option<u32>, name: &[u8]) -> Option<u32>
        ensures { result ≡ result_at (plan_of self.now.plan.now) home name.now }
    {
        match self.tables {
            Some(tables) => numbered(tables.result(home, name)),
            None => numbered(place_of_result(self.plan, home, name)),
        }
    }

    /// The machine's mode of this name. A dash is the transition value.
    pub fn mode(&self, machine: u32, name: &[u8]) -> Option<u32>
        ensures { result ≡ mode_named (plan_of self.now.plan.now) machine name.now }
    {
        match self.plan.machines.items().get(machine as usize) {
            Some(machine) => numbered(mode_place(machine, name)),
            None => None,
        }
    }
}
