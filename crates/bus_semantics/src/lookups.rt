//! What a plan says of a number.

ghost use Rattle.std.specs.Prelude.{◌≡◌};
ghost use Rattle.bus_semantics.specs.Plan.{plan_of, group_of, kind_of, server_of, machine_of_port};
ghost use Rattle.bus_semantics.specs.Lists.{elems_of, words_at};
ghost use Rattle.bus_semantics.specs.Bundles.{home_of, bundle_of, bundle_of_list};

use crate::plan::{BusPlan, EventKind};

impl BusPlan {
    /// The group of an element.
    pub fn group_of(&self, elem: u32) -> Option<u32>
        ensures { result ≡ group_of (plan_of self.now) elem }
    {
        match self.elements.items().get(elem as usize) {
            Some(element) => Some(element.group),
            None => None,
        }
    }

    /// The bundle of a group.
    pub fn home_of(&self, group: u32) -> Option<u32>
        ensures { result ≡ home_of (plan_of self.now) group }
    {
        match self.homes.items().get(group as usize) {
            Some(bundle) => Some(*bundle),
            None => None,
        }
    }

    /// The bundle of an element's group.
    pub fn bundle_of(&self, elem: u32) -> Option<u32>
        ensures { result ≡ bundle_of (plan_of self.now) elem }
    {
        match self.group_of(elem) {
            Some(group) => self.home_of(group),
            None => None,
        }
    }

    /// The elements of a coherent list, in declared order; none of one that there is not.
    pub fn elems_of(&self, list: u32) -> &[u32]
        ensures { result.now ≡ elems_of (plan_of self.now) list }
    {
        match self.lists.items().get(list as usize) {
            Some(coherent) => coherent.elems.items(),
            None => &[],
        }
    }

    /// The bundle of the elements of a coherent list, which all have one.
    pub fn bundle_of_list(&self, list: u32) -> Option<u32>
        ensures { result ≡ bundle_of_list (plan_of self.now) list }
    {
        match self.elems_of(list).get(0) {
            Some(elem) => self.bundle_of(*elem),
            None => None,
        }
    }

    /// How many words an element has; 0 for one that there is not.
    pub fn words_at(&self, elem: u32) -> u8
        ensures { result ≡ words_at (plan_of self.now) elem }
    {
        match self.elements.items().get(elem as usize) {
            Some(element) => element.words,
            None => 0,
        }
    }

    /// The kind of an event. One that there is not counts as an InitEvent.
    pub fn kind_of(&self, event: u32) -> EventKind
        ensures { result ≡ kind_of (plan_of self.now) event }
    {
        match self.events.items().get(event as usize) {
            Some(event) => event.kind,
            None => EventKind::Init,
        }
    }

    /// The server that a point is joined to.
    pub fn server_of(&self, point: u32) -> Option<u32>
        ensures { result ≡ server_of (plan_of self.now) point }
    {
        match self.points.items().get(point as usize) {
            Some(point) => point.server,
            None => None,
        }
    }

    /// The machine of a mode port.
    pub fn machine_of_port(&self, port: u32) -> Option<u32>
        ensures { result ≡ machine_of_port (plan_of self.now) port }
    {
        match self.mode_ports.items().get(port as usize) {
            Some(mode_port) => Some(mode_port.machine),
            None => None,
        }
    }
}
