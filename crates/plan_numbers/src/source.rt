//! A description with its flat form, and what is found in them for its plan.

ghost use Rattle.std.specs.Prelude.{◌≡◌, ◌<◌, ◌^◌, Some, IfOk, length, option_copied};
ghost use Rattle.std.specs.List.{position_from};
ghost use Rattle.plan_definitions.specs.Common.{end_at, provider_of, keys_of, number_in, pair_number, same_key, areas_of, events_of, runnables_of, HasFewThings, com_spec_of};
ghost use Rattle.plan_definitions.specs.Common.{queue_length_of, elements_of, machine_for, machine_number, mode_port_number, server_number};
ghost use Rattle.plan_numbers.specs.ComSpecs.{AreTables};
ghost use Rattle.plan_numbers.specs.Listed.{AreLists, AreNumbers, ArePairs};
ghost use Rattle.plan_numbers.specs.Starts.{AreStarts};

use crate::com_specs::{PortTables, com_spec_of, port_tables};
use crate::joined::Joined;
use crate::lists::{AllNumbers, Lists, all_numbers, lists_of};
use crate::starts::{Starts, element_number, element_place, starts_of};
use description_types::{ComSpec, Description, End, Flat};
use rte_text::Memory;
use std::alloc::Global;

/// What is found by place: where the elements of ports start, and what ports say.
#[derive(Drop)]
struct Places {
    starts: Starts,
    tables: PortTables,
}

/// What is found of sites, ports and parts.
#[derive(Drop)]
struct Found {
    places: Places,
    numbers: AllNumbers,
}

/// A description with its flat form, and tables of both.
#[derive(Drop)]
pub struct Source<'a> {
    pub d: &'a Description,
    pub f: &'a Flat,
    /// All that is numbered at ports, and the variables.
    pub lists: Lists,
    joined: Joined<'a>,
    found: Found,
    pub ghost listed: { AreLists d.now f.now lists },
    ghost tabled: { AreTables d.now found.places.tables },
    ghost linked: { joined ≡ f.now.joins },
    ghost started: { AreStarts d.now f.now found.places.starts },
    ghost numbered: { AreNumbers lists found.numbers.sites },
    ghost paired: { ArePairs d.now f.now found.numbers.pairs },
    pub ghost few: { HasFewThings d.now f.now },
}

fn places_of(alloc: Global, d: &Description, f: &Flat, count: usize) -> Result<Places, Memory>
    requires count { count ≡ length (elements_of d.now f.now) }
    requires few { count < 2 ^ 32 }
    ensures starts { IfOk result (λ places. AreStarts d.now f.now places.starts) }
    ensures tables { IfOk result (λ places. AreTables d.now places.tables) }
{
    let starts = starts_of(alloc, d, f, count)?;
    match port_tables(alloc, d, f) {
        Ok(tables) => Ok(Places { starts, tables }),
        Err(memory) => {
            drop(starts);
            Err(memory)
        }
    }
}

fn found_of(alloc: Global, d: &Description, f: &Flat, lists: &Lists) -> Result<Found, Memory>
    requires listed { AreLists d.now f.now lists.now }
    requires few { HasFewThings d.now f.now }
    ensures starts { IfOk result (λ found. AreStarts d.now f.now found.places.starts) }
    ensures tables { IfOk result (λ found. AreTables d.now found.places.tables) }
    ensures sites { IfOk result (λ found. AreNumbers lists.now found.numbers.sites) }
    ensures pairs { IfOk result (λ found. ArePairs d.now f.now found.numbers.pairs) }
{
    let places = places_of(alloc, d, f, lists.elements.len())?;
    match all_numbers(alloc, d, f, lists) {
        Ok(numbers) => Ok(Found { places, numbers }),
        Err(memory) => {
            drop(places);
            Err(memory)
        }
    }
}

impl Source<'_> {
    /// The source of a description and its flat form. 32 bits number what is in them.
    pub fn new<'a>(alloc: Global, d: &'a Description, f: &'a Flat) -> Result<Source<'a>, Memory>
        requires { HasFewThings d.now f.now }
        ensures { IfOk result (λ source. (source.d.now ≡ d.now) × (source.f.now ≡ f.now)) }
    {
        let joined = Joined::of(alloc, d, f)?;
        match lists_of(alloc, d, f, &joined) {
            Ok(lists) => Source::with_lists(alloc, d, f, joined, lists),
            Err(memory) => {
                drop(joined);
                Err(memory)
            }
        }
    }

    /// The source of a description whose joins and lists are found.
    fn with_lists<'a>(
        alloc: Global,
        d: &'a Description,
        f: &'a Flat,
        joined: Joined<'a>,
        lists: Lists,
    ) -> Result<Source<'a>, Memory>
        requires linked { joined ≡ f.now.joins }
        requires listed { AreLists d.now f.now lists }
        requires few { HasFewThings d.now f.now }
        ensures { IfOk result (λ source. (source.d.now ≡ d.now) × (source.f.now ≡ f.now)) }
    {
        match found_of(alloc, d, f, &lists) {
            Ok(found) => Ok(Source {
                d,
                f,
                lists,
                joined,
                found,
            }),
            Err(memory) => {
                drop(joined);
                drop(lists);
                Err(memory)
            }
        }
    }

    /// What a port says of an item.
    pub fn com_spec_of(&self, owner: Option<u32>, port: u32, item: u32) -> Option<&ComSpec>
        ensures { option_copied result ≡ com_spec_of self.now.d.now self.now.f.now owner port item }
    {
        com_spec_of(self.d, self.f, &self.found.places.tables, owner, port, item)
    }

    /// How many wait at most at an item: 1 if its port does not say.
    pub fn queue_length_of(&self, owner: Option<u32>, port: u32, item: u32) -> u32
        ensures { result ≡ queue_length_of self.now.d.now self.now.f.now owner port item }
    {
        match self.com_spec_of(owner, port, item) {
            Some(found) => found.queue_length,
            None => 1,
        }
    }

    /// The provided end that is joined with a required one.
    pub fn provider_of(&self, owner: Option<u32>, port: u32, item: u32) -> Option<End>
        ensures { result ≡ provider_of self.now.f.now.joins (end_at owner port item) }
    {
        self.joined.provider_of(End {
            instance: owner,
            port,
            element: item,
        })
    }

    /// The number of an element of an owner, or of a variable, which has no port.
    pub fn element_number(&self, owner: Option<u32>, port: Option<u32>, item: u32) -> u32
        ensures { result ≡ number_in (keys_of (elements_of self.now.d.now self.now.f.now)) (owner, port, item) }
    {
        element_number(
            self.d,
            self.f,
            &self.found.places.starts,
            (owner, port, item),
        )
    }

    /// Where an element of an owner, or a variable, stands among them.
    pub fn element_place(&self, owner: Option<u32>, port: Option<u32>, item: u32) -> Option<usize>
        ensures { result ≡ position_from (same_key (owner, port, item)) 0 (keys_of (elements_of self.now.d.now self.now.f.now)) }
    {
        element_place(
            self.d,
            self.f,
            &self.found.places.starts,
            (owner, port, item),
        )
    }

    /// The number of a server of an instance.
    pub fn server_number(&self, owner: Option<u32>, port: u32, item: u32) -> u32
        ensures { result ≡ server_number self.now.d.now self.now.f.now (owner, Some port, item) }
    {
        self.found
            .numbers
            .sites
            .servers
            .number((owner, Some(port), item))
    }

    /// The number of the machine of a provided mode element.
    pub fn machine_number(&self, owner: Option<u32>, port: u32, item: u32) -> u32
        ensures { result ≡ machine_number self.now.d.now self.now.f.now (owner, Some port, item) }
    {
        self.found
            .numbers
            .sites
            .machines
            .number((owner, Some(port), item))
    }

    /// The number of the machine of a required mode element.
    pub fn machine_for(&self, owner: Option<u32>, port: u32) -> u32
        ensures { result ≡ machine_for self.now.d.now self.now.f.now owner port }
    {
        match self.provider_of(owner, port, 0) {
            Some(end) => self.machine_number(end.instance, end.port, end.element),
            None => 0,
        }
    }

    /// The number of a required mode element.
    pub fn mode_port_number(&self, instance: u32, port: u32) -> u32
        ensures { result ≡ mode_port_number self.now.d.now self.now.f.now instance port }
    {
        self.found
            .numbers
            .sites
            .mode_ports
            .number((Some(instance), Some(port), 0))
    }

    /// The number of a runnable of an instance.
    pub fn runnable_number(&self, instance: u32, position: u32) -> u32
        ensures { result ≡ pair_number (runnables_of self.now.d.now self.now.f.now) (instance, position) }
    {
        self.found
            .numbers
            .pairs
            .runnables
            .number((instance as usize, position as usize))
    }

    /// The number of an event of an instance.
    pub fn event_number(&self, instance: u32, position: usize) -> u32
        ensures { result ≡ pair_number (events_of self.now.d.now self.now.f.now) (instance, position) }
    {
        self.found
            .numbers
            .pairs
            .events
            .number((instance as usize, position))
    }

    /// The number of an exclusive area of an instance.
    pub fn area_number(&self, instance: u32, position: u32) -> u32
        ensures { result ≡ pair_number (areas_of self.now.d.now self.now.f.now) (instance, position) }
    {
        self.found
            .numbers
            .pairs
            .areas
            .number((instance as usize, position as usize))
    }
}
