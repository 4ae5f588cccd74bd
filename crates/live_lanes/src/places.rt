//! The memory of a stay.

ghost use Rattle.std.specs.Prelude.{◌≡◌, ◌≤◌, IfOk, OnOk, suc, length, sum};
ghost use Rattle.feed_queue.specs.Given.{lengths_of};
ghost use Rattle.live_lanes.specs.Places.{HasPlaces};

use crate::workers::Worker;
use crate::yard::Yard;
use core_turn::Core;
use cross_core_table::CoreSeat;
use crossbeam_utils::sync::{Parker, Unparker};
use feed_queue::Feeds;
use std::alloc::{AllocError, Global};

/// Where the cores of a round park, and room for all who run, and for cores and seats when these are taken apart.
#[derive(Drop)]
pub(crate) struct Places {
    pub parkers: Vec<Parker>,
    pub yard: Yard,
    pub workers: Vec<Worker>,
    pub cores: Vec<Core>,
    pub seats: Vec<CoreSeat>,
}

/// Adds a place where a core parks, and what wakes it.
fn add_parker(
    alloc: Global,
    parkers: &mut Vec<Parker>,
    unparkers: &mut Vec<Unparker>,
) -> Result<(), AllocError>
    ensures { OnOk result (length parkers.new.items ≡ suc (length parkers.old.items)) }
{
    let parker = Parker::new(alloc)?;
    let unparker = parker.unparker().clone()?;
    unparkers.push(unparker)?;
    parkers.push(parker)?;
    Ok(())
}

/// Takes places for so many cores.
pub(crate) fn take_places(alloc: Global, count: usize) -> Result<Places, AllocError>
    requires { count ≤ 7 }
    ensures { IfOk result (HasPlaces count) }
{
    let mut parkers = Vec::new(alloc);
    let mut unparkers = Vec::new(alloc);
    for core in 0..count {
        add_parker(alloc, &mut parkers, &mut unparkers)?;
    }
    let workers = Vec::with_capacity(alloc, count + 5)?;
    let cores = Vec::with_capacity(alloc, count)?;
    let seats = Vec::with_capacity(alloc, count + 1)?;
    Ok(Places {
        parkers,
        yard: Yard::new(unparkers),
        workers,
        cores,
        seats,
    })
}

/// How many wishes each feed has.
pub(crate) fn lengths(feeds: &Feeds) -> [u32; 4]
    requires four { length feeds.now.wishes.items ≡ 4 }
    requires few { sum (lengths_of feeds.now) ≤ 65536 }
    ensures { result ≡ lengths_of feeds.now }
{
    [
        feeds.wishes[0].len() as u32,
        feeds.wishes[1].len() as u32,
        feeds.wishes[2].len() as u32,
        feeds.wishes[3].len() as u32,
    ]
}

/// How many wishes feeds of these lengths have in all.
pub(crate) fn total(lengths: &[u32; 4]) -> usize
    ensures { result ≡ sum lengths.now }
{
    let [first, second, third, fourth] = *lengths;
    first as usize + second as usize + third as usize + fourth as usize
}
