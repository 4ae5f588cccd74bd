//! The actors of the lines of a trace that were read, by their texts. Whose line the next one is, and by which event it starts, is guessed by
//! them. What comes of a guess is compared with the line, so nothing is decided by it.

use bus_semantics::{Actor, BusPlan, Deed};
use rte_text::{LineBuf, Memory};
use std::alloc::Global;
use trace_reading::{LineRead, behind};

/// An actor that was seen.
#[derive(Clone, Copy)]
struct Seen<'t> {
    /// Its text with the space behind it, which is empty where none was seen.
    who: &'t [u8],
    actor: Actor,
    /// The event by which it started last.
    event: u32,
}

/// How many places there are for an actor, from that of its text on.
const NEAR: usize = 8;

/// The actors that were seen.
#[derive(Drop)]
pub(crate) struct Actors<'t> {
    /// Each at the place of its text, or at one of those behind it if others came first. If all of them are taken, a later one stands at the
    /// place of its text.
    seen: Vec<Seen<'t>>,
    /// The place of the last one.
    last: usize,
    /// For each event, the one by which its runnable started the next time.
    next: Vec<u32>,
    /// For the text of a line that is read.
    pub(crate) out: LineBuf,
}

/// The text of a line's actor, with the space behind it.
fn who_of(line: &[u8]) -> &[u8] {
    match line.iter().position(|b| *b == b' ') {
        Some(at) => &line[..at + 1],
        None => line,
    }
}

/// Whether a name ends in front of this.
fn ends_before(rest: &[u8]) -> bool {
    match rest.first() {
        Some(b) => *b == b' ' || *b == b'\n',
        None => false,
    }
}

/// A number by which texts of actors mostly differ.
fn number_of(who: &[u8]) -> usize {
    let mut number: usize = 0;
    for b in who {
        number = number.wrapping_mul(31).wrapping_add(*b as usize);
    }
    number
}

/// Adds two places for each of so many actors. An error says that there was no memory.
fn add_places(seen: &mut Vec<Seen<'_>>, actors: usize) -> Result<(), Memory> {
    let nobody = Seen {
        who: b"",
        actor: Actor::Env,
        event: 0,
    };
    for _ in 0..actors {
        seen.push(nobody)?;
        seen.push(nobody)?;
    }
    Ok(())
}

/// For each of so many events itself. An error says that there was no memory.
fn itself(alloc: Global, events: usize) -> Result<Vec<u32>, Memory> {
    let mut next: Vec<u32> = Vec::new(alloc);
    for event in 0..events {
        next.push(u32::try_from(event).unwrap_or(0))?;
    }
    Ok(next)
}

impl<'t> Actors<'t> {
    /// None before a trace. An error says that there was no memory.
    pub(crate) fn new(alloc: Global, p: &BusPlan) -> Result<Actors<'t>, Memory> {
        let mut seen: Vec<Seen<'t>> = Vec::new(alloc);
        add_places(&mut seen, 1)?;
        add_places(&mut seen, p.runnables.len())?;
        add_places(&mut seen, p.points.len())?;
        add_places(&mut seen, p.machines.len())?;
        add_places(&mut seen, NEAR / 2)?;
        let next = itself(alloc, p.events.len())?;
        Ok(Actors {
            seen,
            last: 0,
            next,
            out: LineBuf::new(),
        })
    }

    /// The place of an actor's text.
    fn place_of(&self, who: &[u8]) -> usize {
        match number_of(who).checked_rem(self.seen.len().saturating_sub(NEAR)) {
            Some(place) => place,
            None => 0,
        }
    }

    /// Whether nobody was seen at this place.
    fn is_free(&self, place: usize) -> bool {
        match self.seen.get(place) {
            Some(seen) => seen.who.is_empty(),
            None => false,
        }
    }

    /// The first free place for an actor's text, or its own if there is none.
    fn free_place(&self, who: &[u8]) -> usize {
        let place = self.place_of(who);
        for near in 0..NEAR {
            let at = place.saturating_add(near);
            if self.is_free(at) {
                return at;
            }
        }
        place
    }

    /// The place of the line's actor, from this one on, and what stands behind the actor's text.
    fn place_from<'l>(&self, place: usize, line: &'l [u8]) -> Option<(usize, &'l [u8])> {
        for near in 0..NEAR {
            let at = place.saturating_add(near);
            if let Some(rest) = self.rest_at(at, line) {
                return Some((at, rest));
            }
            if self.is_free(at) {
                return None;
            }
        }
        None
    }

    /// What stands behind the text of the actor at this place, if the line is that actor's.
    fn rest_at<'l>(&self, place: usize, line: &'l [u8]) -> Option<&'l [u8]> {
        match self.seen.get(place) {
            Some(seen) => if seen.who.is_empty() {
                None
            } else {
                behind(line, seen.who)
            },
            None => None,
        }
    }

    /// The place of the line's actor, if it was seen, and what stands behind the actor's text.
    fn place_in<'l>(&self, line: &'l [u8]) -> Option<(usize, &'l [u8])> {
        if let Some(rest) = self.rest_at(self.last, line) {
            return Some((self.last, rest));
        }
        self.place_from(self.place_of(who_of(line)), line)
    }

    /// The actor whose line the text begins with, if it was seen, and what stands behind the actor's text. It is the last one then.
    pub(crate) fn actor_in<'l>(&mut self, text: &'l [u8]) -> Option<(Actor, &'l [u8])> {
        let (place, rest) = self.place_in(text)?;
        self.last = place;
        match self.seen.get(place) {
            Some(seen) => Some((seen.actor, rest)),
            None => None,
        }
    }

    /// The event by which the last actor starts next, if this, which stands behind the actor's text, says that it starts so.
    pub(crate) fn start_in(&mut self, p: &BusPlan, rest: &[u8]) -> Option<u32> {
        let rest = behind(rest, b"start ")?;
        let seen = self.seen.get_mut(self.last)?;
        let event = *self.next.get(seen.event as usize)?;
        let name = p.events.items().get(event as usize)?.name.bytes();
        if ends_before(behind(rest, name)?) {
            seen.event = event;
            Some(event)
        } else {
            None
        }
    }

    /// The line was read so.
    pub(crate) fn note(&mut self, line: &'t [u8], read: &LineRead) {
        let LineRead::Entry(entry) = read else {
            return;
        };
        if self.rest_at(self.last, line).is_none() {
            self.turn_to(who_of(line), entry.actor);
        }
        if let Deed::Start { event, .. } = entry.deed {
            self.note_start(event);
        }
    }

    /// Another actor comes, with this text.
    fn turn_to(&mut self, who: &'t [u8], actor: Actor) {
        self.last = self.free_place(who);
        if let Some(seen) = self.seen.get_mut(self.last) {
            seen.who = who;
            seen.actor = actor;
        }
    }

    /// The last actor started by this event.
    fn note_start(&mut self, event: u32) {
        if let Some(seen) = self.seen.get_mut(self.last) {
            if let Some(next) = self.next.get_mut(seen.event as usize) {
                *next = event;
            }
            seen.event = event;
        }
    }
}
