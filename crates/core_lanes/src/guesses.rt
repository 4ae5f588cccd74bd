//! Which events of a core an entry may start.

ghost use Rattle.std.specs.Prelude.{IfSome};
ghost use Rattle.bus_semantics.specs.Common.{touched_by, IsObject, plan_of};
ghost use Rattle.core_turn.specs.Awake.{Fits};

use crate::news::News;
use bus_semantics::{BusPlan, Deed, Stamped};
use core_turn::{Awake, Core};
use port_objects::touched_object;
use std::alloc::{AllocError, Global};
use std::sync::atomic::{AtomicU64, Ordering};

/// A place of an event in a task of a core, or a mode machine of core 0.
#[derive(Clone, Copy)]
pub struct Spot {
    /// The number of the core.
    pub core: usize,
    /// The place of the task or machine among those of the core.
    pub slot: usize,
    /// The place of the event among those of the task; a machine has none.
    pub place: Option<usize>,
}

/// What an object may start.
#[derive(Drop)]
struct Starts {
    /// For each core where the events stand that an entry at the object may start (SWS_RTE: runnable activation).
    spots: Vec<Vec<Spot>>,
    /// Where the mode machine stands that the object is (SWS_RTE: mode switch procedure).
    machine: Option<Spot>,
    /// The point that the server served last which the object is, or none of the plan's.
    served: AtomicU64,
}

/// What a call point may start.
#[derive(Drop)]
struct Caller {
    /// The server to which the point is joined.
    object: Option<usize>,
    /// Where the events stand that start the caller, which waits for the answer, and those that a return starts (SWS_RTE: Rte_Call).
    spots: Vec<Spot>,
}

/// For each object and for each call point, by number, what an entry there may start, and for each event where it stands. A guess: it
/// spares a core looks, and no entry rests on it. Cores that run at the same time tell one another of entries that may start something
/// on another core: their news are of objects and, behind these, of points.
#[derive(Drop)]
pub struct Guesses {
    objects: Vec<Starts>,
    callers: Vec<Caller>,
    events: Vec<Option<Spot>>,
    pub(crate) news: News,
}

/// No spots for each of so many cores.
fn no_starts(alloc: Global, cores: usize) -> Result<Starts, AllocError> {
    let mut spots = Vec::new(alloc);
    for _core in 0..cores {
        spots.push(Vec::new(alloc))?;
    }
    Ok(Starts {
        spots,
        machine: None,
        served: AtomicU64::new(u64::MAX),
    })
}

/// Whether an entry of this deed may start events of any receiver, server or user of modes. Of the others a return is heard at one point,
/// and each other entry lets at most one event start again, that of the activation which it ends.
fn is_heard(deed: &Deed) -> bool {
    match deed {
        Deed::Write { .. }
        | Deed::Publish { .. }
        | Deed::PublishAll { .. }
        | Deed::Send { .. }
        | Deed::Ask { .. }
        | Deed::Phase(_) => true,
        _ => false,
    }
}

/// Wakes what stands at a spot of the core, if there is such a spot.
fn wake_spot(core: &Core, spot: Spot, awake: &mut Awake)
    requires { Fits core.now.slots core.now.first awake.old }
    ensures { Fits core.now.slots core.now.first awake.new }
{
    match spot.place {
        Some(place) => awake.wake_at(core, spot.slot, place),
        None => {
            if spot.slot < core.slots() {
                awake.rouse(spot.slot);
            }
        }
    }
}

/// Wakes what stands at each of these spots of the core.
fn wake_spots(core: &Core, spots: &[Spot], awake: &mut Awake)
    requires { Fits core.now.slots core.now.first awake.old }
    ensures { Fits core.now.slots core.now.first awake.new }
{
    for spot in spots {
        wake_spot(core, *spot, awake);
    }
}

/// Wakes what stands at this spot, if it is one of the core of this number.
fn wake_own(core: &Core, number: u32, spot: Option<Spot>, awake: &mut Awake)
    requires { Fits core.now.slots core.now.first awake.old }
    ensures { Fits core.now.slots core.now.first awake.new }
{
    if let Some(spot) = spot {
        if spot.core == number as usize {
            wake_spot(core, spot, awake);
        }
    }
}

/// Wakes what stands at each of these spots that are of the core of this number.
fn wake_those(core: &Core, number: u32, spots: &[Spot], awake: &mut Awake)
    requires { Fits core.now.slots core.now.first awake.old }
    ensures { Fits core.now.slots core.now.first awake.new }
{
    for spot in spots {
        wake_own(core, number, Some(*spot), awake);
    }
}

impl Starts {
    /// The spots on a core.
    fn on(&self, core: usize) -> &[Spot] {
        match self.spots.get(core) {
            Some(spots) => spots.as_slice(),
            None => &[],
        }
    }

    /// Whether an entry of this deed may start something on a core. Who waits at an exclusive area may stand on each.
    fn may_start(&self, deed: &Deed, core: usize) -> bool {
        match deed {
            Deed::Leave { .. } => true,
            _ if is_heard(deed) => !self.on(core).is_empty(),
            _ => match self.machine {
                Some(spot) => spot.core == core,
                None => false,
            },
        }
    }
}

impl Guesses {
    /// None for so many cores, objects and call points. The only error is that there is no memory.
    pub fn none(
        alloc: Global,
        cores: usize,
        objects: usize,
        points: usize,
    ) -> Result<Guesses, AllocError> {
        let mut lists = Vec::new(alloc);
        for _object in 0..objects {
            lists.push(no_starts(alloc, cores)?)?;
        }
        Ok(Guesses {
            objects: lists,
            callers: Vec::new(alloc),
            events: Vec::new(alloc),
            news: News::none(alloc, cores, objects.saturating_add(points))?,
        })
    }

    /// An entry at the object may start what stands at the spot. The only error is that there is no memory.
    pub fn add(&mut self, object: usize, spot: Spot) -> Result<(), AllocError> {
        if let Some(starts) = self.objects.get_mut(object) {
            if let Some(spots) = starts.spots.get_mut(spot.core) {
                spots.push(spot)?;
            }
        }
        Ok(())
    }

    /// The next call point, in the order of their numbers, is joined to the server that is this object, if it is joined. The only error is that
    /// there is no memory.
    pub fn place_point(&mut self, alloc: Global, object: Option<usize>) -> Result<(), AllocError> {
        self.callers.push(Caller {
            object,
            spots: Vec::new(alloc),
        })?;
        Ok(())
    }

    /// A return at the point may start what stands at the spot. The only error is that there is no memory.
    pub fn add_at_point(&mut self, point: usize, spot: Spot) -> Result<(), AllocError> {
        if let Some(caller) = self.callers.get_mut(point) {
            caller.spots.push(spot)?;
        }
        Ok(())
    }

    /// The object is the mode machine that stands at the spot.
    pub fn set_machine(&mut self, object: usize, spot: Spot) {
        if let Some(starts) = self.objects.get_mut(object) {
            starts.machine = Some(spot);
        }
    }

    /// The next event, in the order of their numbers, stands at the spot, if it stands somewhere. The only error is that there is no memory.
    pub fn place_event(&mut self, spot: Option<Spot>) -> Result<(), AllocError> {
        self.events.push(spot)?;
        Ok(())
    }

    /// Hears of an entry: if it starts a server, at which point the next return will be.
    pub fn note(&self, made: &Stamped) {
        if let Deed::Start {
            point: Some(point),
            ..
        } = &made.entry.deed
        {
            if let Some(starts) = self.server_of(*point) {
                starts.served.store(*point as u64, Ordering::SeqCst);
            }
        }
    }

    /// The server to which a point is joined.
    fn server_of(&self, point: u32) -> Option<&Starts> {
        match self.callers.get(point as usize) {
            Some(caller) => match caller.object {
                Some(object) => self.objects.get(object),
                None => None,
            },
            None => None,
        }
    }

    /// Where the event of this number stands.
    fn spot_of(&self, event: Option<u32>) -> Option<Spot> {
        match event {
            Some(event) => match self.events.get(event as usize) {
                Some(spot) => *spot,
                None => None,
            },
            None => None,
        }
    }

    /// Wakes what an entry of the core of this number may start on it, and tells other cores of it, if it may start something there.
    pub(crate) fn wake_after(
        &self,
        p: &BusPlan,
        number: u32,
        core: &Core,
        made: &Stamped,
        awake: &mut Awake,
    )
        requires within { IfSome (touched_by (plan_of p.now) (record { entry = made.now.entry; event = made.now.event })) (IsObject (plan_of p.now)) }
        requires fits { Fits core.now.slots core.now.first awake.old }
        ensures { Fits core.now.slots core.now.first awake.new }
    {
        let Some(object) = touched_object(p, &made.entry, made.event) else {
            return;
        };
        let Some(starts) = self.objects.get(object as usize) else {
            return;
        };
        let deed = &made.entry.deed;
        if let Deed::Leave { .. } = deed {
            awake.wake_first(object);
        }
        if is_heard(deed) {
            wake_spots(core, starts.on(number as usize), awake);
        }
        if let Deed::End = deed {
            wake_own(core, number, self.spot_of(made.event), awake);
        }
        wake_own(core, number, starts.machine, awake);
        self.tell_others(number, starts, deed, object);
        self.note(made);
        if let Deed::Return { .. } = deed {
            let point = starts.served.load(Ordering::SeqCst);
            self.wake_caller(number, core, point, awake);
        }
    }

    /// Wakes what a return at this point may start on the core of this number, and tells other cores of it.
    fn wake_caller(&self, number: u32, core: &Core, point: u64, awake: &mut Awake)
        requires { Fits core.now.slots core.now.first awake.old }
        ensures { Fits core.now.slots core.now.first awake.new }
    {
        if let Some(caller) = self.callers.get(point as usize) {
            wake_those(core, number, caller.spots.as_slice(), awake);
            self.tell_of_point(number, caller.spots.as_slice(), point);
        }
    }

    /// Tells each core but this one of a return at a point, if one of these spots stands there.
    fn tell_of_point(&self, number: u32, spots: &[Spot], point: u64) {
        let behind = (self.objects.len() as u64).saturating_add(point);
        let news = behind.min(u32::MAX as u64) as u32;
        for spot in spots {
            if spot.core != number as usize {
                self.news.tell(spot.core, news);
            }
        }
    }

    /// Tells each core but this one of an entry at an object, if it may start something there.
    fn tell_others(&self, number: u32, starts: &Starts, deed: &Deed, object: u32) {
        for core in 0..starts.spots.len() {
            if core != number as usize && starts.may_start(deed, core) {
                self.news.tell(core, object);
            }
        }
    }

    /// Wakes what entries of other cores at an object may start on the core of this number: also who waits first, if it is an area.
    fn wake_object(&self, number: u32, core: &Core, object: u32, awake: &mut Awake)
        requires { Fits core.now.slots core.now.first awake.old }
        ensures { Fits core.now.slots core.now.first awake.new }
    {
        awake.wake_first(object);
        if let Some(starts) = self.objects.get(object as usize) {
            wake_spots(core, starts.on(number as usize), awake);
            wake_own(core, number, starts.machine, awake);
        }
    }

    /// Wakes what may start by these news: those of an object, or behind all objects of a point.
    fn wake_by(&self, number: u32, core: &Core, news: u32, awake: &mut Awake)
        requires { Fits core.now.slots core.now.first awake.old }
        ensures { Fits core.now.slots core.now.first awake.new }
    {
        let objects = self.objects.len();
        let at = news as usize;
        if at < objects {
            self.wake_object(number, core, news, awake);
        } else if let Some(caller) = self.callers.get(at - objects) {
            wake_those(core, number, caller.spots.as_slice(), awake);
        }
    }

    /// Wakes what may start by each of a word of news, of which this is the first.
    fn wake_objects(&self, number: u32, core: &Core, objects: u64, first: u32, awake: &mut Awake)
        requires { Fits core.now.slots core.now.first awake.old }
        ensures { Fits core.now.slots core.now.first awake.new }
    {
        let mut left = objects;
        for _place in 0..64u32 {
            if left == 0 {
                return;
            }
            let place = left.trailing_zeros();
            self.wake_by(number, core, first.saturating_add(place), awake);
            left &= left - 1;
        }
    }

    /// Wakes what others told the core of this number of. The answer is whether they told it of something.
    pub(crate) fn hear(&self, number: u32, core: &Core, awake: &mut Awake) -> bool
        requires { Fits core.now.slots core.now.first awake.old }
        ensures { Fits core.now.slots core.now.first awake.new }
    {
        if !self.news.take(number) {
            return false;
        }
        let mut first = 0u32;
        for word in 0..self.news.words(number) {
            let objects = self.news.objects_in(number, word);
            if objects != 0 {
                self.wake_objects(number, core, objects, first, awake);
            }
            first = first.saturating_add(64);
        }
        true
    }
}
