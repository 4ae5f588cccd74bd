//! A server and the points that call it.

ghost use Rattle.std.specs.Prelude.{◌≡◌, ◌<◌, None, Some, IsSome, IfOk, IfSome, is_some, length};
ghost use Rattle.client_server.specs.Kept.{after_answer, after_ask, after_direct_start, after_reply, after_return_start, after_start, answer_to_ask, fresh, next_point, point_at, starting};
ghost use Rattle.client_server.specs.Points.{is_started, outcome_in, value_asked};

use crate::Memory;
use crate::point::{Outcome, Point, Request, Stage};
use crate::queue::{Waiting, has_first, queue_up, take_first};
use circular_buffer::HeapCircularBuffer;
use rte_value::{Code, Value};
use std::alloc::Global;
use std::marker::Model;

/// RTE_E_OK.
const OK: Code = 0;

/// RTE_E_LIMIT: a request was not accepted.
const LIMIT: Code = 130;

/// What a server keeps of its points' requests (SWS_RTE: client-server communication). A queued server serves one request at a
/// time, in the order in which they were accepted; a direct one runs within its caller's call.
///
/// A point is a position in the list of points. Only `new` takes memory.
#[derive(Drop)]
pub struct Server {
    waiting: Waiting,
    serving: Option<u32>,
    points: Vec<Point>,
}

impl Model for Server {
    ghost use Rattle.std.specs.Option.{option_map};
    ghost use Rattle.client_server.specs.Asked.{AreAsked};
    ghost use Rattle.client_server.specs.Kept.{Kept};
    ghost use Rattle.client_server.specs.Queue.{length_of, waiting_in};

    ghost Value = { Kept };

    ghost view = { λ s. record { queue = length_of s.waiting; waiting = waiting_in s.waiting; serving = s.serving; points = s.points.items } };

    ghost invariant = { λ s. AreAsked s.points.items (waiting_in s.waiting) };
}

impl Server {
    /// A server that nobody has asked, with this many points and the length of its queue, or none for a direct server. The only
    /// error is that there is no memory. No other call answers out of memory, by its type; that none takes any is read in the
    /// code.
    pub fn new(alloc: Global, points: u32, queue: Option<u32>) -> Result<Server, Memory>
        ensures { IfOk result (λ s. s ≡ fresh points queue) }
    {
        let point = Point {
            stage: Stage::Idle,
            due: false,
        };
        let points = vec![in alloc; point; points as usize]?;
        let waiting = match queue {
            Some(length) => Some(HeapCircularBuffer::with_capacity(alloc, length as usize)?),
            None => None,
        };
        Ok(Server {
            waiting,
            serving: None,
            points,
        })
    }

    /// Asks for a point (the beginning of Rte_Call). 130 RTE_E_LIMIT exactly if the point's earlier request is outstanding or
    /// the queue is full, else 0.
    pub fn ask(&mut self, point: u32, value: &Value) -> Code
        requires { point < length self.old.points }
        ensures answer { result ≡ answer_to_ask point self.old }
        ensures kept { self.new ≡ after_ask point value.now self.old }
    {
        if !self.points[point as usize].stage.is_idle() || !queue_up(&mut self.waiting, point) {
            return LIMIT;
        }
        self.points[point as usize].stage = Stage::Asked(*value);
        OK
    }

    /// Starts a queued server with the oldest request that waits. None exactly if none waits or one is being served.
    pub fn start(&mut self) -> Option<Request>
        requires { IsSome self.old.queue }
        ensures answer { result ≡ starting self.old }
        ensures variant { is_some result ≡ is_some (next_point self.old) }
        ensures within { IfSome result (λ r. r.point < length self.old.points) }
        ensures kept { self.new ≡ after_start self.old }
    {
        if self.serving.is_some() {
            return None;
        }
        match take_first(&mut self.waiting) {
            Some(point) => {
                let value = self.points[point as usize].stage.asked().unwrap();
                self.points[point as usize].stage = Stage::Started;
                self.serving = Some(point);
                Some(Request { point, value })
            }
            None => None,
        }
    }

    /// Whether it is a queued server.
    pub fn is_queued(&self) -> bool
        ensures { result ≡ is_some self.now.queue }
    {
        self.waiting.is_some()
    }

    /// Whether a start of a queued server may come: a request waits, and none is being served.
    pub fn may_start(&self) -> bool
        ensures { result ≡ is_some (next_point self.now) }
    {
        self.serving.is_none() && has_first(&self.waiting)
    }

    /// Starts a direct server with the request of a point. None exactly if the point has none that has not started.
    pub fn start_direct(&mut self, point: u32) -> Option<Value>
        requires within { point < length self.old.points }
        requires direct { self.old.queue ≡ None }
        ensures answer { result ≡ value_asked (point_at point self.old).stage }
        ensures kept { self.new ≡ after_direct_start point self.old }
    {
        let asked = self.points[point as usize].stage.asked();
        if asked.is_some() {
            self.points[point as usize].stage = Stage::Started;
        }
        asked
    }

    /// The point whose request a queued server serves: it was started and has no reply.
    pub fn serving(&self) -> Option<u32>
        ensures { result ≡ self.now.serving }
    {
        self.serving
    }

    /// Returns to a point. False if its request has not started or has a reply; then nothing changes. The return events of that
    /// point are then pending.
    pub fn reply(&mut self, point: u32, outcome: &Outcome) -> bool
        requires { point < length self.old.points }
        ensures answer { result ≡ is_started (point_at point self.old).stage }
        ensures kept { self.new ≡ after_reply point outcome.now self.old }
    {
        if !self.points[point as usize].stage.is_started() {
            return false;
        }
        self.points[point as usize] = Point {
            stage: Stage::Returned(*outcome),
            due: true,
        };
        if self.serving == Some(point) {
            self.serving = None;
        }
        true
    }

    /// Takes what was returned to a point, for a caller that waits for it (the end of Rte_Call). None exactly if nothing was
    /// returned that is not yet taken. Then no request of the point is outstanding.
    pub fn answer(&mut self, point: u32) -> Option<Outcome>
        requires { point < length self.old.points }
        ensures answer { result ≡ outcome_in (point_at point self.old).stage }
        ensures kept { self.new ≡ after_answer point self.old }
    {
        let outcome = self.points[point as usize].stage.outcome();
        if outcome.is_some() {
            self.points[point as usize].stage = Stage::Idle;
        }
        outcome
    }

    /// Takes what was returned to a point (Rte_Result). None exactly if nothing was returned that is not yet taken. Then no
    /// request of the point is outstanding.
    pub fn result(&mut self, point: u32) -> Option<Outcome>
        requires { point < length self.old.points }
        ensures answer { result ≡ outcome_in (point_at point self.old).stage }
        ensures kept { self.new ≡ after_answer point self.old }
    {
        self.answer(point)
    }

    /// Whether the return events of a point are pending. They share one flag.
    pub fn is_return_due(&self, point: u32) -> bool
        requires { point < length self.now.points }
        ensures { result ≡ (point_at point self.now).due }
    {
        self.points[point as usize].due
    }

    /// Whether the return events of a point were pending; then they are no longer.
    pub fn start_return(&mut self, point: u32) -> bool
        requires { point < length self.old.points }
        ensures pending { result ≡ (point_at point self.old).due }
        ensures kept { self.new ≡ after_return_start point self.old }
    {
        let is_pending = self.points[point as usize].due;
        self.points[point as usize].due = false;
        is_pending
    }
}
