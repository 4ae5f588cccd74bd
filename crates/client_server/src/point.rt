//! A call point.

ghost use Rattle.std.specs.Prelude.{◌≡◌};
ghost use Rattle.client_server.specs.Points.{is_idle, is_started, outcome_in, value_asked};

use rte_value::{Code, Value};

/// An accepted request of a point.
#[derive(Clone, Copy)]
pub struct Request {
    /// The point.
    pub point: u32,
    /// The arguments that go into the server.
    pub value: Value,
}

/// What a server returned.
#[derive(Clone, Copy)]
pub struct Outcome {
    /// 0, or the number of an application error.
    pub code: Code,
    /// The arguments that come out of the server.
    pub value: Value,
}

/// What became of the last request of a point.
#[derive(Clone, Copy)]
pub enum Stage {
    /// No request is outstanding.
    Idle,
    /// A request was accepted and has not started.
    Asked(Value),
    /// The server was started with the request, and has not returned.
    Started,
    /// The server returned, and the outcome was not taken.
    Returned(Outcome),
}

/// A call point: a caller together with an operation that it calls.
#[derive(Clone, Copy)]
pub struct Point {
    /// What became of its last request.
    pub stage: Stage,
    /// Something was returned to it since the last start by one of its return events.
    pub due: bool,
}

impl Stage {
    /// Whether no request is outstanding.
    pub fn is_idle(&self) -> bool
        ensures { result ≡ is_idle self.now }
    {
        matches!(self, Stage::Idle)
    }

    /// Whether the server was started with the request and has not returned.
    pub fn is_started(&self) -> bool
        ensures { result ≡ is_started self.now }
    {
        matches!(self, Stage::Started)
    }

    /// The value of a request that has not started.
    pub fn asked(&self) -> Option<Value>
        ensures { result ≡ value_asked self.now }
    {
        match self {
            Stage::Asked(value) => Some(*value),
            _ => None,
        }
    }

    /// An outcome that was not taken.
    pub fn outcome(&self) -> Option<Outcome>
        ensures { result ≡ outcome_in self.now }
    {
        match self {
            Stage::Returned(outcome) => Some(*outcome),
            _ => None,
        }
    }
}
