//! A line as far as it was told.

ghost use Rattle.std.specs.Prelude.{◌≡◌};
ghost use Rattle.trace_counts.specs.Lines.{ask_mark, answer_mark, closed, closed_mark, mark_of, nothing_begun, plain_mark, receive_mark, send_mark, with_byte};

use crate::numbers::Mark;
use arrayvec::ArrayVec;
use std::marker::Model;
use std::mem;

/// How many bytes of a field are kept: more than any word or code has that is looked for.
const KEPT: usize = 8;

/// The first bytes of a field.
type Head = ArrayVec<u8, KEPT>;

/// A line as far as it was told: how many spaces came, the field that is being told, and the fields that tell what the line counts
/// as, each by its first bytes.
#[derive(Drop)]
pub(crate) struct BegunLine {
    place: u8,
    field: Head,
    first: Head,
    word: Head,
    third: Head,
    fourth: Head,
}

impl Model for BegunLine {
    ghost use Rattle.trace_counts.specs.Lines.{Begun};

    ghost Value = { Begun };

    ghost view = { λ l. record { place = l.place; field = l.field.items; first = l.first.items; word = l.word.items; third = l.third.items; fourth = l.fourth.items } };
}

/// What a Send of this code counts as.
fn send_mark(code: &[u8]) -> Mark
    ensures { result ≡ send_mark code.now }
{
    if code == b"130".as_slice() {
        Mark::SentAtLimit
    } else {
        Mark::Sent
    }
}

/// What a Receive of this code counts as.
fn receive_mark(code: &[u8]) -> Mark
    ensures { result ≡ receive_mark code.now }
{
    if code == b"0".as_slice() || code == b"64".as_slice() {
        Mark::Taken
    } else {
        Mark::Other
    }
}

/// What an Ask of this code counts as.
fn ask_mark(code: &[u8]) -> Mark
    ensures { result ≡ ask_mark code.now }
{
    if code == b"130".as_slice() {
        Mark::AskedAtLimit
    } else if code == b"0".as_slice() {
        Mark::Asked
    } else {
        Mark::Other
    }
}

/// What an Answer of this code counts as.
fn answer_mark(code: &[u8]) -> Mark
    ensures { result ≡ answer_mark code.now }
{
    if code == b"0".as_slice() {
        Mark::Answered
    } else {
        Mark::Other
    }
}

/// What a line of one field counts as.
fn plain_mark(first: &[u8]) -> Mark
    ensures { result ≡ plain_mark first.now }
{
    if first == b"run".as_slice() {
        Mark::Run
    } else if first == b"idle".as_slice() {
        Mark::Idle
    } else {
        Mark::Other
    }
}

impl BegunLine {
    /// A line of which nothing was told.
    pub(crate) fn new() -> BegunLine
        ensures { result ≡ nothing_begun }
    {
        BegunLine {
            place: 0,
            field: ArrayVec::new(),
            first: ArrayVec::new(),
            word: ArrayVec::new(),
            third: ArrayVec::new(),
            fourth: ArrayVec::new(),
        }
    }

    /// One more byte of the field.
    pub(crate) fn push(&mut self, byte: u8)
        ensures { self.new ≡ with_byte self.old byte }
    {
        let _ = self.field.try_push(byte);
    }

    /// The end of the field.
    pub(crate) fn close(&mut self)
        ensures { self.new ≡ closed self.old }
    {
        let field = mem::replace(&mut self.field, ArrayVec::new());
        match self.place {
            0 => self.first = field,
            1 => self.word = field,
            3 => self.third = field,
            4 => self.fourth = field,
            _ => {}
        }
        self.place = self.place.saturating_add(1);
    }

    /// What the line counts as, where its last field has ended.
    fn closed_mark(&self) -> Mark
        ensures { result ≡ closed_mark self.now }
    {
        let word = self.word.as_slice();
        if word == b"send".as_slice() {
            send_mark(self.fourth.as_slice())
        } else if word == b"receive".as_slice() {
            receive_mark(self.third.as_slice())
        } else if word == b"ask".as_slice() {
            ask_mark(self.fourth.as_slice())
        } else if word == b"answer".as_slice() {
            answer_mark(self.third.as_slice())
        } else if word.is_empty() {
            plain_mark(self.first.as_slice())
        } else {
            Mark::Other
        }
    }

    /// The end of the line: what it counts as. Nothing is told of the next one yet.
    pub(crate) fn end(&mut self) -> Mark
        ensures mark { result ≡ mark_of self.old }
        ensures next { self.new ≡ nothing_begun }
    {
        self.close();
        let mark = self.closed_mark();
        *self = BegunLine::new();
        mark
    }
}
