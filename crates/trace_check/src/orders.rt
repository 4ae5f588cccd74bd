//! The orders of a script that are left.

ghost use Rattle.std.specs.Prelude.{◌≡◌, ◌<◌, IsTrue, ◌↔◌, [], ◌∷◌, false, MatchOption};
ghost use Rattle.bus_semantics.specs.Common.{list_all, a_call, a_run, orders_of_script, wanted_of};
ghost use Rattle.bus_semantics.specs.declared.script.Line.TheVariants as line;
ghost use Rattle.trace_check.specs.Orders.{IsBegun, Takes, begins_with_a_call, is_nothing, left_of};

use bus_semantics::{Line, Script, Wish};
use same_entries::same_wish;
use std::marker::Model;

/// What a script has still to ask for. Clauses see it as a list of orders.
#[derive(Drop)]
pub struct Orders<'s> {
    /// Ticks of a line that was begun.
    ticks: u32,
    /// The lines behind it.
    lines: &'s [Line],
}

impl<'s> Model for Orders<'s> {
    ghost use Rattle.std.specs.Prelude.{List};
    ghost use Rattle.bus_semantics.specs.Run.{Ordered};
    ghost use Rattle.trace_check.specs.Orders.{left_of};

    ghost Value = { List Ordered };

    ghost view = { λ s. left_of s.ticks s.lines.now };
}

/// Ticks and lines with which the same is left, and in front of which no line of ticks stands.
fn begun<'s>(ticks: u32, lines: &'s [Line]) -> (u32, &'s [Line])
    ensures same { left_of result.0 result.1.now ≡ left_of ticks lines.now }
    ensures begun { IsBegun result.0 result.1.now }
{
    let mut count = ticks;
    let mut more = lines;
    'lines: while count == 0 {
        match more.split_first() {
            Some((Line::Tick(ticks), rest)) => {
                count = *ticks;
                more = rest;
            }
            _ => return (count, more),
        }
    }
    (count, more)
}

/// The call of the first of these lines, and the lines behind it. None if that is another line, or there is none.
fn first_call(lines: &[Line]) -> Option<(&Wish, &[Line])>
    ensures { MatchOption result (begins_with_a_call lines.now ≡ false) (λ call. lines.now ≡ line.Call call.0.now ∷ call.1.now) }
{
    match lines.split_first() {
        Some((Line::Call(wish), rest)) => Some((wish, rest)),
        _ => None,
    }
}

/// Whether a line asks for nothing.
fn is_nothing(line: &Line) -> bool
    ensures { result ≡ is_nothing line.now }
{
    match line {
        Line::Tick(count) => *count == 0,
        _ => false,
    }
}

/// Whether these lines ask for nothing.
fn are_nothing(lines: &[Line]) -> bool
    ensures { result ≡ list_all is_nothing lines.now }
{
    lines.iter().all(|line| is_nothing(line))
}

impl<'s> Orders<'s> {
    /// All that a script asks for.
    pub fn new(script: &'s Script) -> Orders<'s>
        ensures { result ≡ orders_of_script script.now.lines }
    {
        Orders {
            ticks: 0,
            lines: script.lines.items(),
        }
    }

    /// Takes a run line, if that is next. If not, nothing changes.
    pub fn take_run(&mut self) -> bool
        ensures { Takes a_run self.old self.new result }
    {
        let (ticks, lines) = begun(self.ticks, self.lines);
        match lines.split_first() {
            Some((Line::Run, rest)) => {
                if ticks > 0 {
                    return false;
                }
                self.ticks = 0;
                self.lines = rest;
                true
            }
            _ => false,
        }
    }

    /// Takes a call of the environment with this wish, if that is next. If not, nothing changes.
    pub fn take_call(&mut self, wish: &Wish) -> bool
        ensures { Takes (a_call (wanted_of wish.now)) self.old self.new result }
    {
        let (ticks, lines) = begun(self.ticks, self.lines);
        if ticks > 0 {
            self.take_tick(ticks, lines, wish)
        } else {
            self.take_first(lines, wish)
        }
    }

    /// Takes the call of the environment that is next, and answers its wish. None if a run line is next, or nothing is left; then nothing
    /// changes.
    pub fn take_next(&mut self) -> Option<Wish>
        ensures { MatchOption result (self.new ≡ self.old) (λ wish. self.old ≡ a_call (wanted_of wish) ∷ self.new) }
    {
        let (ticks, lines) = begun(self.ticks, self.lines);
        if ticks > 0 {
            self.ticks = ticks - 1;
            self.lines = lines;
            return Some(Wish::Tick);
        }
        let (wish, rest) = first_call(lines)?;
        self.ticks = 0;
        self.lines = rest;
        Some(*wish)
    }

    /// Takes one of these ticks.
    fn take_tick(&mut self, ticks: u32, lines: &'s [Line], wish: &Wish) -> bool
        requires left { left_of ticks lines.now ≡ self.old }
        requires some { 0 < ticks }
        ensures { Takes (a_call (wanted_of wish.now)) self.old self.new result }
    {
        if !same_wish(wish, &Wish::Tick) {
            return false;
        }
        self.ticks = ticks - 1;
        self.lines = lines;
        true
    }

    /// Takes the first of these lines.
    fn take_first(&mut self, lines: &'s [Line], wish: &Wish) -> bool
        requires left { orders_of_script lines.now ≡ self.old }
        requires begun { IsBegun 0 lines.now }
        ensures { Takes (a_call (wanted_of wish.now)) self.old self.new result }
    {
        match first_call(lines) {
            Some((next, rest)) => {
                if !same_wish(wish, next) {
                    return false;
                }
                self.ticks = 0;
                self.lines = rest;
                true
            }
            None => false,
        }
    }

    /// Whether nothing is left.
    pub fn is_over(&self) -> bool
        ensures { IsTrue result ↔ (self.now ≡ []) }
    {
        self.ticks == 0 && are_nothing(self.lines)
    }
}
