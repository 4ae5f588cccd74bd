//! Threads that one thread starts, one after the other.

ghost use Rattle.std.specs.Prelude.{◌≡◌, ◌<◌, length, slice_index_or};
ghost use Rattle.std.specs.Fork.{AcceptsAt, AcceptsEach, ChangesAt, ChangesEach};
ghost use denote.Param.Send.{IsSend, IsSync};
ghost use Rattle.thread_starts.specs.Starting.{AreAccepted, AreChanged};

use std::thread::{Threads, join_mut};

/// Calls `f` with each place and its element, as `for_each_mut` does with a thread for each: in a thread of its own, if one can be made, and with
/// the last on the caller's. The caller starts each of these threads itself.
pub fn start_each<R: Threads + Sync, T: Send, F: Fn(usize, &mut T) + Sync>(
    rt: &R,
    s: &mut [T],
    f: &F,
)
    requires some { 0 < length s.old }
    requires accepts { AcceptsEach F.Fn f.now s.old }
    ensures { ChangesEach F.Fn f.now s.old s.new }
{
    start_from(rt, f, 0, s);
}

/// The same from a place on, with at least one element.
#[cycle(starts)]
fn start_from<R: Threads + Sync, T: Send, F: Fn(usize, &mut T) + Sync>(
    rt: &R,
    f: &F,
    from: usize,
    s: &mut [T],
)
    requires { AreAccepted (AcceptsAt F.Fn f.now) from s.old }
    ensures { AreChanged (ChangesAt F.Fn f.now) from s.old s.new }
{
    if s.len() == 1 {
        call_only(f, from, s);
        return;
    }
    let (first, rest) = s.split_at_mut(1);
    start_both(rt, f, from, first, from + 1, rest);
}

/// Calls `f` with the first element in a new thread, and goes on with the others.
#[cycle(starts)]
fn start_both<R: Threads + Sync, T: Send, F: Fn(usize, &mut T) + Sync>(
    rt: &R,
    f: &F,
    from: usize,
    first: &mut [T],
    next: usize,
    rest: &mut [T],
)
    requires one { length first.old ≡ 1 }
    requires first { AreAccepted (AcceptsAt F.Fn f.now) from first.old }
    requires rest { AreAccepted (AcceptsAt F.Fn f.now) next rest.old }
    ensures first { AreChanged (ChangesAt F.Fn f.now) from first.old first.new }
    ensures rest { AreChanged (ChangesAt F.Fn f.now) next rest.old rest.new }
{
    let mut front = ||
        requires { (length first.now ≡ 1) × AreAccepted (AcceptsAt F.Fn f.now) from first.now }
        ensures { AreChanged (ChangesAt F.Fn f.entry.now) from first.entry.now first.exit.now }
    { call_only(f, from, first) };
    let mut back = ||
        requires { IsSync R.row × IsSync F.row × IsSend T.row × AreAccepted (AcceptsAt F.Fn f.now) next rest.now }
        ensures { AreChanged (ChangesAt F.Fn f.entry.now) next rest.entry.now rest.exit.now }
    { start_from(rt, f, next, rest) };
    join_mut(rt, &mut front, &mut back);
}

/// Calls `f` with the only element.
fn call_only<T, F: Fn(usize, &mut T)>(f: &F, place: usize, s: &mut [T])
    requires one { length s.old ≡ 1 }
    requires accepts { AreAccepted (AcceptsAt F.Fn f.now) place s.old }
    ensures { AreChanged (ChangesAt F.Fn f.now) place s.old s.new }
{
    call_at(f, place, s);
}

/// The same, said of the first element.
fn call_at<T, F: Fn(usize, &mut T)>(f: &F, place: usize, s: &mut [T])
    requires one { length s.old ≡ 1 }
    requires accepts { (d : T) → AcceptsAt F.Fn f.now place (slice_index_or s.old 0 d) }
    ensures one { length s.new ≡ 1 }
    ensures called { (d : T) → ChangesAt F.Fn f.now place (slice_index_or s.old 0 d) (slice_index_or s.new 0 d) }
{
    call_one(f, place, &mut s[0]);
}

/// Calls `f` with an element.
fn call_one<T, F: Fn(usize, &mut T)>(f: &F, place: usize, it: &mut T)
    requires { AcceptsAt F.Fn f.now place it.old }
    ensures { ChangesAt F.Fn f.now place it.old it.new }
{
    f(place, it);
}
