//! A tree of winners over countdowns: of two that meet, the one with less left goes on to the next node, so the one that
//! goes on from the root has least left.

ghost use Rattle.std.specs.Prelude.{◌≡◌, ◌+◌, ◌<◌, length};
ghost use Rattle.tick_events.specs.Countdowns.{all_seen};
ghost use Rattle.tick_events.specs.Winners.{winner_at, settled, ArePlaces, IsTree, IsTreeBut};

use crate::countdown::Countdown;

/// The place of the countdown that goes on from a node, of a tree with this one for each inner node.
pub(crate) fn winner(best: &[usize], node: usize) -> usize
    ensures { result ≡ winner_at best.now node }
{
    if node < best.len() {
        best[node]
    } else {
        node - best.len()
    }
}

/// Settles a node: of the winners of its children the one with less left at this tick goes on.
fn settle(best: &mut [usize], countdowns: &[Countdown], now: u64, node: usize)
    requires count { length best.old ≡ length countdowns.now }
    requires places { ArePlaces best.old }
    requires root { 0 < node }
    requires inner { node < length best.old }
    ensures places { ArePlaces best.new }
    ensures winner { best.new ≡ settled (all_seen now countdowns.now) best.old node }
{
    let left = winner(best, 2 * node);
    let right = winner(best, 2 * node + 1);
    let is_right = countdowns[right].left(now) < countdowns[left].left(now);
    best[node] = if is_right { right } else { left };
}

/// Makes a tree, from the leaves to the root.
pub(crate) fn settle_all(best: &mut [usize], countdowns: &[Countdown], now: u64)
    requires count { length best.old ≡ length countdowns.now }
    requires places { ArePlaces best.old }
    ensures { IsTree (all_seen now countdowns.now) best.new }
{
    for node in (1..best.len()).rev() {
        settle(best, countdowns, now, node);
    }
}

/// Makes a tree again after a countdown changed, at the nodes on the way from its leaf to the root: at no other one does
/// it go on.
pub(crate) fn settle_above(best: &mut [usize], countdowns: &[Countdown], now: u64, place: usize)
    requires place { place < length best.old }
    requires tree { IsTreeBut (all_seen now countdowns.now) best.old (length best.old + place) }
    ensures { IsTree (all_seen now countdowns.now) best.new }
{
    let mut node = (best.len() + place) / 2;
    while node > 0 {
        settle(best, countdowns, now, node);
        node /= 2;
    }
}
