//! What lines give to feeds.

ghost use Rattle.std.specs.Prelude.{◌≡◌, ◌<◌, ◌++◌, [], ℕ, IfOk, OnOk, length, map, replicate};
ghost use Rattle.bus_semantics.specs.Wanted.{to_tick, wanted_of};
ghost use Rattle.feed_queue.specs.Gifts.{wishes_at};
ghost use Rattle.feed_queue.specs.Heard.{heard_as, wishes_of};
ghost use Rattle.feed_queue.specs.Reading.{given_to};

use crate::heard::{Gift, Heard};
use bus_semantics::Wish;
use rte_text::Memory;
use std::alloc::Global;

/// Four feeds without wishes.
pub(crate) fn no_wishes(alloc: Global) -> Result<Vec<Vec<Wish>>, Memory>
    ensures four { IfOk result (λ lists. length lists.items ≡ 4) }
    ensures none { IfOk result (λ lists. (f : ℕ) → wishes_at lists.items f ≡ []) }
{
    let mut lists = Vec::new(alloc);
    for _ in 0..4usize {
        lists.push(Vec::new(alloc))?;
    }
    Ok(lists)
}

/// Appends so many ticks.
fn add_ticks(list: &mut Vec<Wish>, count: u32) -> Result<(), Memory>
    ensures { OnOk result (map wanted_of list.new.items ≡ map wanted_of list.old.items ++ replicate count to_tick) }
{
    for _ in 0..count {
        list.push(Wish::Tick)?;
    }
    Ok(())
}

/// Appends a gift.
fn add_gift(list: &mut Vec<Wish>, gift: &Gift) -> Result<(), Memory>
    ensures { OnOk result (map wanted_of list.new.items ≡ map wanted_of list.old.items ++ wishes_of gift.now) }
{
    match gift {
        Gift::Ticks(count) => add_ticks(list, *count)?,
        Gift::Call(wish) => list.push(*wish)?,
    }
    Ok(())
}

/// Appends what a line gives to the list of its feed.
pub(crate) fn give(lists: &mut Vec<Vec<Wish>>, heard: &Heard) -> Result<(), Memory>
    requires { length lists.old.items ≡ 4 }
    ensures four { length lists.new.items ≡ 4 }
    ensures given { OnOk result ((f : ℕ) → f < 4 → map wanted_of (wishes_at lists.new.items f) ≡ map wanted_of (wishes_at lists.old.items f) ++ given_to f (heard_as heard.now)) }
{
    if let Heard::Feed(feed, gift) = heard {
        if let Some(list) = lists.get_mut(*feed as usize) {
            add_gift(list, gift)?;
        }
    }
    Ok(())
}
