//! One value over a link.

ghost use Rattle.std.specs.Prelude.{◌≡◌, [], Some};
ghost use Rattle.rte_value.specs.Values.{words_of};
ghost use Rattle.signal_link.specs.Carrying.{CarriedAs, CarryFaults, MayFailToCarry};
ghost use Rattle.signal_link.specs.Links.{AreOfWords};
ghost use Rattle.signal_link.specs.Unframing.{IsGood, fresh};

use crate::frame_buf::{FrameBuf, frame};
use crate::link::{Got, Link, Sent};
use crate::unframer::{Found, Unframer};
use rte_value::Value;

/// How many bytes are received at once.
const PIECE: usize = 64;

/// A value that came over a link.
#[derive(Clone, Copy, Debug)]
pub struct Arrived {
    /// The number of the link that it is for.
    pub link: u16,
    pub value: Value,
}

/// Sends the frame of a value, which its link takes, and receives by turns until the value came. Before and after nothing is on
/// the way, and the unframer keeps no byte. None exactly if the way failed; then bytes may be left. What arrives is this value,
/// for this link. It never fails on a link that never fails.
pub fn carry<L: Link>(
    link: u16,
    value: &Value,
    way: &mut L,
    unframer: &mut Unframer,
) -> Option<Arrived>
    requires good { IsGood unframer.old.links link (words_of value.now) }
    requires of_words { AreOfWords unframer.old.links }
    requires nothing_kept { unframer.old ≡ fresh unframer.old.links }
    requires nothing_on_the_way { L.way way.old ≡ [] }
    ensures carried { CarriedAs result link (words_of value.now) (L.way way.new) unframer.old unframer.new }
    ensures faults { CarryFaults result (L.faults way.old) (L.faults way.new) }
    ensures may_fail { MayFailToCarry result (L.never_fails way.old) }
    ensures never_fails { L.never_fails way.new ≡ L.never_fails way.old }
{
    let mut held = FrameBuf::new();
    frame(link, value, &mut held);
    let mut unsent = held.bytes();
    let mut room = [0; PIECE];
    'turns: loop {
        match way.send(unsent) {
            Sent::Took(taken) => unsent = &unsent[taken as usize..],
            Sent::Failed => return None,
        }
        let given = match way.receive(&mut room) {
            Got::Gave(given) => given,
            Got::Failed => return None,
        };
        match unframer.feed(&room[..given as usize]).found {
            Found::More => {}
            Found::Whole { link, value } => return Some(Arrived { link, value }),
            // No good frame that is cut shows this.
            Found::BadFrame => return None,
        }
    }
}
