//! The steps of a round keep its rule.

ghost use Rattle.cross_core_table.specs.Keeping.{OpeningsKeep, TriesKeep, StampsOnKeep, StampsOffKeep, UnlocksKeep, LooksKeep, SplitsKeep, JoinsKeep};
ghost use Rattle.cross_core_table.specs.Closing.{RoundsEndWhole};

use port_objects::leads_are_legal;

/// The rule of a round holds where it is opened, and each kind of atomic step keeps it, of any number of seats up to 8, whatever
/// the others have done meanwhile; and each step tells its seat what is told of it.
pub fn each_step_keeps_the_rule()
    ensures opening { OpeningsKeep }
    ensures tries { TriesKeep }
    ensures stamps_on { StampsOnKeep }
    ensures stamps_off { StampsOffKeep }
    ensures unlocks { UnlocksKeep }
    ensures looks { LooksKeep }
    ensures splits { SplitsKeep }
    ensures joins { JoinsKeep }
{}

/// If the first seat has taken in every other, the entries of the round in order of stamps are an interleaving of what the
/// cores made; all objects are at home; and whatever entries an object stood for at the opening, it stands for these and the
/// entries of the round that touch it, each of which is what the bus answers after those before it.
pub fn rounds_end_whole()
    ensures { RoundsEndWhole }
{
    leads_are_legal();
}
