//! What a line of stimuli says, as code has it.

use bus_semantics::Wish;

/// What a line gives to its feed.
#[derive(Clone, Copy)]
pub enum Gift {
    /// So many ticks.
    Ticks(u32),
    /// A call.
    Call(Wish),
}

/// What a line of stimuli says.
#[derive(Clone, Copy)]
pub enum Heard {
    /// Nothing: it is empty or a comment.
    Nothing,
    /// That the stimuli stop.
    Stop,
    /// What it gives to the feed of this number.
    Feed(u8, Gift),
    /// It is bad, for this cause.
    Bad(u8),
}
