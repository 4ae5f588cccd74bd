//! The rule of the queue, and what each of its steps tells its pass. These types are for the proofs alone.
ghost use Rattle.std.specs.Prelude.{List, ℕ, [], ⊤};
ghost use Rattle.feed_queue.specs.declared.views.View.TheVariants.{Pumps};
ghost use Rattle.feed_queue.specs.Fed.{IsFed};
ghost use Rattle.feed_queue.specs.Steps.{with_feeder, newest_feeder, WasPushed, WasPopped, HasPlace};

use crate::views::{Item, View};
use crossbeam_queue::protocol::{Lesson, Outcome, Protocol, Split};
use std::marker::{Brand, PhantomData};

/// How long the four feeds are. It has a value in proofs alone: a call at `Brand` picks it from what it requires.
pub trait Feeding {
    ghost lengths: { List ℕ };
}

impl Feeding for Brand {
    ghost lengths = { [] };
}

/// The rule of the queue, for feeds of these lengths.
pub struct Fed<F> {
    of: PhantomData<F>,
}

impl<F: Feeding> Protocol<Item, View> for Fed<F> {
    ghost holds = { IsFed F.lengths };

    ghost first = { Pumps 0 [] };
}

/// The pass of the next feeder is made of the pump's.
pub(crate) struct Enlists;

impl Split<View> for Enlists {
    ghost left = { with_feeder };

    ghost right = { newest_feeder };
}

/// A feeder pushes its next number, for which there is a place.
pub(crate) struct Pushed<F> {
    of: PhantomData<F>,
}

impl<F: Feeding> Outcome<Item, View> for Pushed<F> {
    ghost then = { WasPushed };
}

impl<F: Feeding> Lesson<Item, View> for Pushed<F> {
    ghost fact = { HasPlace F.lengths };
}

/// The pump pops the next number of some feed.
pub(crate) struct Popped<F> {
    of: PhantomData<F>,
}

impl<F: Feeding> Outcome<Item, View> for Popped<F> {
    ghost then = { WasPopped F.lengths };
}

impl<F: Feeding> Lesson<Item, View> for Popped<F> {
    ghost fact = { λ v items. ⊤ };
}
