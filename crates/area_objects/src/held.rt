//! An exclusive area.

ghost use Rattle.std.specs.Prelude.{◌≡◌, None};
ghost use Rattle.area_objects.specs.Held.{after_enter, after_exit, answer_to_enter, is_held_by};

use rte_value::ActKey;
use std::marker::Model;

/// An exclusive area of one component instance (SWS_RTE: Rte_Enter, Rte_Exit), seen as the activation that is in it.
/// At most one is.
#[derive(Drop)]
pub struct Area {
    holder: Option<ActKey>,
}

impl Model for Area {
    ghost use Rattle.area_objects.specs.Held.{Kept};

    ghost Value = { Kept };

    ghost view = { λ a. a.holder };
}

/// What entering an area comes to.
#[derive(Clone, Copy)]
pub enum Entered {
    /// The activation is in the area.
    In,
    /// This activation is in the area, so the other one stays outside.
    Held(ActKey),
}

impl Area {
    /// An area that nobody has entered.
    pub fn new() -> Area
        ensures { result ≡ None }
    {
        Area { holder: None }
    }

    /// The activation that is in the area.
    pub fn holder(&self) -> Option<ActKey>
        ensures { result ≡ self.now }
    {
        self.holder
    }

    /// Enters the area for an activation (Rte_Enter). If one is in it, also the same one, nothing changes and the answer
    /// names it.
    pub fn enter(&mut self, key: ActKey) -> Entered
        ensures answer { result ≡ answer_to_enter self.old }
        ensures kept { self.new ≡ after_enter key self.old }
    {
        match self.holder {
            Some(holder) => Entered::Held(holder),
            None => {
                self.holder = Some(key);
                Entered::In
            }
        }
    }

    /// Leaves the area for an activation (Rte_Exit). False if it is not in the area; then nothing changes.
    pub fn exit(&mut self, key: ActKey) -> bool
        ensures answer { result ≡ is_held_by key self.old }
        ensures kept { self.new ≡ after_exit key self.old }
    {
        let is_inside = match self.holder {
            Some(holder) => holder == key,
            None => false,
        };
        if is_inside {
            self.holder = None;
        }
        is_inside
    }
}
