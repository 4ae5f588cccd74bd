//! A text that exists in proofs alone.

ghost use Rattle.std.specs.Prelude.{◌≡◌, ℕ, List, [], ◌++◌};
ghost use Rattle.std.specs.Borrow.{ftrue};

use std::marker::{Model, PhantomData};

/// The bytes that were told so far. Only clauses read them: at run time there are none.
#[derive(Drop)]
pub struct Told {
    marker: PhantomData<u8>,
    pub ghost bytes: { List ℕ },
}

impl Model for Told {
    ghost also_owns = { λ _. ftrue };
}

impl Told {
    /// Nothing was told yet.
    pub fn new() -> Told
        ensures { result.bytes ≡ [] }
    {
        Told {
            marker: PhantomData,
        }
    }

    /// The piece is told after all that came before. At run time nothing is done.
    pub fn note(&mut self, _piece: &[u8])
        ensures { self.new.bytes ≡ self.old.bytes ++ _piece.now }
    {}
}
