//! What comes of a look.

/// What comes of a look at a wish, or at the wishes of a slot.
#[derive(Clone, Copy)]
pub enum Looks {
    /// An entry was made, and is the last that was written down.
    Made,
    /// Nothing may come now.
    Nothing,
    /// Another core holds the object.
    Contended(u32),
}
