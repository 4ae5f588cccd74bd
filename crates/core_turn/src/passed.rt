//! What comes of looks at slots.

/// What comes of looks at slots, one after the other.
#[derive(Drop)]
pub enum Passed {
    /// The slot at this place made an entry.
    Made(usize),
    /// Nothing of any of them may come now.
    Nothing,
    /// Another core holds the object.
    Contended(u32),
}
