//! What a plan numbers of a component.

/// What the instances of a component have each for themselves.
#[derive(Clone, Copy)]
pub enum Part {
    Runnables,
    Events,
    Areas,
}
