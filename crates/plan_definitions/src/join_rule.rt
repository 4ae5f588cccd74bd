//! Rules on required items.

/// A rule on required items.
#[derive(Clone, Copy)]
pub enum JoinRule {
    /// A required operation or mode element has at most one provided one, and a mode element of an instance has one.
    Services,
    /// No group has more than one provided and more than one required data element.
    Groups,
}
