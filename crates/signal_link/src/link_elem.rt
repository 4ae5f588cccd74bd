//! The links of two nodes.

use rte_value::Limits;

/// A link: a queued element at an outer port of the first node, and the element of the second node that its values go to
/// (Specification of Communication: signals). Both have the same words and limits.
#[derive(Clone, Copy, Debug)]
pub struct LinkElem {
    /// The element of the first node, from whose outer port values are taken.
    pub out_elem: u32,
    /// The element of the second node, at whose outer port they are sent.
    pub in_elem: u32,
    /// How many words a value has, from 1 to 16.
    pub words: u8,
    /// The limits of each word, the least of which is not above the greatest.
    pub limits: Limits,
}
