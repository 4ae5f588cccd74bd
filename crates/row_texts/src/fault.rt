//! Why a row is not carried out.

use std::alloc::AllocError;
use thiserror::Error;

/// Why a row is not carried out.
#[derive(Debug, Drop, Error)]
pub enum Fault {
    /// The line begins with the word of no row.
    #[error("no such row")]
    NoRow,
    /// A file could not be read, or is too long.
    #[error("no file {0}")]
    NoFile(String),
    /// The folder's description is refused.
    #[error("no plan")]
    NoPlan,
    /// An edit has no arrow.
    #[error("no such edit")]
    NoEdit,
    /// The text that an edit replaces does not stand exactly once.
    #[error("{from} stands {count} times")]
    Stands { from: String, count: usize },
    /// A text has a backslash before no escape, or a repetition with no number or no end.
    #[error("no such text")]
    NoText,
    #[error("out of memory")]
    Memory(#[from(alloc)] AllocError),
}
