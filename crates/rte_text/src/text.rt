//! A small text.

ghost use Rattle.std.specs.Prelude.{◌≡◌, ◌==◌, ◌≤◌, ◌++◌, codes, length, IfOk, IfSome};

use crate::Memory;
use std::alloc::Global;
use std::fmt::{Debug, Error, Formatter, Write};
use std::marker::Model;

/// How many bytes of a text lie in it.
const ROOM: usize = 30;

/// At most 30 bytes.
#[derive(Clone, Copy)]
struct Short {
    count: u8,
    bytes: [u8; ROOM],
    ghost short: { count ≤ 30 },
}

impl Short {
    ghost use Rattle.std.specs.Prelude.{◌≡◌, ◌++◌, IfSome, codes, take};

    /// These bytes, if they are few enough.
    fn new(bytes: &[u8]) -> Option<Short>
        ensures { IfSome result (λ s. take s.count s.bytes ≡ bytes.now) }
    {
        if bytes.len() > ROOM {
            return None;
        }
        let mut held = [0; ROOM];
        held[..bytes.len()].copy_from_slice(bytes);
        Some(Short {
            count: bytes.len() as u8,
            bytes: held,
        })
    }

    /// Two texts of bytes with a dot between them, if they are short enough.
    fn dotted(first: &[u8], second: &[u8]) -> Option<Short>
        ensures { IfSome result (λ s. take s.count s.bytes ≡ (first.now ++ codes ".") ++ second.now) }
    {
        let after = first.len().saturating_add(1);
        let count = second.len().saturating_add(after);
        if count > ROOM {
            return None;
        }
        let mut held = [0; ROOM];
        held[..first.len()].copy_from_slice(first);
        held[first.len()] = b'.';
        held[after..count].copy_from_slice(second);
        Some(Short {
            count: count as u8,
            bytes: held,
        })
    }

    fn bytes(&self) -> &[u8]
        ensures { result.now ≡ take self.now.count self.now.bytes }
    {
        &self.bytes[..self.count as usize]
    }
}

/// Where the bytes of a text lie.
#[derive(Drop)]
enum Held {
    Here(Short),
    Apart(Vec<u8>),
}

/// A small text, as a name, seen as its bytes. Few bytes lie in it, more lie apart: most names take no memory of their own.
#[derive(Drop)]
pub struct Text {
    held: Held,
}

impl Model for Text {
    ghost use Rattle.std.specs.Prelude.{ℕ, List};
    ghost use Rattle.rte_text.specs.Texts.{bytes_held};

    ghost Value = { List ℕ };

    ghost view = { λ t. bytes_held t.held };
}

impl Text {
    /// A copy of these bytes. The only error is that there is no memory for it.
    pub fn new(alloc: Global, bytes: &[u8]) -> Result<Text, Memory>
        ensures { IfOk result (λ t. t ≡ bytes.now) }
    {
        let held = match Short::new(bytes) {
            Some(short) => Held::Here(short),
            None => Held::Apart(Vec::from_slice(alloc, bytes)?),
        };
        Ok(Text { held })
    }

    /// Two texts of bytes with a dot between them, if they are short enough to lie in the text itself. It takes no memory.
    pub fn dotted(first: &[u8], second: &[u8]) -> Option<Text>
        ensures { IfSome result (λ t. t ≡ (first.now ++ codes ".") ++ second.now) }
    {
        let held = Held::Here(Short::dotted(first, second)?);
        Some(Text { held })
    }

    /// A text of these bytes. It takes no memory.
    pub fn of(bytes: Vec<u8>) -> Text
        ensures { result ≡ bytes.items }
    {
        Text {
            held: Held::Apart(bytes),
        }
    }

    /// Its bytes.
    pub fn bytes(&self) -> &[u8]
        ensures { result.now ≡ self.now }
    {
        match &self.held {
            Held::Here(short) => short.bytes(),
            Held::Apart(bytes) => bytes.as_slice(),
        }
    }

    /// How many bytes it has.
    pub fn len(&self) -> usize
        ensures { result ≡ length self.now }
    {
        self.bytes().len()
    }

    /// Whether it has no byte.
    pub fn is_empty(&self) -> bool
        ensures { result ≡ (length self.now == 0) }
    {
        self.bytes().is_empty()
    }
}

impl Debug for Text {
    fn fmt<W: Write>(&self, f: &mut Formatter<W>) -> Result<(), Error> {
        self.bytes().fmt(f)
    }
}

impl PartialEq for Text {
    ghost use Rattle.std.specs.Prelude.{bytes_eq};
    ghost use Rattle.std.specs.Cmp;
    ghost use Rattle.std.specs.Cmp.Lexicographic.{nat_list_eq_equiv};

    ghost eq = { bytes_eq };

    ghost laws = { Cmp.partial_equiv_from_equiv nat_list_eq_equiv };

    fn eq(&self, other: &Text) -> bool {
        self.bytes() == other.bytes()
    }
}

impl Eq for Text {
    ghost use Rattle.std.specs.Cmp.Lexicographic.{nat_list_eq_equiv};

    ghost laws = { nat_list_eq_equiv };
}
