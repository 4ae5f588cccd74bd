//! A line of fixed room.

ghost use Rattle.std.specs.Prelude.{◌≡◌, ◌+◌, ◌≤◌, ◌↔◌, [], ◌++◌, length, IsTrue, if◌then◌else◌};
ghost use Rattle.std.specs.Fmt.{signed_decimal};

use arrayvec::ArrayVec;
use itoa::Buffer;
use std::marker::Model;

/// How many bytes a line may have.
pub const LINE_LIMIT: usize = 2_048;

/// A line of at most `LINE_LIMIT` bytes, seen as its bytes. It takes no memory.
#[derive(Debug, Drop)]
pub struct LineBuf {
    held: ArrayVec<u8, LINE_LIMIT>,
}

impl Model for LineBuf {
    ghost use Rattle.std.specs.Prelude.{ℕ, List};

    ghost Value = { List ℕ };

    ghost view = { λ line. line.held.items };
}

impl LineBuf {
    /// An empty line.
    pub fn new() -> LineBuf
        ensures { result ≡ [] }
    {
        LineBuf {
            held: ArrayVec::new(),
        }
    }

    /// Appends the text, and answers whether it fits. If it does not, the line stays.
    pub fn text(&mut self, s: &[u8]) -> bool
        ensures line { self.new ≡ (if result then self.old ++ s.now else self.old) }
        ensures fits { IsTrue result ↔ (length self.old + length s.now ≤ 2048) }
        ensures room { length self.old + length s.now ≤ 2048 → self.new ≡ self.old ++ s.now }
    {
        self.held.try_extend_from_slice(s).is_ok()
    }

    /// Appends the number in decimal, and answers whether it fits. If it does not, the line stays.
    /// A number has at most 20 bytes.
    pub fn number(&mut self, n: i64) -> bool
        ensures line { self.new ≡ (if result then self.old ++ signed_decimal n else self.old) }
        ensures fits { IsTrue result ↔ (length self.old + length (signed_decimal n) ≤ 2048) }
        ensures room { length self.old + 20 ≤ 2048 → self.new ≡ self.old ++ signed_decimal n }
        ensures longer { length self.new ≤ length self.old + 20 }
    {
        self.text(Buffer::new().format(n).as_bytes())
    }

    /// The bytes of the line.
    pub fn bytes(&self) -> &[u8]
        ensures bytes { result.now ≡ self.now }
        ensures within_limit { length result.now ≤ 2048 }
    {
        self.held.as_slice()
    }

    /// Makes the line empty.
    pub fn clear(&mut self)
        ensures { self.new ≡ [] }
    {
        self.held.clear();
    }
}
