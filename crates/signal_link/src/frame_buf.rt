//! Frames.

ghost use Rattle.std.specs.Prelude.{◌≡◌, ◌≤◌, ◌+◌, ◌++◌, [], length};
ghost use Rattle.rte_value.specs.Values.{words_of};
ghost use Rattle.signal_link.specs.Frames.{frame};

use arrayvec::ArrayVec;
use byteorder::{BigEndian, ByteOrder};
use rte_value::{MOST_WORDS, Value};
use std::marker::Model;

/// How many bytes a frame may have: four, and eight for each of 16 words.
pub const FRAME_LIMIT: usize = 132;

/// The byte that each frame begins with.
pub(crate) const MARK: u8 = 0x52;

/// Room for a frame, seen as the bytes that it holds. It takes no memory.
#[derive(Debug, Drop)]
pub struct FrameBuf {
    held: ArrayVec<u8, FRAME_LIMIT>,
}

impl Model for FrameBuf {
    ghost use Rattle.std.specs.Prelude.{ℕ, List};

    ghost Value = { List ℕ };

    ghost view = { λ f. f.held.items };
}

impl FrameBuf {
    /// Room that holds nothing.
    pub fn new() -> FrameBuf
        ensures { result ≡ [] }
    {
        FrameBuf {
            held: ArrayVec::new(),
        }
    }

    /// The bytes that it holds.
    pub fn bytes(&self) -> &[u8]
        ensures bytes { result.now ≡ self.now }
        ensures short { length result.now ≤ 132 }
    {
        self.held.as_slice()
    }

    /// Makes it hold nothing.
    fn clear(&mut self)
        ensures { self.new ≡ [] }
    {
        self.held.clear();
    }

    /// Appends bytes, for which there is room.
    fn append(&mut self, bytes: &[u8])
        requires { length self.old + length bytes.now ≤ 132 }
        ensures { self.new ≡ self.old ++ bytes.now }
    {
        let _ = self.held.try_extend_from_slice(bytes);
    }
}

/// Puts the frame of a value for the link of this number in place of what `out` holds: the byte 0x52, the number in two bytes, the
/// number of words in one, and each word in eight, the highest byte first, in two's complement.
#[tactic(auto, unfolding(crate::specs::Frames::word_bytes))]
pub fn frame(link: u16, value: &Value, out: &mut FrameBuf)
    ensures { out.new ≡ frame link (words_of value.now) }
{
    let words = value.words();
    let mut number = [0; 2];
    BigEndian::write_u16(&mut number, link);
    out.clear();
    out.append(&[MARK, number[0], number[1], words.len() as u8]);
    let mut bytes = [0; 8 * MOST_WORDS];
    let room = &mut bytes[..8 * words.len()];
    BigEndian::write_i64_into(words, room);
    out.append(room);
}
