//! A link of bytes.

/// What a link answers to `send`.
#[derive(Clone, Copy, Debug, PartialEq, Eq)]
pub enum Sent {
    /// The link took this many bytes from the beginning of the piece.
    Took(u32),
    /// The link failed, and took nothing.
    Failed,
}

/// What a link answers to `receive`.
#[derive(Clone, Copy, Debug, PartialEq, Eq)]
pub enum Got {
    /// This many bytes were given, into the beginning of the room.
    Gave(u32),
    /// The link failed, and gave nothing.
    Failed,
}

/// A link of bytes, which gives what it took, in order.
///
/// Bytes that it took and did not give are on the way. A link counts its faults; the count stands at its last value, 2^64 - 1. It
/// may be known never to fail.
pub trait Link {
    ghost use Rattle.std.specs.Prelude.{◌≡◌, ◌≤◌, ℕ, List, Bool};
    ghost use Rattle.signal_link.specs.Ways.{SentAfter, SendFaults, MayFailToSend, GotAfter, ReceiveFaults, MayFailToReceive};

    ghost way: { Self → List ℕ };

    ghost faults: { Self → ℕ };

    ghost never_fails: { Self → Bool };

    /// Takes bytes from the beginning of the piece behind those on the way. It takes none of a piece only if the piece is empty
    /// or bytes are on the way. It fails only with its count, and a link that never fails does not.
    fn send(&mut self, piece: &[u8]) -> Sent
        ensures way { SentAfter result (way self.old) (way self.new) piece.now }
        ensures faults { SendFaults result (faults self.old) (faults self.new) }
        ensures faults_never_fall { faults self.old ≤ faults self.new }
        ensures may_fail { MayFailToSend result (never_fails self.old) }
        ensures never_fails { never_fails self.new ≡ never_fails self.old };

    /// Gives the first bytes on the way into the beginning of the room. It gives none only if the room is empty or no byte is on
    /// the way. It fails only with its count, and a link that never fails does not.
    fn receive(&mut self, room: &mut [u8]) -> Got
        ensures way { GotAfter result (way self.old) (way self.new) room.old room.new }
        ensures faults { ReceiveFaults result (faults self.old) (faults self.new) }
        ensures faults_never_fall { faults self.old ≤ faults self.new }
        ensures may_fail { MayFailToReceive result (never_fails self.old) }
        ensures never_fails { never_fails self.new ≡ never_fails self.old };
}
