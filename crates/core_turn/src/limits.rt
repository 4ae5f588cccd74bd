//! How many turns a core makes in a row, and in which of them it looks at all of its slots.

ghost use Rattle.std.specs.Prelude.{◌≡◌, ◌<◌, ◌≤◌, ◌&&◌, ◌⊎◌, true, false, nat_eq, nat_lt};

/// A core leaves a round after so many entries of its own.
const ENTRIES: u32 = 1024;

/// A core leaves a round after so many turns in a row without an entry.
const TURNS: u32 = 64;

/// In this turn of a row without an entry, counted from 0, a core looks at all: guesses may leave something out.
const LOOKS_AT_ALL: u32 = 32;

/// Whether a core makes a further turn in a round: it leaves after 1,024 entries, or 64 turns in a row without one.
pub fn goes_on(made: u32, quiet: u32) -> bool
    ensures exactly { result ≡ (nat_lt made 1024 && nat_lt quiet 64) }
    ensures stays { result ≡ true → (made < 1024) × (quiet < 64) }
    ensures leaves { result ≡ false → (1024 ≤ made) ⊎ (64 ≤ quiet) }
{
    made < ENTRIES && quiet < TURNS
}

/// Whether a core looks at all of its slots in its next turn: it does in the 33rd turn of a row without an entry.
pub fn looks_at_all(quiet: u32) -> bool
    ensures exactly { result ≡ nat_eq quiet 32 }
    ensures due { quiet ≡ 32 → result ≡ true }
{
    quiet == LOOKS_AT_ALL
}
