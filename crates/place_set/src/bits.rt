//! Bits in words of 64.

ghost use Rattle.std.specs.Prelude.{◌≡◌, ◌≢◌, ◌<◌, ◌≤◌, ◌/◌, ◌%◌, ◌==◌, ℕ, length, true, false, slice_index_or};
ghost use Rattle.place_set.specs.Bits.{bit_of, IsFirstOfWord, IsFirstBit, HasPlaces};

/// How many bits a word has.
pub(crate) const WORD: usize = 64;

/// The place within its word.
fn within(place: usize) -> u32
    ensures { result ≡ place % 64 }
{
    (place % WORD) as u32
}

/// Whether a bit is set.
pub(crate) fn has_bit(words: &[u64], place: usize) -> bool
    requires { place / 64 < length words.now }
    ensures { result ≡ bit_of words.now place }
{
    (words[place / WORD] >> within(place)) & 1 == 1
}

/// Sets a bit.
pub(crate) fn set_bit(words: &mut [u64], place: usize)
    requires { place / 64 < length words.old }
    ensures count { length words.new ≡ length words.old }
    ensures set { bit_of words.new place ≡ true }
    ensures bits { (other : ℕ) → other ≢ place → bit_of words.new other ≡ bit_of words.old other }
    ensures words { (word : ℕ) → word ≢ place / 64 → slice_index_or words.new word 0 ≡ slice_index_or words.old word 0 }
{
    words[place / WORD] |= 1u64 << within(place);
}

/// Clears a bit. Gives whether its word has no other.
pub(crate) fn clear_bit(words: &mut [u64], place: usize) -> bool
    requires { place / 64 < length words.old }
    ensures count { length words.new ≡ length words.old }
    ensures clear { bit_of words.new place ≡ false }
    ensures bits { (other : ℕ) → other ≢ place → bit_of words.new other ≡ bit_of words.old other }
    ensures words { (word : ℕ) → word ≢ place / 64 → slice_index_or words.new word 0 ≡ slice_index_or words.old word 0 }
    ensures less { slice_index_or words.new (place / 64) 0 ≤ slice_index_or words.old (place / 64) 0 }
    ensures empty { result ≡ (slice_index_or words.new (place / 64) 0 == 0) }
{
    let word = words[place / WORD] & !(1u64 << within(place));
    words[place / WORD] = word;
    word == 0
}

/// The first bit of a word that is set and not before a place.
pub(crate) fn first_of_word(word: u64, from: u32) -> Option<u32>
    requires { from < 64 }
    ensures { IsFirstOfWord word from result }
{
    let rest = word >> from;
    if rest == 0 {
        return None;
    }
    Some(from + rest.trailing_zeros())
}

/// The first bit that is set and not before a place. It looks at each word from that place on.
pub(crate) fn first_bit(words: &[u64], from: usize) -> Option<usize>
    requires { HasPlaces words.now }
    ensures { IsFirstBit words.now from result }
{
    let mut behind = within(from);
    for word in from / WORD..words.len() {
        if let Some(at) = first_of_word(words[word], behind) {
            return Some(word * WORD + at as usize);
        }
        behind = 0;
    }
    None
}
