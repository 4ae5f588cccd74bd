//! Texts, compared by words.

ghost use Rattle.std.specs.Prelude.{◌≡◌, Decides, bytes_eq};

/// Whether both words are of the same bytes.
fn is_same_word(x: &[u8; 8], y: &[u8; 8]) -> bool
    ensures { Decides result (x.now ≡ y.now) }
{
    u64::from_le_bytes(*x) == u64::from_le_bytes(*y)
}

/// Whether both are of the same bytes, as `==` has it. It goes over words of eight bytes, which is quicker where lines are compared.
pub fn same_bytes(a: &[u8], b: &[u8]) -> bool
    ensures { result ≡ bytes_eq a.now b.now }
{
    let mut left = a;
    let mut right = b;
    while let (Some((x, more)), Some((y, rest))) = (
        left.split_first_chunk::<8>(),
        right.split_first_chunk::<8>(),
    ) {
        if !is_same_word(x, y) {
            return false;
        }
        left = more;
        right = rest;
    }
    left == right
}
