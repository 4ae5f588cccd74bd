//! Where a number stands in a list.

ghost use Rattle.std.specs.Prelude.{◌≡◌, true, Some, IfSome};
ghost use Rattle.object_kinds.specs.Layout.{place};
ghost use Rattle.object_kinds.specs.Rising.{is_rising};

/// The place of a number, sought among numbers in rising order.
fn search(numbers: &[u32], number: u32) -> Option<u32>
    requires { is_rising numbers.now ≡ true }
    ensures { result ≡ place number numbers.now }
{
    match numbers.binary_search(&number) {
        Ok(place) => Some(place as u32),
        Err(_) => None,
    }
}

/// The place of a number if all before it follow one another, as those of one list mostly do.
fn guessed(numbers: &[u32], number: u32) -> Option<u32>
    requires { is_rising numbers.now ≡ true }
    ensures { IfSome result (λ i. place number numbers.now ≡ Some i) }
{
    let first = *numbers.get(0)?;
    let place = number.checked_sub(first)?;
    match numbers.get(place as usize) {
        Some(found) => { if *found == number { Some(place) } else { None } }
        None => None,
    }
}

/// The place of a number among numbers in rising order.
pub fn find(numbers: &[u32], number: u32) -> Option<u32>
    requires { is_rising numbers.now ≡ true }
    ensures { result ≡ place number numbers.now }
{
    match guessed(numbers, number) {
        Some(place) => Some(place),
        None => search(numbers, number),
    }
}
