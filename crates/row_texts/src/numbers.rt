//! Lists of numbers in a row.

use crate::fault::Fault;
use std::alloc::Global;

/// The number of this text.
fn number_of(text: &str) -> Result<u64, Fault> {
    match text.parse() {
        Ok(number) => Ok(number),
        Err(_) => Err(Fault::NoRow),
    }
}

/// The two numbers of a text with a colon between them.
fn pair_of(text: &str) -> Result<(u64, u64), Fault> {
    let Some((first, second)) = text.split_once(':') else {
        return Err(Fault::NoRow);
    };
    Ok((number_of(first)?, number_of(second)?))
}

/// The numbers between the commas of a text; `-` has none.
pub fn numbers_of(alloc: Global, text: &str) -> Result<Vec<u64>, Fault> {
    match text {
        "-" => Ok(Vec::new(alloc)),
        _ => text.split(',').map(number_of).try_collect(alloc),
    }
}

/// The pairs `1:2` between the commas of a text; `-` has none.
pub fn pairs_of(alloc: Global, text: &str) -> Result<Vec<(u64, u64)>, Fault> {
    match text {
        "-" => Ok(Vec::new(alloc)),
        _ => text.split(',').map(pair_of).try_collect(alloc),
    }
}
