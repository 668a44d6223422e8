//! What a test says where a value isn't the one that is wanted.
//!
//! A proof of a test that calls these takes less than half of one of a test with `assert_eq` in a
//! loop.

use std::fmt::{Debug, Display};
use std::test::Fail;

/// Fails a test where a value isn't the one that is wanted. `spot` says where that is.
pub fn equal<T: Debug + PartialEq + Drop, D: Display + Drop>(
    spot: D,
    found: T,
    wanted: T,
) -> Result<(), Fail> {
    if found == wanted {
        return Ok(());
    }
    Err(Fail::new(format_args!("{spot}: {found:?} and not {wanted:?}")))
}

/// Fails a test where something doesn't hold. `spot` says where that is.
pub fn holds<D: Display + Drop>(spot: D, is_right: bool) -> Result<(), Fail> {
    if is_right {
        return Ok(());
    }
    Err(Fail::new(spot))
}
