//! Allocations that fail.

ghost use Rattle.std.specs.Prelude.{[], ◌≡◌};

use crate::store::found::text_of;
use raw_region::Region;
use std::alloc::{AllocError, Global};
use std::test::*;
use store_check::check_store;
use test_support::{ONE_DATABASE, RefusesOne, equal, image};

/// The number of allocations that are granted, changes of the image, and what is found: marks for
/// slots come first, and then a set of IDs.
type Granted = (u32, &'static str, &'static str);

static GRANTED: [Granted; 8] = [
    (0, "3: 33", "BadMagic"),
    (0, "59: 10", "OutOfMemory"),
    (1, "59: 10", "BadDirectorySlot 0"),
    (1, "158: 0000000080", "StrayChunk 28"),
    (1, "72: 00", "OutOfMemory"),
    (2, "72: 00", "BadName 0"),
    (1, "", "OutOfMemory"),
    (2, "", "movable 4 free 8 databases 1"),
];

/// What is found if the given number of allocations is granted.
fn found_with(alloc: Global, granted: u32, region: &Region) -> Result<String, AllocError>
    requires { region.now.lents ≡ [] }
{
    let memory = RefusesOne::behind(alloc, granted);
    let found = check_store(&memory, region);
    text_of(alloc, found)
}

fn check_granted(alloc: Global, (granted, changes, text): Granted) -> Result<(), Fail> {
    let region = image(alloc, ONE_DATABASE, changes)?;
    let found = found_with(alloc, granted, &region)?;
    equal(
        format_args!("{granted} growths, changed: {changes}"),
        found.as_str(),
        text,
    )
}

#[test]
fn refused_memory_is_told(rt: HostRuntime) -> Result<(), Fail> {
    for row in &GRANTED {
        check_granted(rt.alloc(), *row)?;
    }
    Ok(())
}
