//! Calls one after another, with the reply of each, and the words that they leave.

use crate::heap::heaps::{CheckedSpace, heap, image};
use heap_model::Name;
use std::alloc::Global;
use std::test::*;
use test_support::equal;

/// A call. Names stand as their numbers.
#[derive(Clone, Copy)]
pub(crate) enum Step {
    Make { count: u32, owner: u8 },
    MakeFixed(u32),
    GiveBack(u32),
    GiveBackOwned(u8),
    Relock(u32, u8),
    /// Where room for the given number of bytes begins.
    RoomAt(u32),
    /// How many bytes the room for the given number has.
    RoomSize(u32),
    FreeBytes,
    /// How many bytes the region has.
    AllBytes,
}

/// A step, and its reply.
pub(crate) type Told = (Step, Option<u32>);

/// The words of a blank heap that are changed, each by its offset.
pub(crate) type Words = &'static [(usize, u32)];

/// Steps, and the words that they leave, where these are looked at.
pub(crate) type Stage = (&'static [Told], Option<Words>);

/// Does a step, and returns a name or a count. None where it couldn't be done.
fn do_step(space: &mut CheckedSpace, step: Step) -> Option<u32> {
    match step {
        Step::Make { count, owner } => space.make(count, owner),
        Step::MakeFixed(count) => space.make_fixed(count),
        Step::GiveBack(name) => space.give_back(Name(name)),
        Step::GiveBackOwned(owner) => space.give_back_owned(owner),
        Step::Relock(name, lock) => space.relock(Name(name), lock),
        Step::RoomAt(size) => Some(space.find_room(size)?.at),
        Step::RoomSize(size) => Some(space.find_room(size)?.size),
        Step::FreeBytes => Some(space.free_bytes()),
        Step::AllBytes => u32::try_from(space.bytes().len()).ok(),
    }
}

/// Does steps, each of which must return the reply that is listed with it.
fn check_steps(space: &mut CheckedSpace, about: &str, steps: &[Told]) -> Result<(), Fail> {
    for (number, (step, answer)) in steps.iter().enumerate() {
        let said = do_step(space, *step);
        equal(format_args!("{about}, step {number}"), said, *answer)?;
    }
    Ok(())
}

/// Checks that a space has the bytes of a blank heap in which words are changed.
fn check_words(alloc: Global, space: &CheckedSpace, about: &str, words: Words) -> Result<(), Fail> {
    let image = image(alloc, words)?;
    equal(about, space.bytes(), image.as_slice())
}

fn check_stage(
    alloc: Global,
    space: &mut CheckedSpace,
    about: &str,
    (steps, after): Stage,
) -> Result<(), Fail> {
    check_steps(space, about, steps)?;
    match after {
        Some(words) => check_words(alloc, space, about, words),
        None => Ok(()),
    }
}

/// Does steps on the heap of some words, and checks the words that they leave, stage by stage.
pub(crate) fn left_by(
    alloc: Global,
    about: &str,
    before: Words,
    stages: &[Stage],
) -> Result<CheckedSpace, Fail> {
    let mut space = heap(alloc, before)?;
    for stage in stages {
        check_stage(alloc, &mut space, about, *stage)?;
    }
    Ok(space)
}
