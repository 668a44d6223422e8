//! Images with a chain in which words are changed, by the check of heaps and by the plain model.
#![tactic(auto, using(laws_heap::proofs::Lending::all_within))]

ghost use Rattle.std.specs.Prelude.{[], ◌≡◌, IfOk};

use crate::images::{TABLE, image, put_word};
use heap_check::{HeapFault, check_heap};
use raw_region::Region;
use std::alloc::Global;
use std::fmt::Display;
use std::test::*;
use test_model::{Image, Unreadable};
use test_support::equal;

/// What is said of an image with a chain.
#[derive(Clone, Copy, Debug, PartialEq, Eq)]
enum Said {
    Accepted,
    BadTable(u32),
    OtherFault,
}

fn said_by_check(region: &Region) -> Said
    requires { region.now.lents ≡ [] }
{
    match check_heap(region) {
        Ok(_) => Said::Accepted,
        Err(HeapFault::BadTable(index)) => Said::BadTable(index),
        Err(_) => Said::OtherFault,
    }
}

fn said_by_model(alloc: Global, region: &Region) -> Result<Said, Fail>
    requires { region.now.lents ≡ [] }
{
    match Image::decode(alloc, region.as_slice()) {
        Ok(_) => Ok(Said::Accepted),
        Err(Unreadable::Memory) => Err("no memory")?,
        Err(Unreadable::Table(index)) => Ok(Said::BadTable(index)),
        Err(_) => Ok(Said::OtherFault),
    }
}

/// What both say of an image.
fn agreed<D: Display + Drop>(alloc: Global, spot: D, region: &Region) -> Result<Said, Fail>
    requires { region.now.lents ≡ [] }
{
    let said = said_by_check(region);
    equal(spot, said, said_by_model(alloc, region)?)?;
    Ok(said)
}

/// Three further tables of one, two and five slots at 32, 48 and 72, along the chain 48, 72, 32.
/// The slots at 16, 56 and 80 hold the places of chunks at 104, 112 and 120, of which the first is
/// the directory.
static TABLES: [(u32, u32); 22] = [
    (12, 16),
    (16, 112),
    (20, 48),
    (24, 16),
    (28, TABLE),
    (40, 0x0400_0018),
    (44, TABLE),
    (48, 72),
    (56, 120),
    (64, 0x0000_0020),
    (68, TABLE),
    (72, 32),
    (80, 128),
    (96, 8),
    (100, 0xF100_0000),
    (104, 8),
    (108, 0x00FF_FFD4),
    (112, 8),
    (116, 0x01FF_FFE4),
    (120, 0x0000_0010),
    (124, 0x01FF_FFEC),
    (136, 0x8000_0018),
];

fn tables(alloc: Global) -> Result<Region, Fail>
    ensures { IfOk result (λ region. region.lents ≡ []) }
{
    image(alloc, 160, &TABLES)
}

#[test]
fn three_tables_are_accepted(rt: HostRuntime) -> Result<(), Fail> {
    let said = agreed(rt.alloc(), "three tables", &tables(rt.alloc())?)?;
    equal("three tables", said, Said::Accepted)
}

/// How many of these words are accepted at an offset.
fn accepted_at(alloc: Global, at: u32, words: &[u32]) -> Result<u32, Fail> {
    let mut region = tables(alloc)?;
    let mut count = 0u32;
    for word in words {
        put_word(&mut region, at, *word)?;
        let said = agreed(alloc, format_args!("word {word} at {at}"), &region)?;
        if said == Said::Accepted {
            count = count.saturating_add(1);
        }
    }
    Ok(count)
}

/// Every offset of the image and some after it, and words of one bit and of all bits from one on.
fn all_words(alloc: Global) -> Result<Vec<u32>, Fail> {
    let mut words = Vec::new(alloc);
    for word in 0..170u32 {
        words.push(word)?;
    }
    for bit in 8..32u32 {
        words.push(1u32.wrapping_shl(bit))?;
        words.push(0u32.wrapping_sub(1u32.wrapping_shl(bit)))?;
    }
    Ok(words)
}

/// Every word from the directory word to the last table, and with how many words the image is
/// accepted. The directory word may be 0, and the slack after the slots of the table at 48 is open.
#[test]
fn every_word_of_a_table_is_changed(rt: HostRuntime) -> Result<(), Fail> {
    let alloc = rt.alloc();
    let words = all_words(alloc)?;
    for number in 3..25u32 {
        let at = number * 4;
        let right = match at {
            12 => 2,
            60 => words.len(),
            _ => 1,
        };
        let found = accepted_at(alloc, at, &words)?;
        equal(format_args!("the word at {at}"), found as usize, right)?;
    }
    Ok(())
}

/// The places of the tables, of other chunks and of none, and slots.
static NEXTS: [u32; 9] = [0, 32, 48, 72, 36, 56, 104, 112, 144];

/// Checks an image whose words `next` of the further tables are these, with each first `next`.
fn check_chains(alloc: Global, [at_32, at_48, at_72]: [u32; 3]) -> Result<u32, Fail> {
    let mut region = tables(alloc)?;
    put_word(&mut region, 32, at_32)?;
    put_word(&mut region, 48, at_48)?;
    put_word(&mut region, 72, at_72)?;
    let mut count = 0u32;
    for first in &NEXTS {
        put_word(&mut region, 20, *first)?;
        let spot = format_args!("chain {first} {at_32} {at_48} {at_72}");
        if agreed(alloc, spot, &region)? == Said::Accepted {
            count = count.saturating_add(1);
        }
    }
    Ok(count)
}

/// Each of four words `next` leads anywhere. Six orders of the three tables are accepted.
#[test]
fn chains_lead_anywhere(rt: HostRuntime) -> Result<(), Fail> {
    let mut count = 0u32;
    for at_32 in &NEXTS {
        for at_48 in &NEXTS {
            for at_72 in &NEXTS {
                let found = check_chains(rt.alloc(), [*at_32, *at_48, *at_72])?;
                count = count.saturating_add(found);
            }
        }
    }
    equal("accepted", count, 6)
}
