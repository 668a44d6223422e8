//! Images with a chain of tables, word by word.
#![tactic(auto, using(laws_heap::proofs::Lending::all_within))]

ghost use Rattle.std.specs.Prelude.{[], ◌≡◌, IfOk};

use raw_region::Region;
use std::alloc::Global;
use std::test::*;

/// The second word of the header of a fixed chunk of the manager's.
pub(crate) const TABLE: u32 = 0xF000_0000;

/// An image of a size with one slot in the first table and a word `next` at 20, so that its chunks
/// begin at 24, where words are changed.
pub(crate) fn image(alloc: Global, size: u32, words: &[(u32, u32)]) -> Result<Region, Fail>
    ensures { IfOk result (λ region. region.lents ≡ []) }
{
    let mut region = Region::zeroed(alloc, size)?;
    put_words(&mut region, &[(0, 0x5048_4932), (4, size), (8, 0x1_0000)])?;
    put_words(&mut region, words)?;
    Ok(region)
}

/// Changes words of an image, each by its offset.
pub(crate) fn put_words(region: &mut Region, words: &[(u32, u32)]) -> Result<(), Fail>
    requires { region.old.lents ≡ [] }
    ensures { region.new.lents ≡ [] }
{
    for (at, word) in words {
        put_word(region, *at, *word)?;
    }
    Ok(())
}

/// Changes the word at an offset.
pub(crate) fn put_word(region: &mut Region, at: u32, word: u32) -> Result<(), Fail>
    requires { region.old.lents ≡ [] }
    ensures { region.new.lents ≡ [] }
{
    let at = at as usize;
    if at > region.len() || region.len() - at < 4 {
        return Err("a word beyond the end")?;
    }
    region.put_u32(at, word);
    Ok(())
}
