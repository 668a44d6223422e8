//! The words that ask for a block of a file.

ghost use Rattle.std.specs.Prelude.{◌≡◌, option_map};
ghost use Rattle.file_commands.specs.WantedBlocks.{spelled_block, spelled_entry_or_info, spelled_plain_four};

use byteorder::{BigEndian, ByteOrder};
use heap_model::Which;
use script_lines::{four_bytes_of, number_of, short_of};

/// A block that is asked for.
#[derive(Clone, Copy, Debug, PartialEq, Eq)]
pub enum WantedBlock {
    /// An info block.
    Info(Which),
    /// The data of the entry at an index.
    Entry(u32),
    /// The data of the first resource with a type and an id.
    Resource(u32, u16),
}

/// Returns the block that words ask for: the index of an entry, `app`, `sort`, or the type and the
/// id of a resource. Numbers are spelled as in scripts, and so are types, but a type of four bytes
/// needs no quotes.
pub fn wanted_block(word: &[u8], id: Option<&[u8]>) -> Option<WantedBlock>
    ensures { result ≡ spelled_block word.now (option_map (λ id. id.now) id.entry) }
{
    match id {
        Some(id) => Some(WantedBlock::Resource(type_of(word)?, short_of(id)?)),
        None => entry_or_info(word),
    }
}

/// Returns the block that one word asks for.
fn entry_or_info(word: &[u8]) -> Option<WantedBlock>
    ensures { result ≡ spelled_entry_or_info word.now }
{
    match word {
        b"app" => Some(WantedBlock::Info(Which::App)),
        b"sort" => Some(WantedBlock::Info(Which::Sort)),
        _ => Some(WantedBlock::Entry(number_of(word)?)),
    }
}

/// Returns the type that a word spells.
#[tactic(auto, unfolding(heap_model::specs::Bytes::u32_at))]
fn type_of(word: &[u8]) -> Option<u32>
    ensures { result ≡ spelled_plain_four word.now }
{
    if word.len() == 4 {
        return Some(BigEndian::read_u32(word));
    }
    four_bytes_of(word)
}
