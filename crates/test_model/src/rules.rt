//! What a call leaves alone, whatever it returns.

use crate::image::{Image, Table, u32_at};
use crate::memory_calls::{TABLE_LENGTH, need};
use heap_model::{
    Call, DatabaseCall, FileCall, MemoryCall, Name, RecordCall, Refusal, Reply, ResourceCall,
};

/// What a call did that it may not do.
#[derive(Clone, Copy, Debug, PartialEq, Eq)]
pub enum Rule {
    /// The length, or a byte before the slots: the directory word among them.
    Frame,
    /// The tables are not those that were there, with one of 15 empty slots after them where the
    /// call has made it.
    Tables,
    /// A call that only asks, or was refused for another reason than lack of room, changed a byte.
    Bytes,
    /// A refused call left other free bytes, or another number of free slots.
    Room,
    /// The chunk of this name moved, though it was locked or fixed, or none had to move, or another
    /// one had of another stretch.
    Moved(Name),
    /// Compaction left a free chunk that isn't the last of its stretch.
    Packed,
    /// The free header before this place was written with bits that mean nothing.
    FreeHeader(u32),
}

/// The first rule that a call of the memory manager broke.
pub fn broken_rule(
    call: &MemoryCall,
    reply: &Reply,
    before: &Image,
    after: &Image,
) -> Option<Rule> {
    if !has_same_frame(before, after) || before.directory() != after.directory() {
        return Some(Rule::Frame);
    }
    let makes_table = matches!(call, MemoryCall::MoreSlots) && *reply == Reply::Done;
    if !has_right_tables(makes_table, before, after) {
        return Some(Rule::Tables);
    }
    if matches!(call, MemoryCall::Compact) && !after.is_packed() {
        return Some(Rule::Packed);
    }
    broken_in_area(asks(call), movable_by(call, before), reply, before, after)
}

/// The first rule that a call on a store broke. One on databases, records, resources or files may
/// move all chunks that it may move at all, and the first database that is made makes the
/// directory.
pub fn broken_store_rule(
    call: &Call,
    reply: &Reply,
    before: &Image,
    after: &Image,
) -> Option<Rule> {
    if let Call::Memory(call) = call {
        return broken_rule(call, reply, before, after);
    }
    let may_direct = before.directory().is_none() && is_created(call, reply);
    if !has_same_frame(before, after) || !may_direct && before.directory() != after.directory() {
        return Some(Rule::Frame);
    }
    if !has_right_tables(false, before, after) {
        return Some(Rule::Tables);
    }
    broken_in_area(asks_in_store(call), Moves::Anything, reply, before, after)
}

/// Whether two images have the same length, and the same bytes before the directory word.
fn has_same_frame(before: &Image, after: &Image) -> bool {
    before.bytes.len() == after.bytes.len() && before.bytes.get(..12) == after.bytes.get(..12)
}

/// Whether the tables are those that were there, and after them, if one was made, one of 15 slots,
/// all of them empty.
fn has_right_tables(makes_table: bool, before: &Image, after: &Image) -> bool {
    if !makes_table {
        return before.tables.as_slice() == after.tables.as_slice();
    }
    let Some((last, others)) = after.tables.as_slice().split_last() else {
        return false;
    };
    before.tables.as_slice() == others
        && last.count == 15
        && after.free_slots() == before.free_slots().saturating_add(15)
        && is_empty(*last, after)
}

/// Whether no slot of a table is in use.
fn is_empty(table: Table, image: &Image) -> bool {
    for number in 0..table.count {
        let at = table.slot_at(number);
        if !image.is_free_slot(Name(at)) {
            return false;
        }
    }
    true
}

/// Whether a call has made a database.
fn is_created(call: &Call, reply: &Reply) -> bool {
    matches!(
        call,
        Call::Database(DatabaseCall::Create { .. }) | Call::File(FileCall::Import(_))
    ) && matches!(reply, Reply::Database(_))
}

/// Whether a call on databases, records, resources or files only asks.
fn asks_in_store(call: &Call) -> bool {
    matches!(
        call,
        Call::Database(
            DatabaseCall::Find(_)
                | DatabaseCall::Nth(_)
                | DatabaseCall::Count
                | DatabaseCall::Info(_)
                | DatabaseCall::InfoBlock(..)
        ) | Call::Record(
            RecordCall::Query(..)
                | RecordCall::Info(..)
                | RecordCall::Count(_)
                | RecordCall::FindById(..)
                | RecordCall::CountInCategory(..)
                | RecordCall::NextInCategory { .. }
                | RecordCall::PositionInCategory { .. }
        ) | Call::Resource(
            ResourceCall::Info(..)
                | ResourceCall::Find { .. }
                | ResourceCall::FindType { .. }
                | ResourceCall::Count(_)
        ) | Call::File(FileCall::Export(_))
    )
}

/// The first rule on bytes, room and places that a call broke.
fn broken_in_area(
    asks: bool,
    moves: Moves,
    reply: &Reply,
    before: &Image,
    after: &Image,
) -> Option<Rule> {
    if (asks || is_refused_at_once(reply)) && before.bytes != after.bytes {
        return Some(Rule::Bytes);
    }
    let has_same_room = before.free_bytes() == after.free_bytes()
        && before.free_slots() == after.free_slots();
    if matches!(reply, Reply::Refused(_)) && !has_same_room {
        return Some(Rule::Room);
    }
    match first_moved(moves, before, after) {
        Some(name) => Some(Rule::Moved(name)),
        None => odd_free_header(before, after).map(Rule::FreeHeader),
    }
}

/// Whether a call was refused before anything was done: where room is short, free chunks may be
/// joined, and others moved.
fn is_refused_at_once(reply: &Reply) -> bool {
    match reply {
        Reply::Refused(refusal) => *refusal != Refusal::NotEnoughSpace,
        _ => false,
    }
}

/// Whether a call only asks.
fn asks(call: &MemoryCall) -> bool {
    matches!(
        call,
        MemoryCall::Size(_)
            | MemoryCall::Owner(_)
            | MemoryCall::Locks(_)
            | MemoryCall::Read { .. }
            | MemoryCall::Recover(_)
            | MemoryCall::FreeBytes
            | MemoryCall::LargestStretch
    )
}

/// Which chunks a call may move, of those that are neither locked nor fixed.
#[derive(Clone, Copy, PartialEq, Eq)]
enum Moves {
    Nothing,
    OneStretch,
    Anything,
}

/// What a call may move: nothing for a new chunk or table for which a run of free chunks has the
/// room, or for a length that a chunk can have in its place, and one stretch for any other new
/// chunk.
fn movable_by(call: &MemoryCall, before: &Image) -> Moves {
    match call {
        MemoryCall::HandleNew { size, .. } | MemoryCall::PtrNew { size, .. } => {
            movable_for(*size, before)
        }
        MemoryCall::MoreSlots => movable_for(TABLE_LENGTH, before),
        MemoryCall::Resize { name, size } if need(*size) <= before.size_with_behind(*name) => {
            Moves::Nothing
        }
        _ => Moves::Anything,
    }
}

/// What a new chunk of the given number of bytes may move.
fn movable_for(size: u32, before: &Image) -> Moves {
    if before.has_run(need(size)) {
        Moves::Nothing
    } else {
        Moves::OneStretch
    }
}

/// The first chunk that is still live and not where it was, though it had to stay there.
fn first_moved(moves: Moves, before: &Image, after: &Image) -> Option<Name> {
    let mut stretch = 0u32;
    let mut moved_in = None;
    for piece in &before.pieces {
        if piece.stays() {
            stretch = stretch.saturating_add(1);
        }
        let Some(name) = piece.moved_name(after) else {
            continue;
        };
        let may_move = match moves {
            Moves::Nothing => false,
            Moves::OneStretch => *moved_in.get_or_insert(stretch) == stretch,
            Moves::Anything => true,
        };
        if piece.stays() || !may_move {
            return Some(name);
        }
    }
    None
}

/// The place of the first free chunk whose header's first word was written, and has more than the
/// free bit and the size.
fn odd_free_header(before: &Image, after: &Image) -> Option<u32> {
    for piece in &after.pieces {
        let at = piece.place.0.saturating_sub(8) as usize;
        let word = u32_at(after.bytes, at);
        if piece.live.is_none()
            && word != u32_at(before.bytes, at)
            && word != 0x8000_0000 | piece.size
        {
            return Some(piece.place.0);
        }
    }
    None
}
