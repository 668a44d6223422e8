//! The laws, each as the postcondition of a function.

ghost use Rattle.laws_heap.specs.Laws.{TiledOnce, ChunksAreRead, TilesAreRead, SlotsAreListed, AcceptanceIsDecided, TiesPairOneToOne, HoldsOneMap, ZeroNamesNothing, NeedIsWhole, LayoutTells, PackingIsPacked, PackedOnce, SlidingKeeps, PackingJoinsRooms, PackingMoves, OwnRoomCounts, HeldTellsFree, SlotsAreNames, GainedSlotsAreFree, BytesTellMigration};

/// An image is tiled by one list of chunks at most.
pub fn tiled_once()
    ensures { TiledOnce }
{}

/// The chunk that is read at an offset is the one that is spelled there.
pub fn chunks_are_read()
    ensures { ChunksAreRead }
{}

/// The chunks that are read off an image are those that tile it.
pub fn tiles_are_read()
    ensures { TilesAreRead }
{}

/// The list of an image's slots has the offset of each slot, and no other.
pub fn slots_are_listed()
    ensures { SlotsAreListed }
{}

/// Whether a heap is accepted can be read off its image.
pub fn acceptance_is_decided()
    ensures { AcceptanceIsDecided }
{}

/// A slot in use has one chunk, and a movable chunk one slot.
pub fn tied_one_to_one()
    ensures { TiesPairOneToOne }
{}

/// An accepted heap holds the map that is read off it, and no other.
pub fn holds_one_map()
    ensures { HoldsOneMap }
{}

/// In an accepted heap the name 0 names nothing.
pub fn zero_names_nothing()
    ensures { ZeroNamesNothing }
{}

/// The size of a chunk is a multiple of 8, and at least 8.
pub fn need_is_whole()
    ensures { NeedIsWhole }
{}

/// The map that a heap holds, the places of its chunks and its room follow from its layout and from
/// the offset at which its chunks begin.
pub fn layout_tells()
    ensures { LayoutTells }
{}

/// Packing slides the chunks of each stretch to its front, and leaves them packed.
pub fn packing_is_packed()
    ensures { PackingIsPacked }
{}

/// Compaction has one result: chunks can slide to one packed list only.
pub fn packed_once()
    ensures { PackedOnce }
{}

/// After chunks slide, every name stands for what it stood for, nothing locked or fixed has moved,
/// and the room is the same.
pub fn sliding_keeps()
    ensures { SlidingKeeps }
{}

/// Packing makes one run of each room.
pub fn packing_joins_rooms()
    ensures { PackingJoinsRooms }
{}

/// Packing moves exactly the chunks that have another place after it.
pub fn packing_moves()
    ensures { PackingMoves }
{}

/// A resize lacks room exactly if two conditions are met. No stretch has the room that it needs,
/// and neither has the chunk's own stretch together with the chunk's size.
pub fn own_room_counts()
    ensures { OwnRoomCounts }
{}

/// The map that an image holds determines how many bytes and slots are free.
pub fn held_tells_free()
    ensures { HeldTellsFree }
{}

/// The free slots are those that name nothing.
pub fn slots_are_names()
    ensures { SlotsAreNames }
{}

/// A table that is added has 15 free slots.
pub fn gained_slots_are_free()
    ensures { GainedSlotsAreFree }
{}

/// If an image with one table becomes one with a chain of tables, the new bytes determine what it
/// holds.
pub fn bytes_tell_migration()
    ensures { BytesTellMigration }
{}
