//! The laws, each as the postcondition of a function.

ghost use Rattle.laws_store.specs.Laws.{SpellingsAreRead, ShapesAreSpellings, EntriesAreWritten, EntriesAreMoved, HeadersAreWritten, EditsAreSound, EditsAreCounted, BodiesAreBytes, DirectoriesAreRead, FreshIdsExist, AcceptanceIsCounted, StoresAreDecided, MeansOneStore, StoresTell, StoresAreKept, MemoryCallsKeepStores, MemoryCallsAreStoreSteps, StoresAreRewritten, StoresAreAppended, StoresAreDropped, DatabasesAreFound, DatabasesAreChanged, DatabasesAreTakenOut, NumbersAreKnown, DatabasesAreSound, DatabasesAreStores, SetsAreSteps, CreatesAreSteps, DropsAreSteps, RefusalsAreSteps, EditsAreSteps, MakesAreSteps, RespellsAreSteps, ChunksAreSteps, OnePartIsShort, MadeThenShort};

/// The database that is read off bytes is the one that they spell.
pub fn spellings_are_read()
    ensures { SpellingsAreRead }
{}

/// Bytes spell a database exactly if they have the right shape.
pub fn shapes_are_spellings()
    ensures { ShapesAreSpellings }
{}

/// To replace an entry is to write its bytes over the old ones.
pub fn entries_are_written()
    ensures { EntriesAreWritten }
{}

/// To insert or remove an entry is to move the bytes of the entries after it.
pub fn entries_are_moved()
    ensures { EntriesAreMoved }
{}

/// To replace a header is to write its bytes over the old ones.
pub fn headers_are_written()
    ensures { HeadersAreWritten }
{}

/// A database stays sound if its entries are edited and the new entries fit.
pub fn edits_are_sound()
    ensures { EditsAreSound }
{}

/// After an edit of one entry, a database names what it named, except for that entry's data.
pub fn edits_are_counted()
    ensures { EditsAreCounted }
{}

/// If an image is a list of bytes, so is the body of each chunk.
pub fn bodies_are_bytes()
    ensures { BodiesAreBytes }
{}

/// The bytes of a directory and its list of slots determine each other.
pub fn directories_are_read()
    ensures { DirectoriesAreRead }
{}

/// After a seed there is exactly one fresh ID, if fewer IDs are taken than there are.
pub fn fresh_ids_exist()
    ensures { FreshIdsExist }
{}

/// An image is accepted exactly if each name is listed and named as often as its owner says.
pub fn acceptance_is_counted()
    ensures { AcceptanceIsCounted }
{}

/// Whether an image is accepted with its databases can be read off it.
pub fn stores_are_decided()
    ensures { StoresAreDecided }
{}

/// An accepted image means the store that is read off it, and no other.
pub fn means_one_store()
    ensures { MeansOneStore }
{}

/// Accepted images that mean one store hold the same chunk under each name.
pub fn stores_tell()
    ensures { StoresTell }
{}

/// An image whose manager's chunks are unchanged has the databases that it had.
pub fn stores_are_kept()
    ensures { StoresAreKept }
{}

/// A call of the memory manager leaves the databases that the heap had.
pub fn memory_calls_keep_stores()
    ensures { MemoryCallsKeepStores }
{}

/// A call of the memory manager is a step of the store.
pub fn memory_calls_are_store_steps()
    ensures { MemoryCallsAreStoreSteps }
{}

/// An image in which one database was rewritten has the others as they were.
pub fn stores_are_rewritten()
    ensures { StoresAreRewritten }
{}

/// An image to which a database was added has it after the others.
pub fn stores_are_appended()
    ensures { StoresAreAppended }
{}

/// An image from which a database was removed has the others.
pub fn stores_are_dropped()
    ensures { StoresAreDropped }
{}

/// The database with a number is found at any index.
pub fn databases_are_found()
    ensures { DatabasesAreFound }
{}

/// The database with a number is changed at its index.
pub fn databases_are_changed()
    ensures { DatabasesAreChanged }
{}

/// The database with a number is removed at its index.
pub fn databases_are_taken_out()
    ensures { DatabasesAreTakenOut }
{}

/// The chunk under a number determines whether it is the number of a database.
pub fn numbers_are_known()
    ensures { NumbersAreKnown }
{}

/// A database of an accepted image is sound, and is spelled under its number.
pub fn databases_are_sound()
    ensures { DatabasesAreSound }
{}

/// An image that has some databases means the store of these.
pub fn databases_are_stores()
    ensures { DatabasesAreStores }
{}

/// An image in which one database was rewritten means the store with that one changed.
pub fn sets_are_steps()
    ensures { SetsAreSteps }
{}

/// An image to which a database was added means the store with that database added.
pub fn creates_are_steps()
    ensures { CreatesAreSteps }
{}

/// An image from which a database was removed means the store without that database.
pub fn drops_are_steps()
    ensures { DropsAreSteps }
{}

/// An image that holds what it held means the store that it meant.
pub fn refusals_are_steps()
    ensures { RefusalsAreSteps }
{}

/// An image in which one database and some chunks were edited means the store with these changed.
pub fn edits_are_steps()
    ensures { EditsAreSteps }
{}

/// An image to which an entry was added, with its data, means the store with that entry added.
pub fn makes_are_steps()
    ensures { MakesAreSteps }
{}

/// An image in which one database became another, with the same data, means the store with that
/// database changed.
pub fn respells_are_steps()
    ensures { RespellsAreSteps }
{}

/// An image in which one chunk for data was changed means the store with the new chunk.
pub fn chunks_are_steps()
    ensures { ChunksAreSteps }
{}

/// A call of one part runs out of room exactly if the image is short of that part.
pub fn one_part_is_short()
    ensures { OnePartIsShort }
{}

/// A call can run out of room if it makes one chunk and then finds no room for another to grow.
pub fn made_then_short()
    ensures { MadeThenShort }
{}
