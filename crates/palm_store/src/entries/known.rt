//! Unique IDs of a database that are known to be free.

ghost use Rattle.std.specs.Prelude.{◌≡◌};
ghost use Rattle.heap_model.specs.Store as stores;
ghost use Rattle.fresh_ids.specs.FreeIds.{AreFree};
ghost use Rattle.palm_store.specs.EntryInfos.{with_info};
ghost use Rattle.palm_store.specs.KnownIds.{ids_in, StandFree, GetsNone};

use crate::entries::infos::EntryInfo;
use fresh_ids::{FreeIds, NO_IDS};
use heap_model::Db;

/// Unique IDs that no record of a database has. If the next new record's ID is among them, no entry
/// is read for it.
#[derive(Clone, Copy)]
pub(crate) struct KnownIds {
    pub(crate) db: Db,
    pub(crate) ids: FreeIds,
}

/// No known IDs: for a new image, or one whose databases may have changed.
pub(crate) const NOTHING_KNOWN: KnownIds = KnownIds {
    db: Db(0),
    ids: NO_IDS,
};

impl KnownIds {
    /// Returns the IDs of one database.
    pub(crate) fn of(self, db: Db) -> FreeIds
        ensures free { (store : stores.Store) → StandFree store self → AreFree (ids_in store db) result }
        ensures all { self.db ≡ db → result ≡ self.ids }
    {
        if self.db.0 == db.0 { self.ids } else { NO_IDS }
    }
    /// Returns the IDs that are still free after an entry of any database gets these fields.
    pub(crate) fn without(self, info: EntryInfo) -> KnownIds
        ensures free { (store : stores.Store) → StandFree store self → StandFree store result }
        ensures none { GetsNone result (with_info info) }
    {
        match info {
            EntryInfo::Record { id, .. } => KnownIds {
                db: self.db,
                ids: self.ids.without(id),
            },
            EntryInfo::Resource { .. } => self,
        }
    }
}
