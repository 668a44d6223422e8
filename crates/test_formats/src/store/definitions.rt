//! The definitions of databases, tried on images: what is read off them, and which parts of the
//! definition of an accepted image a changed one breaks.
//!
//! The parts are counted in their order:
//!
//! | part | says |
//! |---|---|
//! | 0 | the image is an accepted heap |
//! | 1, 2, 3 | the directory has whole words, few enough, each once |
//! | 4 | under each is a chunk of owner 0 other than the directory |
//! | 5, 6 | what is read there can be spelled, and the bytes spell it |
//! | 7, 8 | info blocks and entries have their data in chunks of owner 15 |
//! | 9, 10 | no record has the ID 0, or that of another |
//! | 11 | no database has the name of another |
//! | 12 | each chunk of owner 15 is named once |
//! | 13 | each chunk of owner 0 is the directory or listed in it |

ghost use Rattle.std.specs.Prelude.{◌≡◌, ℕ, List, [], ◌∷◌, replicate, map, Some, None};
ghost use Rattle.heap_model.specs.Maps.{callers_map};
ghost use Rattle.heap_model.specs.Space.{rooms};
ghost use Rattle.heap_model.specs.Lists.{moved};
ghost use Rattle.heap_model.specs.Database.{a_record, a_resource};
ghost use Rattle.heap_model.specs.UniqueIds.{next_id, id_behind, seed_in, with_seed, IsFresh};
ghost use Rattle.heap_model.specs.Store.{content, listed, databases, named, names_of};
ghost use Rattle.heap_model.specs.Rooms.{stretch_of, makes, grows, Stuck};
ghost use Rattle.test_formats.specs.HeapImages.{database_image};
ghost use Rattle.test_formats.specs.StoreImages.{changed_image, resource_image, two_databases, two_rooms, broken};

/// A database of records, with the chunks that callers may name.
fn records_are_read()
    ensures accepted { broken database_image ≡ [] }
    ensures listed { listed database_image ≡ 0x14 ∷ [] }
    ensures databases { databases database_image ≡ record {
      db = 0x14;
      database = record {
        header = record { name = 0x52 ∷ []; attributes = 0; version = 0; creation_date = 0; modification_date = 0; backup_date = 0; modification_number = 0; kind = 0x44415441; creator = 0x54657374; seed = 2 };
        app_info = 0;
        sort_info = 0;
        entries = a_record 0 1 0x18 ∷ a_record 0 2 0x1C ∷ [];
      };
    } ∷ [] }
    ensures named { named database_image ≡ 0 ∷ 0 ∷ 0x18 ∷ 0x1C ∷ [] }
    ensures data { callers_map database_image 0x18
        ≡ Some (record { bytes = replicate 8 0x41; lock = 0; owner = 15 }) }
    ensures header { callers_map database_image 0x14 ≡ None }
    ensures stretch { stretch_of database_image 0x1C ≡ 0 }
{}

/// A database of resources.
fn resources_are_read()
    ensures accepted { broken resource_image ≡ [] }
    ensures entries { map (λ one. one.database.entries) (databases resource_image)
        ≡ (a_resource 0x74535452 1000 0x18 ∷ []) ∷ [] }
    ensures content { map (λ one. (content (callers_map resource_image) one.database).entries)
        (databases resource_image)
        ≡ (a_resource 0x74535452 1000 (Some (0x48 ∷ 0x69 ∷ [])) ∷ []) ∷ [] }
    ensures no_block { map (λ one. (content (callers_map resource_image) one.database).app_info)
        (databases resource_image)
        ≡ None ∷ [] }
    ensures attributes { map (λ one. one.database.header.attributes) (databases resource_image)
        ≡ 1 ∷ [] }
    ensures data { callers_map resource_image 0x18
        ≡ Some (record { bytes = 0x48 ∷ 0x69 ∷ []; lock = 0; owner = 15 }) }
{}

/// Two databases, in the order of the directory.
fn two_databases_are_read()
    ensures accepted { broken (two_databases 0x10 0x14 0x18 0x41 0x42) ≡ [] }
    ensures names { names_of (databases (two_databases 0x10 0x14 0x18 0x41 0x42))
        ≡ (0x41 ∷ []) ∷ (0x42 ∷ []) ∷ [] }
    ensures other_order { names_of (databases (two_databases 0x10 0x18 0x14 0x41 0x42))
        ≡ (0x42 ∷ []) ∷ (0x41 ∷ []) ∷ [] }
    ensures none { listed two_rooms ≡ [] }
{}

/// Each part that has a small image which breaks it alone. (None has a header listed twice and is
/// right otherwise, since then two databases have a name; and more than 1,024 headers take a large
/// image.)
fn parts_break_alone()
    ensures half_a_word { broken (changed_image 48 (3 ∷ [])) ≡ 1 ∷ [] }
    ensures header_of_owner_1 { broken (changed_image 68 (1 ∷ [])) ≡ 4 ∷ [] }
    ensures no_name { broken (changed_image 72 (0 ∷ [])) ≡ 5 ∷ [] }
    ensures name_of_32_bytes { broken (changed_image 72 (replicate 32 0x41)) ≡ 6 ∷ [] }
    ensures byte_behind_name { broken (changed_image 74 (0x41 ∷ [])) ≡ 6 ∷ [] }
    ensures chained_list { broken (changed_image 147 (1 ∷ [])) ≡ 6 ∷ [] }
    ensures info_is_a_header { broken (changed_image 127 (0x14 ∷ [])) ≡ 7 ∷ [] }
    ensures data_of_owner_1 { broken (changed_image 188 (1 ∷ [])) ≡ 8 ∷ [] }
    ensures id_is_zero { broken (changed_image 163 (0 ∷ 0 ∷ 0 ∷ [])) ≡ 9 ∷ [] }
    ensures id_is_anothers { broken (changed_image 163 (0 ∷ 0 ∷ 1 ∷ [])) ≡ 10 ∷ [] }
    ensures name_is_anothers { broken (two_databases 0x10 0x14 0x18 0x41 0x41) ≡ 11 ∷ [] }
    ensures data_is_shared { broken (changed_image 158 (0 ∷ 0 ∷ 0 ∷ 0x18 ∷ [])) ≡ 12 ∷ [] }
    ensures data_is_stray { broken (changed_image 158 (0 ∷ 0 ∷ 0 ∷ 0 ∷ 0x80 ∷ [])) ≡ 12 ∷ [] }
    ensures header_is_stray { broken (two_databases 0x04000010 0x14 0x18 0x41 0x42) ≡ 13 ∷ [] }
{}

/// Changes that break several parts.
fn parts_break_together()
    ensures directory_lists_itself { broken (changed_image 59 (0x10 ∷ [])) ≡ 4 ∷ 5 ∷ 6 ∷ 12 ∷ 13 ∷ [] }
    ensures an_entry_too_many { broken (changed_image 149 (3 ∷ [])) ≡ 6 ∷ 8 ∷ 9 ∷ [] }
    ensures data_is_a_header { broken (changed_image 158 (0 ∷ 0 ∷ 0 ∷ 0x14 ∷ [])) ≡ 8 ∷ 12 ∷ [] }
    ensures no_data { broken (changed_image 158 (0 ∷ 0 ∷ 0 ∷ 0 ∷ [])) ≡ 8 ∷ 12 ∷ [] }
    ensures no_directory { broken (changed_image 15 (0 ∷ [])) ≡ 12 ∷ 13 ∷ [] }
    ensures listed_twice { broken (two_databases 0x10 0x14 0x14 0x41 0x42) ≡ 3 ∷ 11 ∷ 13 ∷ [] }
{}

/// A record that is moved, by the IDs: its index is counted while it still stands where it was.
fn elements_are_moved()
    ensures back { moved {X = ℕ} (1 ∷ 2 ∷ 3 ∷ 4 ∷ []) 0 3 ≡ 2 ∷ 3 ∷ 1 ∷ 4 ∷ [] }
    ensures forward { moved {X = ℕ} (2 ∷ 3 ∷ 1 ∷ 4 ∷ []) 3 0 ≡ 4 ∷ 2 ∷ 3 ∷ 1 ∷ [] }
    ensures to_the_end { moved {X = ℕ} (4 ∷ 2 ∷ 3 ∷ 1 ∷ []) 0 4 ≡ 2 ∷ 3 ∷ 1 ∷ 4 ∷ [] }
    ensures behind_itself { moved {X = ℕ} (1 ∷ 2 ∷ 3 ∷ []) 1 2 ≡ 1 ∷ 2 ∷ 3 ∷ [] }
{}

/// The IDs after a seed go on from the greatest to 1.
fn ids_go_round()
    ensures first { next_id 0 ≡ 1 }
    ensures last { next_id 0xFFFFFE ≡ 0xFFFFFF }
    ensures round { next_id 0xFFFFFF ≡ 1 }
    ensures third { id_behind 0xFFFFFE 2 ≡ 2 }
    ensures fresh { IsFresh (0xFFFFFF ∷ 1 ∷ []) 0xFFFFFE 2 }
    ensures first_of_none { IsFresh [] 0 1 }
    ensures seed { seed_in 0x07FFFFFE ≡ 0xFFFFFE }
    ensures upper_bits_stay { with_seed 0x07FFFFFE 2 ≡ 0x07000002 }
{}

/// A room of 96 bytes has none of 16 left after a chunk of 88, and one of 88 next to one of 16 has
/// room for both.
fn rooms_run_out()
    ensures rooms { rooms two_rooms ≡ 88 ∷ 16 ∷ [] }
    ensures locked { stretch_of two_rooms 16 ≡ 2 }
    ensures stuck { Stuck (96 ∷ []) (makes 88 ∷ makes 16 ∷ []) }
    ensures not_stuck { Stuck (88 ∷ 16 ∷ []) (makes 88 ∷ makes 16 ∷ []) → ⊥ }
    ensures grown { Stuck (88 ∷ 16 ∷ []) (grows 0 16 104 ∷ []) → ⊥ }
    ensures not_grown { Stuck (88 ∷ 16 ∷ []) (grows 1 16 104 ∷ []) }
    ensures room_is_taken { Stuck (88 ∷ 16 ∷ []) (makes 16 ∷ grows 0 16 96 ∷ []) }
{}

/// What the functions above promise is proved, and they run to their end.
#[test]
fn definitions_are_tried() {
    records_are_read();
    resources_are_read();
    two_databases_are_read();
    parts_break_alone();
    parts_break_together();
    elements_are_moved();
    ids_go_round();
    rooms_run_out();
}
