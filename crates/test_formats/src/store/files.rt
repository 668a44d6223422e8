//! The definitions of files, tried on some: what is read from each, and what is written of it.

ghost use Rattle.std.specs.Prelude.{◌≡◌, ◌++◌, ℕ, List, [], ◌∷◌, replicate, codes, Some, None};
ghost use Rattle.heap_model.specs.Database.{a_record, a_resource, name_in, database_in};
ghost use Rattle.heap_model.specs.Store.{unique_ids};
ghost use Rattle.heap_model.specs.Files.{blocks_in, kept_ids, HaveIds, Reads, file_of};
ghost use Rattle.test_formats.specs.Files.{header, sample_header, empty_file, order_file, order_written, ids_file, resource_file, backward_file, odd_file, noisy_name};

/// Blocks end where the next begins; of those at one offset all but the last are empty.
fn blocks_are_read()
    ensures none { blocks_in empty_file ≡ None ∷ None ∷ [] }
    ensures order { blocks_in order_file
        ≡ None ∷ None ∷ Some [] ∷ Some (replicate 4 0x42) ∷ Some (replicate 4 0x43) ∷ [] }
    ensures end { blocks_in ids_file ≡ None ∷ None ∷ Some [] ∷ Some [] ∷ [] }
    ensures resources { blocks_in resource_file
        ≡ None ∷ None ∷ Some (0x48 ∷ 0x69 ∷ 0 ∷ []) ∷ Some (0x59 ∷ 0x6F ∷ 0 ∷ []) ∷ [] }
    ensures none_empty { blocks_in backward_file
        ≡ Some (7 ∷ []) ∷ Some (5 ∷ 6 ∷ []) ∷ Some (3 ∷ 4 ∷ []) ∷ Some (1 ∷ 2 ∷ []) ∷ [] }
    ensures odd { blocks_in (odd_file 124)
        ≡ Some [] ∷ Some [] ∷ Some (5 ∷ 6 ∷ 7 ∷ 8 ∷ 9 ∷ 10 ∷ []) ∷ Some (1 ∷ 2 ∷ []) ∷ None ∷ Some []
        ∷ Some (3 ∷ 4 ∷ []) ∷ [] }
    ensures apart { blocks_in (odd_file 126)
        ≡ Some [] ∷ Some (7 ∷ 8 ∷ 9 ∷ 10 ∷ []) ∷ Some (5 ∷ 6 ∷ []) ∷ Some (1 ∷ 2 ∷ []) ∷ None ∷ Some []
        ∷ Some (3 ∷ 4 ∷ []) ∷ [] }
{}

/// The first use of an ID is kept, also where a record before it has none.
fn ids_are_kept()
    ensures order { kept_ids [] (0 ∷ 5 ∷ 5 ∷ []) ≡ 5 ∷ [] }
    ensures thrice { kept_ids [] (7 ∷ 7 ∷ 7 ∷ 0 ∷ 0 ∷ []) ≡ 7 ∷ [] }
    ensures later { kept_ids [] (0 ∷ 1 ∷ []) ≡ 1 ∷ [] }
    ensures behind { HaveIds 0 (0 ∷ 1 ∷ []) (2 ∷ 1 ∷ []) 2 }
    ensures all_kept { HaveIds 0xFFFFFE (0xFFFFFF ∷ 1 ∷ []) (0xFFFFFF ∷ 1 ∷ []) 0xFFFFFE }
    ensures around { HaveIds 0xFFFFFF (7 ∷ 7 ∷ 7 ∷ 0 ∷ 0 ∷ []) (7 ∷ 1 ∷ 2 ∷ 3 ∷ 4 ∷ []) 4 }
    ensures resources { unique_ids (database_in resource_file) ≡ [] }
{}

/// A name is what stands before the first zero among 31 bytes.
fn names_are_read()
    ensures no_zero { name_in (odd_file 124) ≡ replicate 31 0x41 }
    ensures behind_zero { name_in noisy_name ≡ 0x41 ∷ [] }
{}

/// The files read as these.
fn files_are_read()
    ensures empty { Reads empty_file
        (record { header = sample_header (codes "Empty") 0; app_info = None; sort_info = None; entries = [] }) }
    ensures order { Reads order_file
        (record {
          header = sample_header (codes "Order") 2;
          app_info = None;
          sort_info = None;
          entries = a_record 0 1 (Some []) ∷ a_record 3 5 (Some (replicate 4 0x42)) ∷ a_record 0 2 (Some (replicate 4 0x43)) ∷ [];
        }) }
{}

/// The file of a database: two zeros follow the entries, and no record is busy.
fn files_are_written()
    ensures empty { file_of
        (record { header = sample_header (codes "Empty") 0; app_info = None; sort_info = None; entries = [] })
        ≡ empty_file ++ 0 ∷ 0 ∷ [] }
    ensures order { file_of
        (record {
          header = sample_header (codes "Order") 2;
          app_info = None;
          sort_info = None;
          entries = a_record 0 1 (Some []) ∷ a_record 3 5 (Some (replicate 4 0x42)) ∷ a_record 0x20 2 (Some (replicate 4 0x43)) ∷ [];
        })
        ≡ order_written }
    ensures blocks { file_of
        (record {
          header = sample_header (0x41 ∷ []) 0;
          app_info = Some (1 ∷ 2 ∷ []);
          sort_info = Some [];
          entries = a_record 0xA0 9 None ∷ a_record 0 8 (Some (3 ∷ [])) ∷ [];
        })
        ≡ header (0x41 ∷ []) 0 96 98 0x44415441 0 2 ++ 0 ∷ 0 ∷ 0 ∷ 0 ∷ 0x80 ∷ 0 ∷ 0 ∷ 9 ∷ 0 ∷ 0 ∷ 0 ∷ 98 ∷ 0 ∷ 0 ∷ 0 ∷ 8 ∷ 0 ∷ 0 ∷ 1 ∷ 2 ∷ 3 ∷ [] }
{}

/// The file of a database of resources.
fn resources_are_written()
    ensures { file_of
        (record {
          header = record (sample_header (codes "Tiny") 0) { attributes = 1; version = 1; kind = 0x6170706C };
          app_info = None;
          sort_info = None;
          entries = a_resource 0x74535452 1000 (Some (0x48 ∷ 0x69 ∷ 0 ∷ [])) ∷ a_resource 0x74535452 1001 (Some (0x59 ∷ 0x6F ∷ 0 ∷ [])) ∷ [];
        })
        ≡ resource_file }
{}

/// What the functions above promise is proved, and they run to their end.
#[test]
fn definitions_of_files_are_tried() {
    blocks_are_read();
    ids_are_kept();
    names_are_read();
    files_are_read();
    files_are_written();
    resources_are_written();
}
