//! Which outcomes lists of calls must have met.

use heap_model::{FileFault, Refusal, Which};

/// Each call with the refusals that it must have met, besides being accepted. That there are too
/// many databases or records has tests of its own; a heap has too few slots for too many resources.
pub const OUTCOMES: [(&str, &[Refusal]); 63] = [
    (
        "handle_new",
        &[Refusal::InvalidOwner, Refusal::NotEnoughSpace],
    ),
    ("ptr_new", &[Refusal::InvalidOwner, Refusal::NotEnoughSpace]),
    (
        "free",
        &[
            Refusal::InvalidHandle,
            Refusal::OwnedByDatabase,
            Refusal::ChunkLocked,
        ],
    ),
    (
        "lock",
        &[
            Refusal::InvalidHandle,
            Refusal::ChunkFixed,
            Refusal::LockOverflow,
        ],
    ),
    (
        "unlock",
        &[
            Refusal::InvalidHandle,
            Refusal::ChunkFixed,
            Refusal::ChunkNotLocked,
        ],
    ),
    ("size", &[Refusal::InvalidHandle]),
    ("owner", &[Refusal::InvalidHandle]),
    ("locks", &[Refusal::InvalidHandle]),
    ("read", &[Refusal::InvalidHandle, Refusal::OutOfBounds]),
    ("write", &WRITES),
    ("set", &WRITES),
    ("str_copy", &WRITES),
    (
        "resize",
        &[
            Refusal::InvalidHandle,
            Refusal::OwnedByDatabase,
            Refusal::ChunkFixed,
            Refusal::ChunkLocked,
            Refusal::NotEnoughSpace,
        ],
    ),
    (
        "set_owner",
        &[
            Refusal::InvalidHandle,
            Refusal::OwnedByDatabase,
            Refusal::InvalidOwner,
        ],
    ),
    ("recover", &[Refusal::InvalidHandle]),
    ("free_by_owner", &[Refusal::InvalidOwner]),
    ("free_bytes", &[]),
    ("largest_stretch", &[]),
    ("compact", &[]),
    ("more_slots", &[Refusal::NotEnoughSpace]),
    (
        "create",
        &[
            Refusal::InvalidName,
            Refusal::AlreadyExists,
            Refusal::NotEnoughSpace,
        ],
    ),
    ("delete", &[Refusal::NoSuchDatabase, Refusal::ChunkLocked]),
    ("find", &[Refusal::NoSuchDatabase]),
    ("nth", &[Refusal::NoSuchDatabase]),
    ("count", &[]),
    ("info", &[Refusal::NoSuchDatabase]),
    (
        "set_info",
        &[
            Refusal::NoSuchDatabase,
            Refusal::InvalidName,
            Refusal::AlreadyExists,
        ],
    ),
    (
        "set_info_block",
        &[
            Refusal::NoSuchDatabase,
            Refusal::ReadOnly,
            Refusal::AlreadyExists,
            Refusal::InvalidHandle,
            Refusal::OwnedByDatabase,
            Refusal::ChunkFixed,
        ],
    ),
    (
        "take_info_block",
        &[
            Refusal::NoSuchDatabase,
            Refusal::ReadOnly,
            Refusal::NoInfoBlock,
            Refusal::InvalidOwner,
        ],
    ),
    (
        "info_block",
        &[Refusal::NoSuchDatabase, Refusal::NoInfoBlock],
    ),
    (
        "new_record",
        &[
            Refusal::NoSuchDatabase,
            Refusal::NotRecordDatabase,
            Refusal::ReadOnly,
            Refusal::NotEnoughSpace,
        ],
    ),
    (
        "delete_record",
        &[
            Refusal::NoSuchDatabase,
            Refusal::NotRecordDatabase,
            Refusal::ReadOnly,
            Refusal::IndexOutOfRange,
            Refusal::RecordDeleted,
            Refusal::ChunkLocked,
        ],
    ),
    (
        "archive",
        &[
            Refusal::NoSuchDatabase,
            Refusal::NotRecordDatabase,
            Refusal::ReadOnly,
            Refusal::IndexOutOfRange,
            Refusal::RecordDeleted,
        ],
    ),
    (
        "remove",
        &[
            Refusal::NoSuchDatabase,
            Refusal::NotRecordDatabase,
            Refusal::ReadOnly,
            Refusal::IndexOutOfRange,
            Refusal::ChunkLocked,
        ],
    ),
    (
        "move_record",
        &[
            Refusal::NoSuchDatabase,
            Refusal::NotRecordDatabase,
            Refusal::ReadOnly,
            Refusal::IndexOutOfRange,
        ],
    ),
    (
        "get",
        &[
            Refusal::NoSuchDatabase,
            Refusal::NotRecordDatabase,
            Refusal::IndexOutOfRange,
            Refusal::RecordDeleted,
            Refusal::RecordBusy,
        ],
    ),
    (
        "query",
        &[
            Refusal::NoSuchDatabase,
            Refusal::NotRecordDatabase,
            Refusal::IndexOutOfRange,
            Refusal::RecordDeleted,
        ],
    ),
    ("release", &ASKED),
    ("record_info", &ASKED),
    (
        "resize_record",
        &[
            Refusal::NoSuchDatabase,
            Refusal::NotRecordDatabase,
            Refusal::ReadOnly,
            Refusal::IndexOutOfRange,
            Refusal::RecordDeleted,
            Refusal::ChunkLocked,
            Refusal::NotEnoughSpace,
        ],
    ),
    (
        "num_records",
        &[Refusal::NoSuchDatabase, Refusal::NotRecordDatabase],
    ),
    (
        "attach",
        &[
            Refusal::NoSuchDatabase,
            Refusal::NotRecordDatabase,
            Refusal::ReadOnly,
            Refusal::InvalidHandle,
            Refusal::OwnedByDatabase,
            Refusal::ChunkFixed,
            Refusal::NotEnoughSpace,
        ],
    ),
    (
        "attach_replacing",
        &[
            Refusal::NoSuchDatabase,
            Refusal::NotRecordDatabase,
            Refusal::ReadOnly,
            Refusal::IndexOutOfRange,
            Refusal::RecordDeleted,
            Refusal::InvalidHandle,
            Refusal::OwnedByDatabase,
            Refusal::ChunkFixed,
            Refusal::InvalidOwner,
        ],
    ),
    (
        "detach",
        &[
            Refusal::NoSuchDatabase,
            Refusal::NotRecordDatabase,
            Refusal::ReadOnly,
            Refusal::IndexOutOfRange,
            Refusal::RecordDeleted,
            Refusal::InvalidOwner,
        ],
    ),
    (
        "set_record_info",
        &[
            Refusal::NoSuchDatabase,
            Refusal::NotRecordDatabase,
            Refusal::ReadOnly,
            Refusal::IndexOutOfRange,
            Refusal::DuplicateId,
        ],
    ),
    (
        "find_by_id",
        &[
            Refusal::NoSuchDatabase,
            Refusal::NotRecordDatabase,
            Refusal::UniqueIdNotFound,
        ],
    ),
    (
        "num_in_category",
        &[
            Refusal::NoSuchDatabase,
            Refusal::NotRecordDatabase,
            Refusal::InvalidCategory,
        ],
    ),
    ("next_in_category", &COUNTED),
    ("position_in_category", &COUNTED),
    (
        "move_category",
        &[
            Refusal::NoSuchDatabase,
            Refusal::NotRecordDatabase,
            Refusal::ReadOnly,
            Refusal::InvalidCategory,
        ],
    ),
    (
        "delete_category",
        &[
            Refusal::NoSuchDatabase,
            Refusal::NotRecordDatabase,
            Refusal::ReadOnly,
            Refusal::InvalidCategory,
            Refusal::ChunkLocked,
        ],
    ),
    (
        "new_resource",
        &[
            Refusal::NoSuchDatabase,
            Refusal::NotResourceDatabase,
            Refusal::ReadOnly,
            Refusal::NotEnoughSpace,
        ],
    ),
    (
        "attach_resource",
        &[
            Refusal::NoSuchDatabase,
            Refusal::NotResourceDatabase,
            Refusal::ReadOnly,
            Refusal::InvalidHandle,
            Refusal::OwnedByDatabase,
            Refusal::ChunkFixed,
            Refusal::NotEnoughSpace,
        ],
    ),
    (
        "detach_resource",
        &[
            Refusal::NoSuchDatabase,
            Refusal::NotResourceDatabase,
            Refusal::ReadOnly,
            Refusal::IndexOutOfRange,
            Refusal::InvalidOwner,
        ],
    ),
    (
        "remove_resource",
        &[
            Refusal::NoSuchDatabase,
            Refusal::NotResourceDatabase,
            Refusal::ReadOnly,
            Refusal::IndexOutOfRange,
            Refusal::ChunkLocked,
        ],
    ),
    (
        "resize_resource",
        &[
            Refusal::NoSuchDatabase,
            Refusal::NotResourceDatabase,
            Refusal::ReadOnly,
            Refusal::IndexOutOfRange,
            Refusal::ChunkLocked,
            Refusal::NotEnoughSpace,
        ],
    ),
    (
        "resource_info",
        &[
            Refusal::NoSuchDatabase,
            Refusal::NotResourceDatabase,
            Refusal::IndexOutOfRange,
        ],
    ),
    (
        "set_resource_info",
        &[
            Refusal::NoSuchDatabase,
            Refusal::NotResourceDatabase,
            Refusal::ReadOnly,
            Refusal::IndexOutOfRange,
        ],
    ),
    ("find_resource", &SEARCHED),
    ("find_type", &SEARCHED),
    (
        "num_resources",
        &[Refusal::NoSuchDatabase, Refusal::NotResourceDatabase],
    ),
    (
        "import",
        &[
            Refusal::BadFile(FileFault::Truncated),
            Refusal::BadFile(FileFault::ChainedList),
            Refusal::BadFile(FileFault::EmptyName),
            Refusal::BadFile(FileFault::BadInfo(Which::App)),
            Refusal::BadFile(FileFault::BadInfo(Which::Sort)),
            Refusal::BadFile(FileFault::BadOffset(0)),
            Refusal::BadFile(FileFault::BadOffset(3)),
            Refusal::AlreadyExists,
            Refusal::NotEnoughSpace,
        ],
    ),
    ("export", &[Refusal::NoSuchDatabase]),
];

const SEARCHED: [Refusal; 3] = [
    Refusal::NoSuchDatabase,
    Refusal::NotResourceDatabase,
    Refusal::ResourceNotFound,
];

const COUNTED: [Refusal; 4] = [
    Refusal::NoSuchDatabase,
    Refusal::NotRecordDatabase,
    Refusal::InvalidCategory,
    Refusal::IndexOutOfRange,
];

const ASKED: [Refusal; 3] = [
    Refusal::NoSuchDatabase,
    Refusal::NotRecordDatabase,
    Refusal::IndexOutOfRange,
];

const WRITES: [Refusal; 3] = [
    Refusal::InvalidHandle,
    Refusal::ChunkNotLocked,
    Refusal::OutOfBounds,
];
