//! A live chunk that was found.

ghost use Rattle.std.specs.Prelude.{◌≡◌, ◌<◌, ◌^◌};
ghost use Rattle.heap_place.specs.Found.{found_if_movable, found_if_fixed};

use chunk_format::{FIXED_LOCK, Header, MANAGERS_OWNER};
use heap_model::{Name, Place};

/// A live chunk: its name, its lock (15 if it is fixed), its owner, and the place and the length of
/// its body in bytes. The fields have this order so that the place stays one word: a `Result` of a
/// chunk or a `Refusal` is copied by the fields of both, and a refusal has two bytes after its first
/// word.
#[derive(Clone, Copy, Debug, PartialEq, Eq)]
pub struct Found {
    pub name: Name,
    pub lock: u8,
    pub owner: u8,
    pub place: Place,
    pub length: u32,
}

/// Returns the chunk whose body is at a place, if its header is a movable one's.
#[inline]
pub fn as_movable(header: Header, place: Place) -> Option<Found>
    ensures { result ≡ found_if_movable header place }
{
    match header {
        Header::Movable {
            length,
            lock,
            owner,
            slot,
        } => Some(Found {
            name: Name(slot),
            place,
            length,
            lock,
            owner,
        }),
        _ => None,
    }
}

/// Returns the chunk of this name whose body is at a place, if its header is a fixed one's. A table
/// is not returned.
#[inline]
pub fn as_fixed(header: Header, place: Place, name: Name) -> Option<Found>
    ensures { result ≡ found_if_fixed header place name }
{
    match header {
        Header::Fixed { length, owner } if place.0 == name.0 && owner > MANAGERS_OWNER => Some(
            Found {
                name,
                place,
                length,
                lock: FIXED_LOCK,
                owner,
            },
        ),
        _ => None,
    }
}
