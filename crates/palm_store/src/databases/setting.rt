//! Setting of the header of a database.

ghost use Rattle.std.specs.Prelude.{◌≡◌};
ghost use Rattle.heap_model.specs.DatabaseSteps.{header_set};
ghost use Rattle.db_format.specs.Headers as headers;
ghost use Rattle.palm_store.specs.HeaderInfos.{KeepsEntries};

use bitflags::Flags;
use db_format::{DbAttrs, DbHeader, NameField};
use heap_model::DbInfo;

/// Returns a header with the fields of an info, and with this name.
pub(crate) fn with_info(header: DbHeader, name: NameField, info: &DbInfo) -> DbHeader
    requires { name ≡ info.now.name }
    ensures set { headers.header_values result ≡ header_set info.now (headers.header_values header) }
    ensures keeps { KeepsEntries header result }
{
    let attributes = DbAttrs(info.attributes).with_kind_of(DbAttrs(header.attributes));
    DbHeader {
        name,
        attributes: attributes.bits(),
        version: info.version,
        creation_date: info.creation_date,
        modification_date: info.modification_date,
        backup_date: info.backup_date,
        modification_number: header.modification_number.wrapping_add(1),
        kind: info.kind,
        creator: info.creator,
        ..header
    }
}
