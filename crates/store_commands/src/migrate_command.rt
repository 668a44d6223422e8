//! The command `migrate`: an image gets a chain of tables.

ghost use Rattle.std.specs.Prelude.{[], ◌≡◌, ◌⊎◌, Err, IfOk, IfErr, OnOk, true, false};
ghost use Rattle.heap_model.specs.Store.{Accepted};
ghost use Rattle.heap_migration.specs.FaultNames.{migrate_fault_name};
ghost use Rattle.heap_migration.specs.Stores.{IsMigrated};
ghost use Rattle.image_commands.specs.FaultLines.{Says};
ghost use Rattle.palm_text.specs.Output.{output};
ghost use Rattle.program_io.specs.BadLines.{bad_line};
ghost use Rattle.store_commands.specs.Migrating.{EndsMigrate, PutsNotMigrated};
ghost use Rattle.allowance.specs.Refusals.{GrowthRefused};

use crate::images::{opened, put_store};
use allowance::Allowance;
use palm_store::{MigrateFault, Store};
use palm_text::Counted;
use program_io::command_line::Form;
use program_io::{Status, say, say_bad};
use raw_region::Region;
use std::alloc::Global;
use std::io::Write;

/// Turns an image into one with a chain of tables. Writes the new image to `image_out`, and then
/// `ok` to `out`. Writes an image that has a chain as it is.
///
/// If the image is refused, prints why on `out` and writes no image.
pub fn cmd_migrate<W: Write, V: Write>(
    alloc: Global,
    image: &[u8],
    image_out: &mut Counted<W>,
    out: &mut Counted<V>,
) -> Status
    ensures ends { EndsMigrate image.now (output W.contents image_out.old image_out.new)
        (output V.contents out.old out.new) result }
    ensures short { result ≡ Status.NoMemory → GrowthRefused }
{
    cmd_migrate_from(&alloc, image, image_out, out)
}

/// Does the same as `cmd_migrate`, with memory from an allowance.
pub fn cmd_migrate_from<A: Allowance, W: Write, V: Write>(
    memory: &A,
    image: &[u8],
    image_out: &mut Counted<W>,
    out: &mut Counted<V>,
) -> Status
    ensures ends { EndsMigrate image.now (output W.contents image_out.old image_out.new)
        (output V.contents out.old out.new) result }
    ensures short { result ≡ Status.NoMemory → A.is_short memory.now }
{
    match Region::copied_from(memory, image) {
        Ok(region) => migrate_region_from(memory, region, image_out, out),
        Err(_) => Status::NoMemory,
    }
}

/// Does the same as `cmd_migrate_from` for an image in a region.
pub fn migrate_region_from<A: Allowance, W: Write, V: Write>(
    memory: &A,
    region: Region,
    image_out: &mut Counted<W>,
    out: &mut Counted<V>,
) -> Status
    requires whole { region.lents ≡ [] }
    ensures ends { EndsMigrate region.bytes (output W.contents image_out.old image_out.new)
        (output V.contents out.old out.new) result }
    ensures short { result ≡ Status.NoMemory → A.is_short memory.now }
{
    let store = match migrated(memory, region, out) {
        Ok(store) => store,
        Err(status) => return status,
    };
    match put_store(image_out, &store) {
        Ok(()) => say(b"ok\n", Status::Done, out),
        Err(_) => Status::WriteFault,
    }
}

/// Returns the store with a chain of tables that the image's store becomes. If there is none,
/// prints why.
fn migrated<A: Allowance, V: Write>(
    memory: &A,
    region: Region,
    out: &mut Counted<V>,
) -> Result<Store, Status>
    requires whole { region.lents ≡ [] }
    ensures store { IfOk result (λ store. IsMigrated region.bytes store.bytes) }
    ensures whole { IfOk result (λ store. store.lents ≡ []) }
    ensures accepted { OnOk result (Accepted region.bytes) }
    ensures silent { OnOk result (out.new ≡ out.old) }
    ensures faults { IfErr result (λ status. (status ≡ Status.Refused)
        ⊎ (status ≡ Status.WriteFault) ⊎ (status ≡ Status.NoMemory)) }
    ensures said { result ≡ Err Status.Refused
        → PutsNotMigrated region.bytes (output V.contents out.old out.new) true }
    ensures write { result ≡ Err Status.WriteFault
        → PutsNotMigrated region.bytes (output V.contents out.old out.new) false }
    ensures no_memory { result ≡ Err Status.NoMemory → out.new ≡ out.old }
    ensures short { result ≡ Err Status.NoMemory → A.is_short memory.now }
{
    let store = opened(memory, region, Form::Text, out)?;
    match store.migrate_from(memory) {
        Ok(store) => Ok(store),
        Err((MigrateFault::OutOfMemory, _)) => Err(Status::NoMemory),
        Err((MigrateFault::TooLarge, _)) => Err(say_not_migrated(MigrateFault::TooLarge, out)),
        Err((MigrateFault::Lent, _)) => unreachable!(),
    }
}

/// Prints `bad` and the name of the reason why an image isn't migrated.
fn say_not_migrated<V: Write>(reason: MigrateFault, out: &mut Counted<V>) -> Status
    ensures { Says (output V.contents out.old out.new)
        (bad_line (migrate_fault_name reason)) Status.Refused result }
{
    say_bad(reason.name(), Status::Refused, out)
}
