//! What a file looks like, which numbers are allowed at its fault, and what is wrong with a line of
//! the text that `pack` reads.

ghost use Rattle.file_parts.specs.Either.{HasFolderParts};

use canonical_file::{dropped_filler, dropped_name};
use command_files::{input_name, report_line_hint, suggest_check};
use file_listing::damage_of;
use file_parts::{ListedFolder, PackFault, read_folder};
use heap_model::Bytes;
use hints::{
    MAC_HEADER_SIZE, looks_like_image, looks_like_mac, looks_like_page, parts_hint, without_returns,
};
use pdb_format::{FileBytes, MOST_FILE_BYTES, check_bytes, check_file};
use program_io::{MOST_INPUT, Status};

/// What a rewrite drops of a file, and how that is reported.
#[derive(Clone, Copy)]
pub(crate) struct Dropped {
    /// Whether it drops filler.
    filler: bool,
    /// The end of each line: whether bytes were dropped, or would be.
    end: &'static str,
}

/// After a rewrite.
pub(crate) const DROPPED: Dropped = Dropped {
    filler: true,
    end: "dropped",
};

/// If nothing is rewritten.
pub(crate) const WOULD_BE_DROPPED: Dropped = Dropped {
    filler: true,
    end: "that a rewrite drops",
};

impl Dropped {
    /// The same, for a rewrite that keeps filler.
    pub(crate) fn but_filler(self) -> Dropped {
        Dropped {
            filler: false,
            end: self.end,
        }
    }
}

/// Reports on standard error how many bytes of a file a rewrite drops. It reports nothing if the
/// command isn't done. It checks the file again, but sorts and allocates nothing.
pub(crate) fn name_dropped<R: Eprint, B: FileBytes>(
    rt: &R,
    path: &str,
    status: Status,
    file: &B,
    dropped: Dropped,
) {
    if status != Status::Done {
        return;
    }
    let Ok(()) = check_bytes(file) else {
        return;
    };
    if dropped.filler {
        name_count(rt, path, "filler", dropped_filler(file), dropped.end);
    }
    name_count(rt, path, "after the name", dropped_name(file), dropped.end);
}

/// Reports how many bytes of a part of a file a rewrite drops, if there are any.
fn name_count<R: Eprint>(rt: &R, path: &str, part: &str, count: usize, end: &str) {
    if count > 0 {
        let name = input_name(path);
        let _ = eprintln!(rt; "{name}: {part}, {count} bytes {end}");
    }
}

/// Reports the same as `name_dropped` for each of some files that were rewritten.
pub fn name_each_dropped<R: Eprint>(rt: &R, paths: &[&str], status: Status, files: &[Bytes]) {
    for (path, file) in paths.iter().zip(files) {
        name_dropped(rt, path, status, &file.as_slice(), DROPPED);
    }
}

/// Reports the same as `suggest_check`, and the same as `comment_on_damage` if the file was refused.
pub(crate) fn comment_on_file<R: Eprint + AllocGlobal, B: FileBytes>(
    rt: &R,
    path: &str,
    status: Status,
    file: &B,
) {
    suggest_check(rt, path, status, file.start());
    if status == Status::Refused {
        comment_on_damage(rt, path, file);
    }
}

/// If a file with a fault was salvaged, reports what a transfer may have made of the file, since that
/// can be undone.
pub(crate) fn comment_on_salvage<R: Eprint + AllocGlobal, B: FileBytes>(
    rt: &R,
    path: &str,
    status: Status,
    file: &B,
) {
    if status == Status::Done && !looks_like_image(file.start()) && check_bytes(file).is_err() {
        name_transfer(rt, path, file);
    }
}

/// Reports the number at the first fault of a file, the numbers that are allowed there, and what a
/// transfer may have made of the file. It reports nothing if the file has no fault, looks like an
/// image, or is longer than all files that are read.
pub fn comment_on_damage<R: Eprint + AllocGlobal, B: FileBytes>(rt: &R, path: &str, file: &B) {
    if file.size() > MOST_FILE_BYTES || looks_like_image(file.start()) {
        return;
    }
    if let Err(fault) = check_bytes(file) {
        let damage = damage_of(file, fault);
        let _ = eprintln!(rt; "{}: {damage}", input_name(path));
        name_transfer(rt, path, file);
    }
}

/// Reports what a transfer may have made of a file.
fn name_transfer<R: Eprint + AllocGlobal, B: FileBytes>(rt: &R, path: &str, file: &B) {
    let name = input_name(path);
    if looks_like_page(file.start()) {
        let _ = eprintln!(rt;
            "{name} looks like a web page: a server sent it in place of the file"
        );
    } else if looks_like_mac(file.start()) {
        let _ = eprintln!(rt;
            "{name} begins with {MAC_HEADER_SIZE} bytes of MacBinary: 'tail -c +129' gives the file after them"
        );
    } else if is_converted(rt, file) {
        let _ = eprintln!(rt;
            "{name} was transferred as text, with a byte 0d before each 0a: 'perl -pe \"s/\\r\\n/\\n/\"' undoes it"
        );
    }
}

/// Returns whether a file of at most `MOST_INPUT` bytes is what a transfer as text makes of a file
/// without a fault. If an allocation fails, or if not all bytes of the file were read, it returns
/// `false`.
fn is_converted<R: AllocGlobal, B: FileBytes>(rt: &R, file: &B) -> bool {
    let bytes = file.start();
    if file.size() > MOST_INPUT || bytes.len() < file.size() {
        return false;
    }
    match without_returns(&rt.alloc(), bytes) {
        Ok(Some(original)) => check_file(original.as_slice()).is_ok(),
        Ok(None) | Err(_) => false,
    }
}

/// Reports on standard error what is wrong with the faulty line of the text at a path that `pack`
/// read, if it was refused.
pub(crate) fn comment_on_text<R: Eprint + AllocGlobal>(
    rt: &R,
    path: &str,
    status: Status,
    text: &[u8],
) {
    if status != Status::Refused {
        return;
    }
    let Err(fault) = read_folder(&rt.alloc(), text) else {
        return;
    };
    if let Some(hint) = parts_hint(text, fault) {
        report_line_hint(rt, path, fault.line, hint);
    }
}

/// Reports on standard error why a line `order` of the text at a path can't be kept, if `pack` was
/// refused for that. It lays the file out again to find the line.
pub(crate) fn comment_on_order<R: Eprint + AllocGlobal>(
    rt: &R,
    path: &str,
    status: Status,
    listed: &ListedFolder<'_>,
    parts: &[Bytes],
)
    requires { HasFolderParts listed.now parts.now }
{
    if status != Status::Refused {
        return;
    }
    if let Err(PackFault::BadLine(fault)) = listed.pack(&rt.alloc(), parts) {
        let _ = eprintln!(rt;
            "{path}:{}: this block has no bytes, so no block that is earlier in the list can come next",
            fault.line
        );
    }
}
