//! Documents of images and of their databases, and of faults.

use crate::stores::image_of;
use heap_check::HeapFault;
use image_commands::{check_region_from, cmd_check, say_image_fault};
use palm_store::StoreFault;
use palm_text::Counted;
use program_io::Status;
use program_io::command_line::Form;
use raw_region::Region;
use std::alloc::Global;
use std::str;
use std::test::*;
use store_commands::cmd_databases;
use test_support::{BLANK, EMPTY_FILE, ONE_DATABASE, ORDER_FILE, TINY_FILE, bytes_of, equal};

/// Every fault of an image, except out of memory.
static FAULTS: [StoreFault; 20] = [
    StoreFault::Heap(HeapFault::TooShort),
    StoreFault::Heap(HeapFault::BadMagic),
    StoreFault::Heap(HeapFault::BadSize),
    StoreFault::Heap(HeapFault::BadSlotCount),
    StoreFault::Heap(HeapFault::BadReserved),
    StoreFault::Heap(HeapFault::BadPadding),
    StoreFault::Heap(HeapFault::BadChunk(32)),
    StoreFault::Heap(HeapFault::BadTable(1)),
    StoreFault::Heap(HeapFault::SlotMismatch(16)),
    StoreFault::Heap(HeapFault::ChunkWithoutSlot(4_294_967_295)),
    StoreFault::Heap(HeapFault::BadFixedOwner(40)),
    StoreFault::Heap(HeapFault::BadDirectory),
    StoreFault::BadDirectorySlot(2),
    StoreFault::BadHeader(0),
    StoreFault::BadEntry(3, 65_534),
    StoreFault::SharedChunk(20),
    StoreFault::StrayChunk(24),
    StoreFault::BadId(1, 2),
    StoreFault::BadName(5),
    StoreFault::SameName(6),
];

/// The document for a fault, from its text: the name, and the numbers behind it.
fn wanted(alloc: Global, fault: StoreFault) -> Result<String, Fail> {
    let text = format!(in alloc; "{fault}")?;
    let mut words = text.split_ascii_whitespace();
    let name = words.next().unwrap_or("");
    let mut document = format!(in alloc; "{{\"fault\":\"{name}\",\"numbers\":[")?;
    for number in words {
        if !document.ends_with('[') {
            write!(document, ",")?;
        }
        write!(document, "{number}")?;
    }
    write!(document, "]}}\n")?;
    Ok(document)
}

#[test]
fn documents_have_the_faults_of_texts(rt: HostRuntime) -> Result<(), Fail> {
    for fault in &FAULTS {
        let mut out = Counted::new(Vec::new(rt.alloc()));
        let status = say_image_fault(&mut out, *fault);
        equal("status", status, Status::Refused)?;
        let document = out.into_inner();
        equal(
            format_args!("{fault}"),
            str::from_utf8(&document)?,
            wanted(rt.alloc(), *fault)?.as_str(),
        )?;
    }
    Ok(())
}

/// Images, and their documents by hand.
static CHECKS: [(&str, Status, &str); 3] = [
    (
        BLANK,
        Status::Done,
        "{\"size\":128,\"slots\":4,\"movable\":0,\"fixed\":0,\"free\":96,\"databases\":0}\n",
    ),
    (
        "00",
        Status::Refused,
        "{\"fault\":\"TooShort\",\"numbers\":[]}\n",
    ),
    (
        "50484931 00*60",
        Status::Refused,
        "{\"fault\":\"BadSize\",\"numbers\":[]}\n",
    ),
];

fn checked_json(alloc: Global, image: &[u8]) -> (Status, Vec<u8>) {
    let mut out = Counted::new(Vec::new(alloc));
    let status = match Region::copied_from(&alloc, image) {
        Ok(region) => check_region_from(&alloc, &region, Form::Json, &mut out),
        Err(_) => Status::NoMemory,
    };
    (status, out.into_inner())
}

#[test]
fn images_have_their_documents(rt: HostRuntime) -> Result<(), Fail> {
    for (image, status, document) in &CHECKS {
        let (found, text) = checked_json(rt.alloc(), &bytes_of(rt.alloc(), image)?);
        equal(*image, found, *status)?;
        equal(*image, str::from_utf8(&text)?, *document)?;
    }
    Ok(())
}

/// The lines of a document of counts, as `check` prints them.
fn lines_of(alloc: Global, document: &str) -> Result<String, Fail> {
    let mut lines = String::from_str(alloc, "ok")?;
    for fact in document.split(',') {
        let mut halves = fact.split("\":");
        let (name, number) = (halves.next().unwrap_or(""), halves.next().unwrap_or(""));
        let name = name.trim_start_matches('{').trim_start_matches('"');
        let number = number.trim_end_matches('\n').trim_end_matches('}');
        let before = if name == "databases" { "\n" } else { " " };
        write!(lines, "{before}{name} {number}")?;
    }
    write!(lines, "\n")?;
    Ok(lines)
}

#[test]
fn documents_have_the_counts_of_texts(rt: HostRuntime) -> Result<(), Fail> {
    let image = bytes_of(rt.alloc(), ONE_DATABASE)?;
    let (status, document) = checked_json(rt.alloc(), &image);
    equal("status", status, Status::Done)?;
    let mut out = Counted::new(Vec::new(rt.alloc()));
    equal(
        "status",
        cmd_check(rt.alloc(), &image, &mut out),
        Status::Done,
    )?;
    let lines = lines_of(rt.alloc(), str::from_utf8(&document)?)?;
    equal("counts", lines.as_str(), str::from_utf8(&out.into_inner())?)
}

fn databases_json(alloc: Global, image: &[u8]) -> (Status, Vec<u8>) {
    let mut out = Counted::new(Vec::new(alloc));
    let status = cmd_databases(&alloc, image, Form::Json, &mut out);
    (status, out.into_inner())
}

const THREE: &str = "\
    {\"databases\":[{\"name\":\"Tiny\",\"name_hex\":\"54696e79\",\"kind\":\"resources\",\
    \"type\":\"appl\",\"type_hex\":\"6170706c\",\"creator\":\"Test\",\"creator_hex\":\"54657374\",\
    \"attributes\":1,\"count\":2,\"size\":106},{\"name\":\"Order\",\"name_hex\":\"4f72646572\",\
    \"kind\":\"records\",\"type\":\"DATA\",\"type_hex\":\"44415441\",\"creator\":\"Test\",\
    \"creator_hex\":\"54657374\",\"attributes\":0,\"count\":3,\"size\":112},{\"name\":\"Empty\",\
    \"name_hex\":\"456d707479\",\"kind\":\"records\",\"type\":\"DATA\",\"type_hex\":\"44415441\",\
    \"creator\":\"Test\",\"creator_hex\":\"54657374\",\"attributes\":0,\"count\":0,\"size\":80}]}\n";

#[test]
fn databases_have_their_document(rt: HostRuntime) -> Result<(), Fail> {
    let image = image_of(rt.alloc(), &[TINY_FILE, ORDER_FILE, EMPTY_FILE])?;
    let (status, document) = databases_json(rt.alloc(), &image);
    equal("status", status, Status::Done)?;
    equal("three", str::from_utf8(&document)?, THREE)?;
    let (status, document) = databases_json(rt.alloc(), &bytes_of(rt.alloc(), BLANK)?);
    equal("status", status, Status::Done)?;
    equal("none", str::from_utf8(&document)?, "{\"databases\":[]}\n")?;
    let (status, document) = databases_json(rt.alloc(), b"no image");
    equal("status", status, Status::Refused)?;
    equal(
        "a fault",
        str::from_utf8(&document)?,
        "{\"fault\":\"TooShort\",\"numbers\":[]}\n",
    )
}
