//! The head of the picture, and the frame of its rows.

ghost use Rattle.std.specs.Prelude.{◌≡◌, ◌≤◌, ◌<◌, ◌+◌, ◌-◌, ◌*◌, ◌^◌, All, is_ok};
ghost use Rattle.palm_text.specs.Counted.{Writes};
ghost use Rattle.heap_svg.specs.Drawing.{bar_open, bar_part, bar_parts, bar_text, frame_text, framed_text, free_note, open_text, used_slots_text};

use crate::bytes_of_rows::PITCH;
use crate::rectangles::put_strips;
use crate::right::put_labels;
use crate::rooms::Rooms;
use crate::strips::Strip;
use heap_map::Pieces;
use palm_text::{Counted, Piece, WriteFault, put_all, put_pieces};
use std::io::Write;

/// Writes the head of a picture of this height: its first line, the styles with the colours of the
/// kinds of chunks and of databases, and a white background.
#[tactic(auto, unfolding(crate::specs::Drawing::open_text))]
pub(crate) fn put_open<W: Write>(out: &mut Counted<W>, height: u32) -> Result<(), WriteFault>
    ensures { Writes W.contents out.old out.new (open_text height) (is_ok result) }
{
    put_pieces(
        out,
        &[
            Piece::Text(b"<svg xmlns=\"http://www.w3.org/2000/svg\" width=\"1224\" height=\""),
            Piece::Number(height),
            Piece::Text(b"\" viewBox=\"0 0 1224 "),
            Piece::Number(height),
            Piece::Text(b"\" font-family=\"sans-serif\" font-size=\"12\">\n"),
            Piece::Text(b"<style>\n"),
            Piece::Text(b"svg{overflow:visible}\n"),
            Piece::Text(b"path{stroke:#fff;stroke-width:.8;vector-effect:non-scaling-stroke}\n"),
            Piece::Text(b".s{stroke:none}\n"),
            Piece::Text(b".t{font-size:16px;font-weight:bold}\n"),
            Piece::Text(b".n{font-size:10px;fill:#666;text-anchor:end}\n"),
            Piece::Text(b".r{font-size:10px;fill:#060}\n"),
            Piece::Text(b".c0{fill:#d62728;stroke:#a00;stroke-width:1.4}\n"),
            Piece::Text(b".c1{fill:#ffb3a7;stroke:#c00;stroke-width:1.4}\n"),
            Piece::Text(b".c2{fill:#111}\n"),
            Piece::Text(b".c3{fill:#bcbd22}\n"),
            Piece::Text(b".c4{fill:#cfe6cf}\n"),
            Piece::Text(b".c5{fill:#444}\n"),
            Piece::Text(b".c6{fill:#4e79a7}\n"),
            Piece::Text(b".c7{fill:#f28e2b}\n"),
            Piece::Text(b".c8{fill:#59a14f}\n"),
            Piece::Text(b".c9{fill:#b07aa1}\n"),
            Piece::Text(b".c10{fill:#9c755f}\n"),
            Piece::Text(b".c11{fill:#76b7b2}\n"),
            Piece::Text(b".c12{fill:#edc948}\n"),
            Piece::Text(b".c13{fill:#ff9da7}\n"),
            Piece::Text(b"</style>\n"),
            Piece::Text(b"<rect width=\"100%\" height=\"100%\" fill=\"#fff\"/>\n"),
        ],
    )
}

/// Writes the size of the image, and its slots.
#[tactic(auto, unfolding(crate::specs::Drawing::used_slots_text))]
pub(crate) fn put_slots<W: Write>(
    out: &mut Counted<W>,
    size: u32,
    used: u32,
    slots: u32,
) -> Result<(), WriteFault>
    ensures { Writes W.contents out.old out.new (used_slots_text size used slots) (is_ok result) }
{
    put_pieces(
        out,
        &[
            Piece::Text(b"<text x=\"74\" y=\"22\" class=\"t\">"),
            Piece::Number(size),
            Piece::Text(b" bytes, "),
            Piece::Number(used),
            Piece::Text(b" of "),
            Piece::Number(slots),
            Piece::Text(b" slots in use</text>\n"),
        ],
    )
}

/// Writes the number of free bytes, the free pieces, and those that a compact leaves.
#[tactic(auto, unfolding(crate::specs::Drawing::free_note))]
pub(crate) fn put_free_note<W: Write>(
    out: &mut Counted<W>,
    total: u32,
    free: Pieces,
    rooms: &Rooms,
) -> Result<(), WriteFault>
    ensures { Writes W.contents out.old out.new
        (free_note total free.count free.largest rooms.now.count rooms.now.largest) (is_ok result) }
{
    put_pieces(
        out,
        &[
            Piece::Text(b"<text x=\"74\" y=\"42\">free "),
            Piece::Number(total),
            Piece::Text(b" bytes in "),
            Piece::Number(free.count),
            Piece::Text(b" pieces, the largest "),
            Piece::Number(free.largest),
            Piece::Text(b"; a compact leaves "),
            Piece::Number(rooms.count),
            Piece::Text(b" pieces, the largest "),
            Piece::Number(rooms.largest),
            Piece::Text(b"</text>\n"),
        ],
    )
}

/// The numbers of the bar, in bytes: free, the largest free piece, and the largest free piece after a
/// compact.
#[derive(Clone, Copy)]
pub(crate) struct Bar {
    pub(crate) free: u32,
    pub(crate) largest: u32,
    pub(crate) most: u32,
}

/// Writes the frame of the bar for an image of this size.
#[tactic(auto, unfolding(crate::specs::Drawing::bar_open))]
fn put_bar_open<W: Write>(out: &mut Counted<W>, size: u32) -> Result<(), WriteFault>
    ensures { Writes W.contents out.old out.new (bar_open size) (is_ok result) }
{
    put_pieces(
        out,
        &[
            Piece::Text(b"<svg x=\"74\" y=\"52\" width=\"1000\" height=\"9\" viewBox=\"0 0 "),
            Piece::Number(size),
            Piece::Text(b" 9\" preserveAspectRatio=\"none\">\n"),
        ],
    )
}

/// Writes a part of the bar: its first byte, its end, its colour, and its tooltip.
fn put_bar_part<W: Write>(
    out: &mut Counted<W>,
    start: u32,
    end: u32,
    colour: &'static [u8],
    title: &'static [u8],
) -> Result<(), WriteFault>
    ensures { Writes W.contents out.old out.new
        (bar_part start end colour.now title.now) (is_ok result) }
{
    put_pieces(
        out,
        &[
            Piece::Text(b"<rect x=\""),
            Piece::Number(start),
            Piece::Text(b"\" width=\""),
            Piece::Number(end.saturating_sub(start)),
            Piece::Text(b"\" height=\"9\" fill=\""),
            Piece::Text(colour),
            Piece::Text(b"\"><title>"),
            Piece::Text(title),
            Piece::Text(b"</title></rect>\n"),
        ],
    )
}

/// Writes the parts of the bar by their ends, and the end of the bar.
fn put_bar_parts<W: Write>(
    out: &mut Counted<W>,
    used: u32,
    largest: u32,
    most: u32,
    size: u32,
) -> Result<(), WriteFault>
    ensures { Writes W.contents out.old out.new (bar_parts used largest most size) (is_ok result) }
{
    put_bar_part(out, 0, used, b"#888", b"used")?;
    put_bar_part(out, used, largest, b"#2ca02c", b"the largest free piece")?;
    put_bar_part(out, largest, most, b"#98df8a", b"what a compact adds to it")?;
    put_bar_part(out, most, size, b"#f7b6b2", b"free in other stretches")?;
    put_all(out, b"</svg>\n")
}

/// Writes the bar for an image of this size.
#[tactic(auto, using(palm_text::proofs::Parts::then, palm_text::proofs::Parts::stops), unfolding(crate::specs::Drawing::bar_text))]
pub(crate) fn put_bar<W: Write>(out: &mut Counted<W>, size: u32, bar: Bar) -> Result<(), WriteFault>
    requires largest { size - bar.free + bar.largest < 2 ^ 32 }
    requires most { size - bar.free + bar.most < 2 ^ 32 }
    ensures { Writes W.contents out.old out.new
        (bar_text size bar.free bar.largest bar.most) (is_ok result) }
{
    let used = size.saturating_sub(bar.free);
    put_bar_open(out, size)?;
    put_bar_parts(out, used, used + bar.largest, used + bar.most, size)
}

/// Writes the frame of the rows. In it a byte is one unit wide.
#[tactic(auto, unfolding(crate::specs::Drawing::frame_text))]
fn put_frame<W: Write>(out: &mut Counted<W>, line: u32, rows: u32) -> Result<(), WriteFault>
    requires { rows < 2 ^ 26 }
    ensures { Writes W.contents out.old out.new (frame_text line rows) (is_ok result) }
{
    put_pieces(
        out,
        &[
            Piece::Text(b"<svg x=\"74\" y=\"74\" width=\"1000\" height=\""),
            Piece::Number(PITCH * rows),
            Piece::Text(b"\" viewBox=\"0 0 "),
            Piece::Number(line),
            Piece::Text(b" "),
            Piece::Number(PITCH * rows),
            Piece::Text(b"\" preserveAspectRatio=\"none\">\n"),
        ],
    )
}

/// Writes the strips in their frame, the line over the rooms, and the offsets of the rows.
#[tactic(auto, using(palm_text::proofs::Parts::then, palm_text::proofs::Parts::stops), unfolding(crate::specs::Drawing::framed_text))]
pub(crate) fn put_framed<W: Write>(
    out: &mut Counted<W>,
    line: u32,
    rows: u32,
    strips: &[Strip],
) -> Result<(), WriteFault>
    requires line { 64 ≤ line }
    requires small { line < 2 ^ 24 }
    requires rows { rows < 2 ^ 26 }
    requires offsets { line * rows < 2 ^ 32 }
    requires inside { All (λ strip. strip.at + strip.size < 2 ^ 24) strips.now }
    ensures { Writes W.contents out.old out.new (framed_text line rows strips.now) (is_ok result) }
{
    put_frame(out, line, rows)?;
    put_strips(out, line, strips)?;
    put_all(
        out,
        b"</svg>\n<text x=\"1082\" y=\"68\" class=\"r\">room of stretches</text>\n",
    )?;
    put_labels(out, line, rows)
}
