//! The size of a row in bytes, and the number of rows.

ghost use Rattle.std.specs.Prelude.{◌≡◌, ◌≤◌, ◌<◌, ◌+◌, ◌*◌, ◌^◌};
ghost use Rattle.heap_svg.specs.Rows as models;
ghost use Rattle.heap_svg.specs.Rows.{IsRowSize};

/// The height of a row with the space to the next one, in pixels.
pub(crate) const PITCH: u32 = 17;

/// The width of a row in pixels.
const PIXELS: u32 = 1000;

/// Returns the size of a row for an image of this size: the least power of two, from 64 on, that
/// gives at most 32 rows.
pub(crate) fn row_size(size: u32) -> u32
    requires { size < 2 ^ 24 }
    ensures { IsRowSize size result }
{
    let mut line = 64;
    while 32 * line < size {
        line *= 2;
    }
    line
}

/// Returns the number of rows of `line` bytes in an image of this size.
pub(crate) fn row_count(size: u32, line: u32) -> u32
    requires size { size + line < 2 ^ 32 }
    requires line { 1 ≤ line }
    ensures { result ≡ models.rows_in size line }
{
    (size + (line - 1)) / line
}

/// Returns the least size of a chunk that is wider than a pixel in a row of `line` bytes.
pub(crate) fn thin_below(line: u32) -> u32
    ensures { result ≡ models.thin_below line }
{
    line / PIXELS + 1
}
