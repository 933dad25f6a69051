// A line, and the buffer that it is put together in.
//
// A line ends at a line feed or at the end of the input. One carriage return right before the line
// feed is dropped. What is left is passed over if it begins with `#` or has nothing but spaces;
// otherwise it is unreadable if it is longer than LINE_LIMIT or has a byte outside printable ASCII.
ghost use Rattle.std.specs.Prelude.{◌≤◌, length};

use kept::Kept;

mod buffer;
mod kept;

// The most bytes that a text has.
pub const LINE_LIMIT: usize = 16384;

#[derive(Clone, Copy)]
pub enum Line<'a> {
    Passed,
    Unreadable,
    Text(&'a [u8]),
}

// What the bytes of a line are so far.
#[derive(Clone, Copy)]
enum Content {
    // no byte, or nothing but spaces
    Blank,
    // printable, and no more than LINE_LIMIT
    Readable,
    // neither
    Unfit,
}

// The line so far.
#[derive(Drop)]
pub struct LineBuffer {
    // its first LINE_LIMIT bytes
    bytes: Kept,
    content: Content,
    // a carriage return came last, and belongs to the line only if no line feed follows
    held: bool,
    ghost within: { length bytes ≤ 16384 },
}
