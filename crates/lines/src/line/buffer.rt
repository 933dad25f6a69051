// How a line is put together byte by byte.
ghost use Rattle.std.specs.Prelude.{◌≡◌, ℕ, false, min, List, [], ◌∷◌, ◌++◌, ◌&&◌, ◌==◌, length, nat_lt, slice_index};
ghost use Rattle.words.specs.Pieces.{some};
ghost use Rattle.lines.specs.Lines.{classified, idle, without_cr, before_lf, through_lf, printable, EndsLine};
ghost use Rattle.lines.specs.Buffers.{shown, content_of, Makes, Holds};

use super::kept::Kept;
use super::{Content, LINE_LIMIT, Line, LineBuffer};

// Whether a text goes on with `byte` after the `kept` bytes of it that were kept.
fn fits(byte: u8, kept: usize) -> bool
    ensures { result ≡ (printable byte && nat_lt kept 16384) }
{
    matches!(byte, b' '..=b'~') && kept < LINE_LIMIT
}

impl Content {
    // What a line of this content becomes with one more byte, after the `kept` bytes of it that were kept.
    fn with_byte(self, byte: u8, kept: usize) -> Content
        ensures { (l : List ℕ) → self ≡ content_of l → kept ≡ min 16384 (length l) → result ≡ content_of (l ++ byte ∷ []) }
    {
        match self {
            Content::Blank if byte == b' ' => Content::Blank,
            Content::Blank | Content::Readable => {
                if fits(byte, kept) {
                    Content::Readable
                } else {
                    Content::Unfit
                }
            }
            Content::Unfit => Content::Unfit,
        }
    }
}

impl LineBuffer {
    pub fn new() -> LineBuffer
        ensures { Holds result [] }
    {
        LineBuffer {
            bytes: Kept::new(),
            content: Content::Blank,
            held: false,
        }
    }

    // Adds a byte to the line. One that does not fit is not kept.
    fn append(&mut self, byte: u8)
        ensures makes { (l : List ℕ) → Makes self.old l → Makes self.new (l ++ byte ∷ []) }
        ensures held { self.new.held ≡ self.old.held }
    {
        self.content = self.content.with_byte(byte, self.bytes.len());
        self.bytes.push(byte);
    }

    // The carriage return that waits, if one does, belongs to the line.
    fn release(&mut self)
        ensures makes { (l : List ℕ) → Holds self.old l → Makes self.new l }
        ensures none { self.new.held ≡ false }
    {
        if self.held {
            self.append(b'\r');
            self.held = false;
        }
    }

    // Takes the next byte of the line.
    pub fn push(&mut self, byte: u8)
        ensures { (l : List ℕ) → Holds self.old l → Holds self.new (l ++ byte ∷ []) }
    {
        self.release();
        if byte == b'\r' {
            self.held = true;
        } else {
            self.append(byte);
        }
    }

    // Takes the bytes of the line that `input` begins with, up to its first line feed and with it,
    // and says how many these are. None says that `input` has no line feed, and that all of it is taken.
    pub fn feed(&mut self, input: &[u8]) -> Option<usize>
        ensures taken { result ≡ through_lf input.now }
        ensures holds { (l : List ℕ) → Holds self.old l → Holds self.new (l ++ before_lf input.now) }
        ensures lines { EndsLine input.now result }
    {
        for (i, byte) in input.iter().enumerate() {
            if *byte == b'\n' {
                return Some(i + 1);
            }
            self.push(*byte);
        }
        None
    }

    // Whether a byte of the line came.
    fn has_bytes(&self) -> bool
        ensures { (l : List ℕ) → Holds self.now l → result ≡ some l }
    {
        self.bytes.len() > 0 || self.held
    }

    // The input ends here, with no line feed, so a carriage return at its end is kept. Answers whether
    // there is a line at all, for no bytes are none.
    pub fn end_of_input(&mut self) -> bool
        ensures some { (l : List ℕ) → Holds self.old l → result ≡ some l }
        ensures makes { (l : List ℕ) → Holds self.old l → Makes self.new l }
    {
        let is_line = self.has_bytes();
        self.release();
        is_line
    }

    // Forgets the line, for the next one.
    pub fn clear(&mut self)
        ensures { Holds self.new [] }
    {
        self.bytes.clear();
        self.content = Content::Blank;
        self.held = false;
    }

    // Whether the line begins with `#`.
    fn is_comment(&self) -> bool
        ensures { (l : List ℕ) → Makes self.now l → result ≡ (slice_index l 0 == 35) }
    {
        matches!(self.bytes.as_slice(), [b'#', ..])
    }

    // Whether the line begins with `#` or has nothing but spaces.
    fn is_idle(&self) -> bool
        ensures { (l : List ℕ) → Makes self.now l → result ≡ idle l }
    {
        matches!(self.content, Content::Blank) || self.is_comment()
    }

    // The line, if it ends here.
    pub fn line(&self) -> Line<'_>
        ensures makes { (l : List ℕ) → Makes self.now l → shown result ≡ classified l }
        ensures holds { (l : List ℕ) → Holds self.now l → shown result ≡ classified (without_cr l) }
    {
        if self.is_idle() {
            return Line::Passed;
        }
        match self.content {
            Content::Blank => Line::Passed,
            Content::Readable => Line::Text(self.bytes.as_slice()),
            Content::Unfit => Line::Unreadable,
        }
    }
}
