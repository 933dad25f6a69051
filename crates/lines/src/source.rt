// Lines of the standard input, one at a time, read by chunks of a fixed size.
ghost use Rattle.std.specs.Prelude.{◌≡◌, ◌≤◌, length};

use crate::line::LineBuffer;
use chunk::Chunk;

mod chunk;
mod reading;

#[derive(Drop)]
pub struct LineSource {
    // what is read and not yet part of a line
    chunk: Chunk,
    // a read has found the end of the input
    ended: bool,
    buffer: LineBuffer,
    number: u64,
    ghost within: { length chunk ≤ 32768 },
}

impl LineSource {
    // How many lines came, the one that stands here among them.
    pub fn number(&self) -> u64
        ensures { result ≡ self.now.number }
    {
        self.number
    }
}
