// How a source reads, and hands out its lines.
ghost use Rattle.std.specs.Prelude.{◌≡◌, ℕ, false, List, [], IfOk};
ghost use Rattle.lines.specs.Lines.{classified};
ghost use Rattle.lines.specs.Buffers.{shown, Makes, Holds};
ghost use Rattle.lines.specs.Sources.{unread, Stepped, counted};
ghost use Rattle.lines.specs.Steps.{Took, Refilled};

use super::LineSource;
use super::chunk::Chunk;
use crate::line::{Line, LineBuffer};
use std::io;

impl LineSource {
    pub fn new() -> LineSource
        ensures unread { (unread result ≡ []) × (result.ended ≡ false) }
        ensures line { Holds result.buffer [] }
        ensures number { result.number ≡ 0 }
    {
        LineSource {
            chunk: Chunk::new(),
            ended: false,
            buffer: LineBuffer::new(),
            number: 0,
        }
    }

    // Takes what the chunk still has of the line, and answers whether the line ended there.
    fn take(&mut self) -> bool
        ensures taken { Took self.old self.new result }
        ensures kept { (self.new.ended ≡ self.old.ended) × (self.new.number ≡ self.old.number) }
    {
        match self.buffer.feed(self.chunk.left()) {
            Some(count) => {
                self.chunk.take(count);
                true
            }
            None => {
                self.chunk.clear();
                false
            }
        }
    }

    // Reads the next chunk, and answers whether there was one.
    fn refill(&mut self, rt: &HostRuntime) -> io::Result<bool>
        ensures filled { IfOk result (λ more. Refilled self.old self.new more) }
        ensures kept { (self.new.buffer ≡ self.old.buffer) × (self.new.number ≡ self.old.number) }
    {
        if !self.ended {
            self.ended = self.chunk.fill(rt)? == 0;
        }
        Ok(!self.ended)
    }

    // Puts the next line into the buffer, and answers whether there was one.
    fn read_line(&mut self, rt: &HostRuntime) -> io::Result<bool>
        ensures stepped { IfOk result (λ more. Stepped self.old self.new more) }
        ensures number { self.new.number ≡ self.old.number }
    {
        self.buffer.clear();
        for _ in 0..u64::MAX {
            if self.take() {
                return Ok(true);
            }
            if !self.refill(rt)? {
                return Ok(self.buffer.end_of_input());
            }
        }
        Err(io::Error::new(io::ErrorKind::InvalidData, "a line without end"))
    }

    // Goes on to the next line, and answers whether there is one. A read that fails loses what came of
    // the line.
    pub fn advance(&mut self, rt: &HostRuntime) -> io::Result<bool>
        ensures stepped { IfOk result (λ more. Stepped self.old self.new more) }
        ensures number { self.new.number ≡ counted self.old.number result }
    {
        if self.number == u64::MAX {
            return Err(io::Error::new(
                io::ErrorKind::InvalidData,
                "more lines than can be counted",
            ));
        }
        let is_line = self.read_line(rt)?;
        if is_line {
            self.number += 1;
        }
        Ok(is_line)
    }

    // The line that the last step found.
    pub fn line(&self) -> Line<'_>
        ensures { (l : List ℕ) → Makes self.now.buffer l → shown result ≡ classified l }
    {
        self.buffer.line()
    }
}
