// The bytes of one read.
ghost use Rattle.std.specs.Prelude.{◌≡◌, ◌-◌, ◌≤◌, ℕ, List, [], length, take, drop, IfOk};

use std::io;
use std::io::Read;
use std::marker::Model;

const CHUNK: usize = 32768;

// Those of them that are left are bytes[start..end].
#[derive(Drop)]
pub(super) struct Chunk {
    bytes: [u8; CHUNK],
    start: usize,
    end: usize,
}

impl Model for Chunk {
    ghost Value = { List ℕ };

    ghost view = { λ c. take (c.end - c.start) (drop c.start c.bytes) };

    ghost invariant = { λ c. (c.start ≤ c.end) × (c.end ≤ 32768) };
}

impl Chunk {
    pub(super) fn new() -> Chunk
        ensures { result ≡ [] }
    {
        Chunk {
            bytes: [0; CHUNK],
            start: 0,
            end: 0,
        }
    }

    pub(super) fn left(&self) -> &[u8]
        ensures { result.now ≡ self.now }
    {
        &self.bytes[self.start..self.end]
    }

    // Takes the first `count` bytes that are left.
    pub(super) fn take(&mut self, count: usize)
        requires { count ≤ length self.old }
        ensures { self.new ≡ drop count self.old }
    {
        self.start += count;
    }

    pub(super) fn clear(&mut self)
        ensures { self.new ≡ [] }
    {
        self.start = self.end;
    }

    // Reads the next bytes of the standard input in their place, and says how many came.
    pub(super) fn fill(&mut self, rt: &HostRuntime) -> io::Result<usize>
        ensures read { IfOk result (λ count. count ≡ length self.new) }
        ensures fits { length self.new ≤ 32768 }
    {
        let count = rt.stdin().read(&mut self.bytes)?;
        self.start = 0;
        self.end = count;
        Ok(count)
    }
}
