// The bytes of a line that are kept.
ghost use Rattle.std.specs.Prelude.{◌≡◌, ◌≤◌, ℕ, List, [], ◌∷◌, ◌++◌, length, take};

use super::LINE_LIMIT;
use std::marker::Model;

// These are bytes[..len].
#[derive(Drop)]
pub(super) struct Kept {
    bytes: [u8; LINE_LIMIT],
    len: usize,
}

impl Model for Kept {
    ghost Value = { List ℕ };

    ghost view = { λ k. take k.len k.bytes };

    ghost invariant = { λ k. k.len ≤ 16384 };
}

impl Kept {
    pub(super) fn new() -> Kept
        ensures { result ≡ [] }
    {
        Kept {
            bytes: [0; LINE_LIMIT],
            len: 0,
        }
    }

    pub(super) fn as_slice(&self) -> &[u8]
        ensures { result.now ≡ self.now }
    {
        &self.bytes[..self.len]
    }

    pub(super) fn len(&self) -> usize
        ensures { result ≡ length self.now }
    {
        self.len
    }

    // Keeps one more byte, if there is room for it.
    pub(super) fn push(&mut self, byte: u8)
        ensures { self.new ≡ take 16384 (self.old ++ byte ∷ []) }
    {
        if self.len < LINE_LIMIT {
            self.bytes[self.len] = byte;
            self.len += 1;
        }
    }

    pub(super) fn clear(&mut self)
        ensures { self.new ≡ [] }
    {
        self.len = 0;
    }
}
