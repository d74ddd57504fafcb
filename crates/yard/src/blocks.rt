//! Bytes that are kept until they are used: the line that is being read, and the answers that wait to be written.
ghost use Rattle.std.specs.Prelude.{◌≡◌, ℕ, ◌+◌, ◌<◌, ◌≤◌, List, [], ◌∷◌, ◌++◌, length, take, nat_lt, nat_le};

use arrayvec::ArrayVec;
use std::marker::Model;

/// How many bytes are read or written at a time.
pub const BLOCK: usize = 65536;

/// The most bytes that an answer has.
const ANSWER: usize = 64;

/// Up to `N` bytes, seen as the list of them. (The words of a row are kept in the same way, but never let go.)
#[derive(Drop)]
pub struct Kept<const N: usize> {
    bytes: ArrayVec<u8, N>,
}

/// The line that is being read. Of a line that is too long 257 bytes are kept, which is as much too long.
pub type Line = Kept<257>;

/// Answers that wait to be written.
pub type Answers = Kept<BLOCK>;

impl<const N: usize> Model for Kept<N> {
    ghost Value = { List ℕ };

    ghost view = { λ k. k.bytes.items };
}

impl<const N: usize> Kept<N> {
    /// No bytes.
    pub fn new() -> Kept<N>
        ensures { result ≡ [] }
    {
        Kept {
            bytes: ArrayVec::new(),
        }
    }

    /// Whether there is a byte.
    pub fn has_begun(&self) -> bool
        ensures { result ≡ nat_lt 0 (length self.now) }
    {
        !self.bytes.is_empty()
    }

    /// Whether so many bytes more have room.
    pub fn has_room(&self, more: usize) -> bool
        ensures { result ≡ nat_le (length self.now + more) N }
    {
        more <= self.bytes.remaining_capacity()
    }

    /// The bytes, in their order.
    pub fn bytes(&self) -> &[u8]
        ensures { result.now ≡ self.now }
    {
        self.bytes.as_slice()
    }

    /// Keeps a byte more, if it is among the first `N`.
    pub fn push(&mut self, byte: u8)
        ensures { self.new ≡ take N (self.old ++ byte ∷ []) }
    {
        let _ = self.bytes.try_push(byte);
    }

    /// Keeps bytes more, if all of them have room.
    pub fn add(&mut self, more: &[u8])
        ensures room { length self.old + length more.now ≤ N → self.new ≡ self.old ++ more.now }
        ensures full { N < length self.old + length more.now → self.new ≡ self.old }
    {
        let _ = self.bytes.try_extend_from_slice(more);
    }

    /// Lets the bytes go.
    pub fn clear(&mut self)
        ensures { self.new ≡ [] }
    {
        self.bytes.clear();
    }
}

// What the program calls of the two instances has their numbers in its clauses: those of `Kept` say `N`, whatever it is.

impl Line {
    /// Keeps a byte of the line, if it is among the first 257.
    pub fn keep(&mut self, byte: u8)
        ensures { self.new ≡ take 257 (self.old ++ byte ∷ []) }
    {
        self.push(byte);
    }
}

impl Answers {
    /// Whether another answer, which has at most 64 bytes, has room.
    pub fn has_room_for_answer(&self) -> bool
        ensures { result ≡ nat_le (length self.now + 64) 65536 }
    {
        self.has_room(ANSWER)
    }

    /// Adds an answer, if it has room.
    pub fn add_answer(&mut self, answer: &[u8])
        ensures room { length self.old + length answer.now ≤ 65536 → self.new ≡ self.old ++ answer.now }
        ensures full { 65536 < length self.old + length answer.now → self.new ≡ self.old }
    {
        self.add(answer);
    }
}
