//! A reader over a file's bytes: a range of the file that ends with `bytes` is still to be read from `position` on, one
//! object at a time.
ghost use Rattle.std.specs.Prelude.{◌≡◌, ◌+◌, ◌^◌, ◌<◌, ◌≤◌, [], length, min, MatchBool, MatchOption};
ghost use Rattle.object.specs.Objects.{IsNotOnly};

use crate::header::{Header, read_header};
use crate::object::Object;

// Copy, and so no `Iterator`: a test is handed a copy, and the caller's reader stays where it is.
/// A position in a file's bytes.
#[derive(Clone, Copy)]
pub struct Reader<'a> {
    pub bytes: &'a [u8],
    pub position: usize,
    ghost within: { position ≤ length bytes.now },
}

/// An object's value, and the place of its first byte in the file.
#[derive(Clone, Copy)]
pub struct Value<'a> {
    pub bytes: &'a [u8],
    pub place: usize,
    ghost room: { place + length bytes.now < 2 ^ 64 },
}

impl<'a> Reader<'a> {
    ghost use Rattle.object.specs.Readers.{rest_of, Taken, Stuck, Took, Missed, IsOnly};

    /// A reader over all of the bytes, from their start.
    #[inline(always)]
    pub fn new(bytes: &'a [u8]) -> Reader<'a>
        ensures bytes { result.bytes.now ≡ bytes.now }
        ensures position { result.position ≡ 0 }
    {
        Reader::at(bytes, 0)
    }

    /// A reader over the bytes from a position on; at their end where the position is past it.
    #[inline(always)]
    pub fn starting(bytes: &'a [u8], position: usize) -> Reader<'a>
        ensures bytes { result.bytes.now ≡ bytes.now }
        ensures position { result.position ≡ min position (length bytes.now) }
    {
        Reader::at(bytes, position.min(bytes.len()))
    }

    /// A reader over the bytes from a position within them on.
    #[inline(always)]
    pub(crate) fn at(bytes: &'a [u8], position: usize) -> Reader<'a>
        requires { position ≤ length bytes.now }
        ensures bytes { result.bytes.now ≡ bytes.now }
        ensures position { result.position ≡ position }
    {
        Reader { bytes, position }
    }

    /// The next object, if its header can be read and it ends within the range; the position is then past it.
    #[inline(always)]
    pub fn next(&mut self) -> Option<Object<'a>>
        ensures { MatchOption result (Stuck self.old self.new) (λ o. Taken self.old self.new o) }
    {
        let start = self.position;
        let (_, rest) = self.bytes.split_at(start);
        let Header {
            tag,
            is_nested,
            length,
            size,
        } = read_header(rest)?;
        let place = start + size;
        let end = place + length;
        if end > self.bytes.len() {
            return None;
        }
        let value = &self.bytes[place..end];
        self.position = end;
        if is_nested {
            Some(Object::Nested { tag, place, value })
        } else {
            Some(Object::Plain { tag, place, value })
        }
    }

    /// The value of the next object, if it has this tag; the position is then past it, and else where it was.
    #[inline(always)]
    pub fn take(&mut self, tag: u16) -> Option<Value<'a>>
        ensures { MatchOption result (Missed self.old self.new tag) (Took self.old self.new tag) }
    {
        let start = self.position;
        let object = self.next()?;
        if object.tag() != tag {
            self.position = start;
            return None;
        }
        Some(Value {
            bytes: object.value(),
            place: object.place(),
        })
    }

    /// The value of the one object that is left to read, if it has this tag and nothing stands behind it.
    #[inline(always)]
    pub fn only(mut self, tag: u16) -> Option<Value<'a>>
        ensures { MatchOption result (IsNotOnly (rest_of self.entry) tag) (IsOnly self.entry tag) }
    {
        let value = self.take(tag)?;
        self.is_done().then_some(value)
    }

    /// Whether all of the range was read.
    #[inline(always)]
    pub fn is_done(&self) -> bool
        ensures { MatchBool result (rest_of self.now ≡ []) (0 < length (rest_of self.now)) }
    {
        self.position == self.bytes.len()
    }
}
