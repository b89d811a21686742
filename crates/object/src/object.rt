//! An object, of one of two sorts: its tag, its value as it stands in the file, and where that starts.
ghost use Rattle.std.specs.Prelude.{◌≡◌};
ghost use Rattle.object.specs.Readers.{tag, place, value};

/// An object of a file.
#[derive(Clone, Copy)]
pub enum Object<'a> {
    /// Its value is any bytes.
    Plain {
        tag: u16,
        place: usize,
        value: &'a [u8],
    },
    /// Its value should be a row of objects; `tile` tells whether it is.
    Nested {
        tag: u16,
        place: usize,
        value: &'a [u8],
    },
}

impl<'a> Object<'a> {
    /// Its tag.
    #[inline(always)]
    pub fn tag(self) -> u16
        ensures { result ≡ tag self.entry }
    {
        match self {
            Object::Plain { tag, .. } | Object::Nested { tag, .. } => tag,
        }
    }

    /// The place of its value's first byte in the file.
    #[inline(always)]
    pub fn place(self) -> usize
        ensures { result ≡ place self.entry }
    {
        match self {
            Object::Plain { place, .. } | Object::Nested { place, .. } => place,
        }
    }

    /// Its value.
    #[inline(always)]
    pub fn value(self) -> &'a [u8]
        ensures { result.now ≡ value self.entry }
    {
        match self {
            Object::Plain { value, .. } | Object::Nested { value, .. } => value,
        }
    }
}
