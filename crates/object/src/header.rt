//! An object's header: its tag, and its length in the shortest form.
//! All of it is inlined, as the reader is: a large file is thousands of headers, and hardly anything else takes time.
ghost use Rattle.std.specs.Prelude.{◌≡◌, ◌/◌, ◌%◌, ◌==◌, ◌<◌, ◌≤◌, ◌++◌, length, drop, IfSome};
ghost use Rattle.object.specs.Objects.{tag_bytes, length_bytes, LawfulTag, nests};
ghost use Rattle.object.specs.Reading.{tag_of, length_of, header_of};
ghost use Rattle.object.specs.Readers.{head};

/// What a header says: its tag, whether its object is nested, and its length; and how many bytes it takes.
#[derive(Clone, Copy)]
pub(crate) struct Header {
    pub tag: u16,
    pub is_nested: bool,
    pub length: usize,
    pub size: usize,
}

/// The length that the bytes begin with, and how many bytes it takes; `None` where it cannot be read or is not in its shortest form.
#[inline(always)]
pub fn read_length(bytes: &[u8]) -> Option<(usize, usize)>
    ensures value { result ≡ length_of bytes.now }
    ensures within { IfSome result (λ p. (p.1 ≤ length bytes.now) × (p.0 < 65536) × (p.1 ≤ 3)) }
    ensures written { IfSome result (λ p. bytes.now ≡ length_bytes p.0 ++ drop p.1 bytes.now) }
{
    match bytes {
        [short, ..] if *short < 0x80 => Some((usize::from(*short), 1)),
        [0x81, low, ..] if *low >= 0x80 => Some((usize::from(*low), 2)),
        [0x82, high, low, ..] if *high >= 1 => Some((
            usize::from(*high) * 256 + usize::from(*low),
            3,
        )),
        _ => None,
    }
}

/// The tag that the bytes begin with, and how many bytes it takes.
#[inline(always)]
fn read_tag(bytes: &[u8]) -> Option<(u16, usize)>
    ensures value { result ≡ tag_of bytes.now }
    ensures within { IfSome result (λ p. (0 < p.1) × (p.1 ≤ length bytes.now) × (p.1 ≤ 2)) }
    ensures written { IfSome result (λ p. LawfulTag p.0
        × (bytes.now ≡ tag_bytes p.0 ++ drop p.1 bytes.now)) }
{
    let [first, behind @ ..] = bytes else {
        return None;
    };
    match (*first, behind) {
        (0, _) => None,
        (first, _) if first % 32 != 31 => Some((u16::from(first), 1)),
        (first, [second, ..]) if *second < 0x80 => Some((
            u16::from(first) * 256 + u16::from(*second),
            2,
        )),
        _ => None,
    }
}

/// Whether an object whose tag has this first byte is nested: the bit 20 (hexadecimal).
#[inline(always)]
fn is_nested(first: u8) -> bool
    ensures { result ≡ (first / 32 % 2 == 1) }
{
    first / 32 % 2 == 1
}

/// The header that the bytes begin with.
#[inline(always)]
pub(crate) fn read_header(bytes: &[u8]) -> Option<Header>
    ensures value { head result ≡ header_of bytes.now }
    ensures within { IfSome result (λ h. (h.size ≤ length bytes.now) × (h.length < 65536)
        × (h.size ≤ 5)) }
    ensures nesting { IfSome result (λ h. h.is_nested ≡ nests h.tag) }
    ensures written { IfSome result (λ h. LawfulTag h.tag × (bytes.now ≡
        tag_bytes h.tag ++ (length_bytes h.length ++ drop h.size bytes.now))) }
{
    let (tag, tag_size) = read_tag(bytes)?;
    let (length, length_size) = read_length(&bytes[tag_size..])?;
    Some(Header {
        tag,
        is_nested: is_nested(bytes[0]),
        length,
        size: tag_size + length_size,
    })
}
