//! Names: letters with single fillers between them and at most one pair of fillers, filled up with fillers.
ghost use Rattle.std.specs.Prelude.{◌↔◌, IsTrue, MatchOption};
ghost use Rattle.text.specs.Names.{AllPlain, NoPair, FirstPair, Alone, AllFillers, Name};

/// Whether the field is a name.
pub fn is_name(field: &[u8]) -> bool
    ensures { IsTrue result ↔ Name field.now }
{
    match field {
        [b'A'..=b'Z', ..] => is_plain(field) && has_one_pair(field),
        _ => false,
    }
}

// No early end, so that many characters are tested at once.
/// Whether the field is made of letters and fillers.
fn is_plain(field: &[u8]) -> bool
    ensures { IsTrue result ↔ AllPlain field.now }
{
    let mut plain = true;
    for character in field {
        plain &= character.is_ascii_uppercase() || *character == b'<';
    }
    plain
}

/// Whether two fillers stand together at most once before the last letter: behind a second pair come fillers alone.
fn has_one_pair(field: &[u8]) -> bool
    requires plain { AllPlain field.now }
    ensures { IsTrue result ↔ Alone field.now }
{
    let Some(first) = first_pair(field) else {
        return true;
    };
    let rest = &field[first + 1..];
    match first_pair(rest) {
        Some(second) => is_filled(&rest[second..]),
        None => true,
    }
}

/// Where two fillers first stand together; `None` exactly if they do not.
fn first_pair(text: &[u8]) -> Option<usize>
    ensures { MatchOption result (NoPair text.now) (FirstPair text.now) }
{
    text.windows(2)
        .position(|pair| matches!(*pair, [b'<', b'<']))
}

// No early end, as in `is_plain`.
/// Whether the field is all fillers.
pub fn is_filled(field: &[u8]) -> bool
    ensures { IsTrue result ↔ AllFillers field.now }
{
    let mut filled = true;
    for character in field {
        filled &= *character == b'<';
    }
    filled
}
