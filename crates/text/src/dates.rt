//! Dates in the form YYMMDD, of a day that is in the calendar. No century is guessed.
ghost use Rattle.std.specs.Prelude.{◌≡◌, ◌↔◌, IsTrue, MatchOption};
ghost use Rattle.text.specs.Dates.{two_digits, days_in_month, AreDigits, Date};

/// Whether the field is the date of an existing day.
pub fn is_date(field: &[u8]) -> bool
    ensures { IsTrue result ↔ Date field.now }
{
    let &[y1, y2, m1, m2, d1, d2] = field else {
        return false;
    };
    let (Some(year), Some(month), Some(day)) = (number(y1, y2), number(m1, m2), number(d1, d2))
    else {
        return false;
    };
    (1..=12).contains(&month) && (1..=days_in(year, month)).contains(&day)
}

/// The number that two digits write; `None` exactly if one of them is no digit.
fn number(tens: u8, ones: u8) -> Option<u8>
    ensures { MatchOption result (AreDigits tens ones → ⊥)
        (λ n. AreDigits tens ones × (n ≡ two_digits tens ones)) }
{
    if tens.is_ascii_digit() && ones.is_ascii_digit() {
        Some((tens - b'0') * 10 + (ones - b'0'))
    } else {
        None
    }
}

/// How many days a month has; February has 29 in the years that 4 divides, 00 included.
fn days_in(year: u8, month: u8) -> u8
    ensures { result ≡ days_in_month year month }
{
    match month {
        2 if year % 4 == 0 => 29,
        2 => 28,
        4 | 6 | 9 | 11 => 30,
        _ => 31,
    }
}
