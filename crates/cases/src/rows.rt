//! Worked rows, as one fact that follows from the definitions of the cases.
ghost use Rattle.std.specs.Prelude.{◌≡◌};
ghost use Rattle.cases.specs.Rows.{Rows};

/// How many rows are worked: six of short files, seven of numbers, dates and a composite. All of them hold.
pub fn worked_rows() -> u8
    ensures count { result ≡ 13 }
    ensures rows { Rows }
{
    STRUCTURE_ROWS + ZONE_ROWS
}

/// The rows of short files.
const STRUCTURE_ROWS: u8 = 6;

/// The rows of numbers, dates and a composite.
const ZONE_ROWS: u8 = 7;
