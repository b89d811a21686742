//! Which cases a file has of its own, as a table. Cases 1 to 3 every file has.
//! What lists the lines of a card goes by this table, and the proofs by the rows that it is equal to.
ghost use Rattle.std.specs.Prelude.{◌↔◌, IsTrue};

/// Cases that one file alone has: so many, from the first on.
#[derive(Clone, Copy, Debug, PartialEq, Eq)]
pub struct CaseRow {
    pub file: u8,
    pub first: u8,
    pub count: u8,
}

impl CaseRow {
    ghost use Rattle.card.specs.Cases.{InRow};

    /// Whether the case is one of the row, and the file the row's.
    #[inline(always)]
    pub fn has(self, case: u8, file: u8) -> bool
        ensures { IsTrue result ↔ InRow self case file }
    {
        file == self.file && case >= self.first && case - self.first < self.count
    }
}

/// How many cases every file has: 1 to 3.
pub const SHARED_CASES: usize = 3;

/// How many rows there are.
pub const ROWS: usize = 4;

/// The cases that one file alone has, in the order of their numbers.
pub const OWN_CASES: [CaseRow; ROWS] = [
    CaseRow {
        file: 0,
        first: 4,
        count: 5,
    },
    CaseRow {
        file: 1,
        first: 9,
        count: 12,
    },
    CaseRow {
        file: 2,
        first: 21,
        count: 3,
    },
    CaseRow {
        file: 17,
        first: 24,
        count: 1,
    },
];
