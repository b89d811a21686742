//! The three layouts of the zone: how long it is, and where its fields stand. Characters are counted from 0.
ghost use Rattle.std.specs.Prelude.{◌≡◌};
ghost use Rattle.zone.specs.declared.layout.Places.{Places};
ghost use Rattle.zone.specs.Layouts.{td1, td2, td3, LawfulPlaces};

/// The characters from `start` on, before `end`.
#[derive(Clone, Copy)]
pub struct Span {
    pub start: usize,
    pub end: usize,
}

/// The characters that the composite covers, in rising order.
#[derive(Clone, Copy)]
pub struct Cover {
    pub first: Span,
    pub second: Span,
    pub third: Span,
}

/// Where the fields of a zone stand. A check digit stands right behind its field.
#[derive(Clone, Copy)]
pub struct Places {
    /// How many characters the zone has.
    pub len: usize,
    /// Whether the code is that of a passport: a yes or no, as a row of the layouts' table has it.
    pub passport: bool,
    pub code: Span,
    pub issuer: Span,
    pub name: Span,
    pub number: Span,
    pub nationality: Span,
    pub birth: Span,
    pub sex: usize,
    pub expiry: Span,
    /// The optional field, where a check digit stands behind it.
    pub optional: Option<Span>,
    pub cover: Cover,
    pub composite: usize,
}

/// A layout of the zone.
pub trait Layout {
    /// Where the fields stand.
    const PLACES: Places;

    // The same in clauses.
    ghost PLACES: { Places };

    /// `PLACES`, all inside the zone, the covered ones in rising order and before the composite.
    // Each layout has it itself: that its places are lawful is proved where they are known.
    fn spans() -> Places
        ensures same { result ≡ PLACES }
        ensures lawful { LawfulPlaces result };
}

/// Three lines of 30 characters.
pub struct Td1;

/// Two lines of 36 characters.
pub struct Td2;

/// Two lines of 44 characters.
pub struct Td3;

impl Layout for Td1 {
    const PLACES: Places = Places {
        len: 90,
        passport: false,
        code: Span { start: 0, end: 2 },
        issuer: Span { start: 2, end: 5 },
        name: Span { start: 60, end: 90 },
        number: Span { start: 5, end: 14 },
        nationality: Span { start: 45, end: 48 },
        birth: Span { start: 30, end: 36 },
        sex: 37,
        expiry: Span { start: 38, end: 44 },
        optional: None,
        cover: Cover {
            first: Span { start: 5, end: 37 },
            second: Span { start: 38, end: 45 },
            third: Span { start: 48, end: 59 },
        },
        composite: 59,
    };

    ghost PLACES = { td1 };

    fn spans() -> Places {
        Self::PLACES
    }
}

impl Layout for Td2 {
    const PLACES: Places = Places {
        len: 72,
        passport: false,
        code: Span { start: 0, end: 2 },
        issuer: Span { start: 2, end: 5 },
        name: Span { start: 5, end: 36 },
        number: Span { start: 36, end: 45 },
        nationality: Span { start: 46, end: 49 },
        birth: Span { start: 49, end: 55 },
        sex: 56,
        expiry: Span { start: 57, end: 63 },
        optional: None,
        cover: Cover {
            first: Span { start: 36, end: 46 },
            second: Span { start: 49, end: 56 },
            third: Span { start: 57, end: 71 },
        },
        composite: 71,
    };

    ghost PLACES = { td2 };

    fn spans() -> Places {
        Self::PLACES
    }
}

impl Layout for Td3 {
    const PLACES: Places = Places {
        len: 88,
        passport: true,
        code: Span { start: 0, end: 2 },
        issuer: Span { start: 2, end: 5 },
        name: Span { start: 5, end: 44 },
        number: Span { start: 44, end: 53 },
        nationality: Span { start: 54, end: 57 },
        birth: Span { start: 57, end: 63 },
        sex: 64,
        expiry: Span { start: 65, end: 71 },
        optional: Some(Span { start: 72, end: 86 }),
        cover: Cover {
            first: Span { start: 44, end: 54 },
            second: Span { start: 57, end: 64 },
            third: Span { start: 65, end: 87 },
        },
        composite: 87,
    };

    ghost PLACES = { td3 };

    fn spans() -> Places {
        Self::PLACES
    }
}
