//! Cases 1 to 3, which every file has: it is there exactly if it is required, it is its template, and objects tile it.
ghost use Rattle.std.specs.Prelude.{◌≡◌, ◌≤◌, [], ◌∷◌, MatchResult};
ghost use Rattle.std.specs.Option.{option_copied};
ghost use Rattle.card.specs.Cards.{template_tag_of};
ghost use Rattle.card.specs.Profiles.{required};

use crate::template::open_template;
use card::{Line, Profile, TEMPLATE_TAGS};
use object::{Reader, tile};

/// On how many levels objects may stand inside a template, which is level 1 of 16.
const LEVELS_INSIDE: u8 = 15;

/// The lines of cases 1 to 3.
#[derive(Clone, Copy, Debug, PartialEq, Eq)]
pub struct Structure {
    pub present: Line,
    pub template: Line,
    pub tiling: Line,
}

impl Structure {
    /// The lines where all three cases pass.
    pub(crate) const SOUND: Structure = Structure {
        present: Line::Pass,
        template: Line::Pass,
        tiling: Line::Pass,
    };

    /// The lines of cases 1 to 3, in order.
    pub(crate) fn by_case(self) -> [Line; 3]
        ensures { result ≡ self.present ∷ self.template ∷ self.tiling ∷ [] }
    {
        [self.present, self.template, self.tiling]
    }
}

/// Why the later cases of a file are not judged: the lines of cases 1 to 3, and the line that each later case has then.
#[derive(Clone, Copy, Debug, PartialEq, Eq)]
pub struct Unjudged {
    pub structure: Structure,
    pub later: Line,
}

impl Unjudged {
    /// The file is there and should not be, or is not there and should be.
    const MISPLACED: Unjudged = Unjudged {
        structure: Structure {
            present: Line::Fail { place: 0 },
            template: Line::Blocked,
            tiling: Line::Blocked,
        },
        later: Line::Blocked,
    };

    /// The file neither is there nor should be.
    const UNUSED: Unjudged = Unjudged {
        structure: Structure {
            present: Line::Pass,
            template: Line::NotApplicable,
            tiling: Line::NotApplicable,
        },
        later: Line::NotApplicable,
    };
}

ghost use Rattle.cases.specs.Structures.{IsSound, IsStopped, Expected, Unopened};

/// Case 1: the file's bytes, if it is there and should be.
pub(crate) fn find_file(content: Option<&[u8]>, required: bool) -> Result<&[u8], Unjudged>
    ensures { MatchResult result
        (λ bytes. Expected required (option_copied content.entry) bytes.now)
        (Unopened required (option_copied content.entry)) }
{
    match content {
        Some(bytes) if required => Ok(bytes),
        None if !required => Err(Unjudged::UNUSED),
        _ => Err(Unjudged::MISPLACED),
    }
}

// Public calls take any number of a file; that it is none above 17 is asked here and where it is passed on.
/// A reader at the template's value, if cases 1 to 3 pass.
pub(crate) fn open_file(
    file: u8,
    content: Option<&[u8]>,
    profile: Profile,
) -> Result<Reader<'_>, Unjudged>
    requires { file ≤ 17 }
    ensures { let tag = template_tag_of file in
        let must = required profile file in
        MatchResult result (IsSound tag must (option_copied content.entry))
        (IsStopped tag must (option_copied content.entry)) }
{
    let bytes = find_file(content, profile.required(file))?;
    let reader = open_template(bytes, TEMPLATE_TAGS[usize::from(file)]).map_err(
        |failure| Unjudged {
            structure: Structure {
                template: failure.into(),
                tiling: Line::Blocked,
                ..Structure::SOUND
            },
            later: Line::Blocked,
        },
    )?;
    match tile(reader, LEVELS_INSIDE) {
        Ok(()) => Ok(reader),
        Err(failure) => Err(Unjudged {
            structure: Structure {
                tiling: failure.into(),
                ..Structure::SOUND
            },
            later: Line::Blocked,
        }),
    }
}
