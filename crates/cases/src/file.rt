//! The lines of each kind of file: cases 1 to 3, then its own cases, which wait for these and are judged over the template's
//! value.
ghost use Rattle.std.specs.Prelude.{◌≡◌, ◌≤◌, ◌↔◌, IsTrue};
ghost use Rattle.std.specs.Option.{option_copied};
ghost use Rattle.object.specs.Objects.{Begins};
ghost use Rattle.object.specs.Readers.{rest_of};
ghost use Rattle.object.specs.declared.reader.Reader.{Reader};
ghost use Rattle.cases.specs.Structures.{Later};
ghost use Rattle.cases.specs.Templates.{One};
ghost use Rattle.cases.specs.Files.{FileHas, CommonFile, ZoneFile, FaceFile, SecurityFile, TreeFile, FreeFile};

use crate::structure::{Structure, find_file, open_file};
use crate::template::open_template;
use card::{DG1, DG2, EF_COM, EF_SOD, Line, Profile, TEMPLATE_TAGS};
use common::{CommonLines, common_lines};
use faces::{FaceLines, face_lines};
use object::Reader;
use zone::{ZoneLines, zone_lines};

/// DG13, whose value is free.
pub(crate) const DG13: u8 = 13;

/// The tag of the one object that EF.SOD holds.
const SIGNED_DATA: u16 = 0x30;

/// The lines of a file: those of cases 1 to 3, and those of its own cases.
#[derive(Clone, Copy, Debug, PartialEq, Eq)]
pub struct FileLines<T> {
    pub structure: Structure,
    pub own: T,
}

/// The lines of a file whose own cases are judged so over the template's value, and each have one line where they are not.
fn judge_file<T: Drop, U: FnOnce(Line) -> T, F: FnOnce(Reader<'_>) -> T>(
    file: u8,
    content: Option<&[u8]>,
    profile: Profile,
    unjudged: U,
    own: F,
) -> FileLines<T>
    requires numbered { file ≤ 17 }
    requires callable { U.IsAlwaysCallable unjudged × F.IsAlwaysCallable own }
    ensures { let later : Later = record {
      judged = λ place value. (reader : Reader) × (reader.position ≡ place)
          × (rest_of reader ≡ value) × F.post own reader result.own;
      unjudged = λ line. U.post unjudged line result.own;
    } in
        FileHas profile file (option_copied content.entry) result.structure later }
{
    match open_file(file, content, profile) {
        Ok(reader) => FileLines {
            structure: Structure::SOUND,
            own: own(reader),
        },
        Err(stopped) => FileLines {
            structure: stopped.structure,
            own: unjudged(stopped.later),
        },
    }
}

/// The lines of EF.COM: cases 1 to 3, and 4 to 8.
pub(crate) fn judge_common(content: Option<&[u8]>, profile: Profile) -> FileLines<CommonLines>
    ensures { CommonFile profile (option_copied content.entry) result.structure result.own }
{
    judge_file(
        EF_COM,
        content,
        profile,
        CommonLines::unjudged,
        |reader| common_lines(reader, profile),
    )
}

/// The lines of DG1: cases 1 to 3, and 9 to 20.
pub(crate) fn judge_zone(content: Option<&[u8]>, profile: Profile) -> FileLines<ZoneLines>
    ensures { ZoneFile profile (option_copied content.entry) result.structure result.own }
{
    judge_file(
        DG1,
        content,
        profile,
        |line| ZoneLines::unjudged(line, profile),
        |reader| zone_lines(reader, profile),
    )
}

/// The lines of DG2: cases 1 to 3, and 21 to 23.
pub(crate) fn judge_faces(content: Option<&[u8]>, profile: Profile) -> FileLines<FaceLines>
    ensures { FaceFile profile (option_copied content.entry) result.structure result.own }
{
    judge_file(DG2, content, profile, FaceLines::unjudged, face_lines)
}

/// The lines of EF.SOD: cases 1 to 3, and 24. Hashes and signatures are not looked at.
pub(crate) fn judge_security(content: Option<&[u8]>, profile: Profile) -> FileLines<Line>
    ensures { SecurityFile profile (option_copied content.entry) result.structure result.own }
{
    judge_file(
        EF_SOD,
        content,
        profile,
        |line| line,
        |reader| Line::judged(reader.only(SIGNED_DATA).is_some(), reader.position),
    )
}

/// The lines of cases 1 to 3 of a data group of trees, which has no others.
pub(crate) fn judge_trees(file: u8, content: Option<&[u8]>, profile: Profile) -> Structure
    requires { file ≤ 17 }
    ensures { TreeFile profile file (option_copied content.entry) result }
{
    match open_file(file, content, profile) {
        Ok(_) => Structure::SOUND,
        Err(stopped) => stopped.structure,
    }
}

/// The lines of cases 1 to 3 of DG13, of which the last never applies.
pub(crate) fn judge_free(content: Option<&[u8]>, profile: Profile) -> Structure
    ensures { FreeFile profile (option_copied content.entry) result }
{
    let lines = match find_file(content, profile.required(DG13)) {
        Ok(bytes) => Structure {
            template: match open_template(bytes, TEMPLATE_TAGS[usize::from(DG13)]) {
                Ok(_) => Line::Pass,
                Err(failure) => failure.into(),
            },
            ..Structure::SOUND
        },
        Err(stopped) => stopped.structure,
    };
    Structure {
        tiling: Line::NotApplicable,
        ..lines
    }
}
