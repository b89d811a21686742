//! The verdict of a file, and of a whole card: the lines go from the judges straight onto a sheet.
ghost use Rattle.std.specs.Prelude.{◌≡◌, ◌<◌, ◌≤◌, ◌↔◌, IsTrue};
ghost use Rattle.std.specs.Option.{option_copied};
ghost use Rattle.card.specs.Cards.{files_at};
ghost use Rattle.card.specs.Purposes.{purpose_of};
ghost use Rattle.card.specs.declared.files.Purpose.TheVariants.{Trees};
ghost use Rattle.cases.specs.Verdicts.{Judged, HoldsCard};
ghost use Rattle.sheet.specs.Sheets.{is_judged, Complete};

use crate::file::{
    DG13, judge_common, judge_faces, judge_free, judge_security, judge_trees, judge_zone,
};
use card::{CardFiles, DG1, DG2, EF_COM, EF_SOD, Profile, Purpose, file_purpose};
use sheet::Sheet;

/// Judges a file and writes its lines onto the sheet; the file then counts as judged. Answers whether there is a file of this
/// number; where there is none, nothing changes.
pub fn write_verdict(sheet: &mut Sheet, file: u8, content: Option<&[u8]>, profile: Profile) -> bool
    ensures answer { IsTrue result ↔ (file ≤ 17) }
    ensures judged { file ≤ 17 →
        Judged profile file (option_copied content.entry) sheet.old sheet.new }
    ensures still { 17 < file → sheet.new ≡ sheet.old }
{
    let Some(purpose) = file_purpose(file) else {
        return false;
    };
    match purpose {
        Purpose::Common => write_common(sheet, content, profile),
        Purpose::Zone => write_zone(sheet, content, profile),
        Purpose::Faces => write_faces(sheet, content, profile),
        Purpose::Trees => write_trees(sheet, file, content, profile),
        Purpose::Free => write_free(sheet, content, profile),
        Purpose::Security => write_security(sheet, content, profile),
    }
    true
}

/// Judges all files of a card, and writes their lines onto the sheet; every file then counts as judged.
pub fn judge_card(sheet: &mut Sheet, files: &CardFiles<'_>, profile: Profile)
    ensures holds { HoldsCard profile (files_at files.now.by_number) sheet.new }
    ensures judged { Complete (is_judged sheet.new) }
{
    for file in 0..=EF_SOD {
        write_verdict(sheet, file, files.get(file), profile);
    }
}

// One for each purpose, since each judge answers lines of a type of its own.

/// The verdict of EF.COM.
fn write_common(sheet: &mut Sheet, content: Option<&[u8]>, profile: Profile)
    ensures { Judged profile 0 (option_copied content.entry) sheet.old sheet.new }
{
    let common = judge_common(content, profile);
    sheet.write(EF_COM, &common.structure.by_case(), &common.own.by_case());
}

/// The verdict of DG1.
fn write_zone(sheet: &mut Sheet, content: Option<&[u8]>, profile: Profile)
    ensures { Judged profile 1 (option_copied content.entry) sheet.old sheet.new }
{
    let zone = judge_zone(content, profile);
    sheet.write(DG1, &zone.structure.by_case(), &zone.own.by_case());
}

/// The verdict of DG2.
fn write_faces(sheet: &mut Sheet, content: Option<&[u8]>, profile: Profile)
    ensures { Judged profile 2 (option_copied content.entry) sheet.old sheet.new }
{
    let faces = judge_faces(content, profile);
    sheet.write(DG2, &faces.structure.by_case(), &faces.own.by_case());
}

/// The verdict of a data group of trees.
fn write_trees(sheet: &mut Sheet, file: u8, content: Option<&[u8]>, profile: Profile)
    requires { (file ≤ 17) × (purpose_of file ≡ Trees) }
    ensures { Judged profile file (option_copied content.entry) sheet.old sheet.new }
{
    let trees = judge_trees(file, content, profile);
    sheet.write(file, &trees.by_case(), &[]);
}

/// The verdict of DG13.
fn write_free(sheet: &mut Sheet, content: Option<&[u8]>, profile: Profile)
    ensures { Judged profile 13 (option_copied content.entry) sheet.old sheet.new }
{
    let free = judge_free(content, profile);
    sheet.write(DG13, &free.by_case(), &[]);
}

/// The verdict of EF.SOD.
fn write_security(sheet: &mut Sheet, content: Option<&[u8]>, profile: Profile)
    ensures { Judged profile 17 (option_copied content.entry) sheet.old sheet.new }
{
    let security = judge_security(content, profile);
    sheet.write(EF_SOD, &security.structure.by_case(), &[security.own]);
}
