//! The list of data group tags: whether it is sound (case 7), and whether it names the declared set (case 8).
ghost use Rattle.std.specs.Prelude.{◌≡◌, ◌<◌, length, MatchOption, MatchResult};
ghost use Rattle.common.specs.Tags.{group_tag, GroupTag, FirstBreakAt, Names};
ghost use Rattle.common.specs.Lines.{AreTagLines};

use card::{Failure, Line, Profile, TEMPLATE_TAGS};
use object::Value;

/// The lines of cases 7 and 8.
#[derive(Clone, Copy)]
pub(crate) struct TagLines {
    pub tags: Line,
    pub declared: Line,
}

/// Cases 7 and 8, over the list of tags.
pub(crate) fn tag_lines(tags: Value<'_>, profile: Profile) -> TagLines
    ensures { AreTagLines profile tags.entry.place tags.entry.bytes.now
        result.tags result.declared }
{
    match tag_set(tags) {
        Ok(set) => TagLines {
            tags: Line::Pass,
            declared: Line::judged(set == profile.declared(), tags.place),
        },
        Err(failure) => TagLines {
            tags: Line::from(failure),
            declared: Line::Blocked,
        },
    }
}

/// The set of the data groups whose tags are in the list; else the place of the first byte that breaks the list.
fn tag_set(tags: Value<'_>) -> Result<u16, Failure>
    ensures { MatchResult result
        (Names tags.entry.bytes.now (length tags.entry.bytes.now))
        (λ failure. FirstBreakAt tags.entry.place tags.entry.bytes.now failure.place) }
{
    let mut set: u16 = 0;
    // One walk builds the set and stops at the first byte that breaks the list, with no memory but the set.
    for (i, tag) in tags.bytes.iter().enumerate() {
        let failure = Failure {
            place: tags.place + i,
        };
        let Some(group) = group_of(*tag) else {
            return Err(failure);
        };
        let member = 1u16 << group;
        if set & member != 0 {
            return Err(failure);
        }
        set |= member;
    }
    Ok(set)
}

/// The data group with this tag, 0 for DG1 to 15 for DG16; `None` exactly if it is no data group tag.
fn group_of(tag: u8) -> Option<usize>
    ensures { MatchOption result (GroupTag tag → ⊥)
        (λ group. (group < 16) × (group_tag group ≡ tag)) }
{
    TEMPLATE_TAGS[1..17].iter().position(|other| *other == tag)
}
