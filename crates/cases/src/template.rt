//! Case 2: a file is its template and nothing more.
ghost use Rattle.std.specs.Prelude.{◌≡◌, MatchResult};
ghost use Rattle.object.specs.Objects.{ShortTag};
ghost use Rattle.cases.specs.Templates.{OpensAt, FailsAt};

use card::Failure;
use object::{Reader, read_length};

/// A reader at the value of the file's template, or the place at which case 2 fails.
pub(crate) fn open_template(bytes: &[u8], tag: u8) -> Result<Reader<'_>, Failure>
    requires { ShortTag tag }
    ensures { MatchResult result (OpensAt tag bytes.now)
        (λ failure. FailsAt tag bytes.now failure.place) }
{
    let Some(rest) = bytes.strip_prefix(&[tag]) else {
        return Err(Failure { place: 0 });
    };
    let Some((length, size)) = read_length(rest) else {
        return Err(Failure { place: 1 });
    };
    let end = 1 + size + length;
    if end != bytes.len() {
        return Err(Failure {
            place: end.min(bytes.len()),
        });
    }
    Ok(Reader::starting(bytes, 1 + size))
}
