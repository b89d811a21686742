//! A list of calls, made in order on a new run that nothing else handles.
ghost use Rattle.std.specs.Prelude.{◌≡◌};
ghost use Rattle.run.specs.Histories.{basis, Turns};
ghost use Rattle.run.specs.Holding.{profile_of, card_of, basis_of, scene_of, Kept};
ghost use Rattle.run.specs.Promise.{Promise};
ghost use Rattle.run.specs.Steps.{event, SameCall};

use crate::refusal::{AskRefusal, CloseRefusal, JudgeRefusal};
use crate::run::{Run, Summary};
use card::{Line, Profile};
use source::Source;

/// A call on a run, with a place for its answer.
#[derive(Drop)]
pub enum Step {
    /// Judge a file, with the buffer that it is read to.
    Judge {
        file: u8,
        buffer: Vec<u8>,
        answer: Option<Result<(), JudgeRefusal>>,
    },
    /// Ask for the line of a case and a file.
    Ask {
        case: u8,
        file: u8,
        answer: Option<Result<Line, AskRefusal>>,
    },
    /// Close the run.
    Close {
        answer: Option<Result<Summary, CloseRefusal>>,
    },
}

/// Makes the calls in order on a new run over the source, puts each answer into its step, and hands the source back.
pub fn perform<S: Source>(source: S, profile: Profile, steps: &mut [Step]) -> S
    ensures files { S.files result ≡ S.files source }
    ensures promise { let on = basis S.lost S.outcomes (S.files source) profile in
        Promise on source result steps.old steps.new }
{
    let mut run = Run::open(source, profile);
    for step in steps.iter_mut() {
        make(&mut run, step);
    }
    run.into_source()
}

// `Kept` stands in clauses and not in the type: a ghost field holds a proposition, and the lines that `Kept` tells of are data.
/// Makes one call.
fn make<S: Source>(run: &mut Run<S>, step: &mut Step)
    requires { Kept S.files run.old }
    ensures files { card_of S.files run.new ≡ card_of S.files run.old }
    ensures profile { profile_of run.new ≡ profile_of run.old }
    ensures kept { Kept S.files run.new }
    ensures same { SameCall step.old step.new }
    ensures turns { Turns (basis_of S.lost S.outcomes S.files run.old)
        (scene_of S.lost run.old) (event step.old step.new) (scene_of S.lost run.new) }
{
    match step {
        Step::Judge {
            file,
            buffer,
            answer,
        } => {
            let judged = run.judge(*file, buffer.as_mut_slice());
            *answer = Some(judged);
        }
        Step::Ask { case, file, answer } => {
            *answer = Some(run.ask(*case, *file));
        }
        Step::Close { answer } => {
            *answer = Some(run.close());
        }
    }
}
