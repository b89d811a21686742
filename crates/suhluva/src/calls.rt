//! The calls of a run, and what came of them.
use crate::asks::what_case_asks;
use crate::by_file::{ByFile, FileName};
use crate::word::{Call, Chosen};
use card::{EF_SOD, Line};
use run::Step;
use sheet::Sheet;
use std::alloc::{AllocError, Global};
use std::fmt;

/// The calls of a run, in their order. The line that is being answered made those from `latest` on.
#[derive(Drop)]
pub(crate) struct Calls {
    pub(crate) steps: Vec<Step>,
    latest: usize,
}

impl Calls {
    /// No call.
    pub(crate) fn new(heap: Global) -> Calls {
        Calls {
            steps: Vec::new(heap),
            latest: 0,
        }
    }

    /// The calls of one more line, without answers.
    pub(crate) fn add(&mut self, call: Call) -> Result<(), AllocError> {
        self.latest = self.steps.len();
        match call {
            Call::Judge { chosen, room } => {
                for file in chosen.files() {
                    self.judge(file, usize::from(room))?;
                }
            }
            Call::Ask { case, file } => self.ask(case, file)?,
            Call::Failing | Call::Lines => {
                for line in Sheet::new().walk() {
                    self.ask(line.case, line.file)?;
                }
            }
            Call::Close => self.steps.push(Step::Close { answer: None })?,
        }
        Ok(())
    }

    /// A judge of a file, with a buffer of so many bytes.
    fn judge(&mut self, file: u8, room: usize) -> Result<(), AllocError> {
        let buffer = vec![in *self.steps.allocator(); 0u8; room]?;
        self.steps.push(Step::Judge {
            file,
            buffer,
            answer: None,
        })?;
        Ok(())
    }

    /// An ask for the line of a case and a file.
    fn ask(&mut self, case: u8, file: u8) -> Result<(), AllocError> {
        self.steps.push(Step::Ask {
            case,
            file,
            answer: None,
        })?;
        Ok(())
    }

    /// What came of the calls of the line that is being answered.
    pub(crate) fn told(&self, heap: Global, call: Call) -> Result<String, AllocError> {
        let steps = self.steps.get(self.latest..).unwrap_or(&[]);
        match (call, steps) {
            (Call::Failing, _) => failing(heap, steps),
            (Call::Lines, _) => lines(heap, steps),
            (
                Call::Judge {
                    chosen: Chosen::All,
                    ..
                },
                _,
            ) => judges(heap, steps),
            (_, [step]) => answer(heap, step),
            _ => Ok(String::new(heap)),
        }
    }
}

/// What a call answered.
fn answer(heap: Global, step: &Step) -> Result<String, AllocError> {
    match step {
        Step::Judge { answer, .. } => text_of(heap, answer.map(|judged| judged.map(|()| "judged"))),
        Step::Ask {
            case,
            answer: Some(Ok(line)),
            ..
        } => format!(in heap; "{line}; it asks that {}", what_case_asks(*case)),
        Step::Ask { answer, .. } => text_of(heap, *answer),
        Step::Close { answer } => text_of(heap, *answer),
    }
}

/// An answer or a refusal; a call that was not made has none.
fn text_of<T: fmt::Display + Drop, R: fmt::Display + Drop>(
    heap: Global,
    answer: Option<Result<T, R>>,
) -> Result<String, AllocError> {
    match answer {
        Some(Ok(value)) => format!(in heap; "{value}"),
        Some(Err(refusal)) => format!(in heap; "{refusal}"),
        None => String::from_str(heap, "not made"),
    }
}

/// The answers of judges, file by file.
fn judges(heap: Global, steps: &[Step]) -> Result<String, AllocError> {
    let mut rows = ByFile::new(heap);
    for step in steps {
        if let Step::Judge { file, .. } = step {
            rows.add(*file, answer(heap, step)?)?;
        }
    }
    rows.finish()
}

/// The lines that fail, with what their case asks, and how many are open.
fn failing(heap: Global, steps: &[Step]) -> Result<String, AllocError> {
    let mut text = String::new(heap);
    let mut open = 0u64;
    for step in steps {
        match step {
            Step::Ask {
                case,
                file,
                answer: Some(Ok(Line::Fail { place })),
            } => {
                let name = FileName { file: *file };
                let asks = what_case_asks(*case);
                write!(
                    text,
                    "\n  case {case} of {name} fails at {place}: it asks that {asks}"
                )?;
            }
            Step::Ask {
                answer: Some(Ok(Line::Open)),
                ..
            } => open = open.saturating_add(1),
            _ => {}
        }
    }
    let mut gap = "\n  ";
    if text.is_empty() {
        write!(text, "no line fails")?;
        gap = "; ";
    }
    if open > 0 {
        write!(
            text,
            "{gap}{open} lines are open, since their files are not judged"
        )?;
    }
    Ok(text)
}

/// All lines, file by file.
fn lines(heap: Global, steps: &[Step]) -> Result<String, AllocError> {
    let mut rows = ByFile::new(heap);
    for of in 0..=EF_SOD {
        let mut text = String::new(heap);
        for step in steps {
            match step {
                Step::Ask {
                    case,
                    file,
                    answer: Some(Ok(line)),
                } if *file == of => {
                    let before = if text.is_empty() { "" } else { "; " };
                    write!(text, "{before}{case} {line}")?;
                }
                _ => {}
            }
        }
        rows.add(of, text)?;
    }
    rows.finish()
}
