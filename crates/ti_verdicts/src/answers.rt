//! The answers about entries, and the number of answers of each kind.

ghost use Rattle.std.specs.{Prelude.{◌≡◌, ◌++◌, IfOk, OnOk, map}, List.{flat_map}};
ghost use Rattle.ti_files.specs.Words.{texts_of};
ghost use Rattle.ti_verdicts.specs.{FaultAnswers.{fault_answer}, AnswerNames.{answer_name}};
ghost use Rattle.ti_verdicts.specs.Counts as spec;

use crate::refusals::cause_name;
use std::alloc::{AllocError, Global};
use ti_checker::{Cause, No};

/// The answer of a line about an entry.
#[derive(Clone, Copy, Debug, PartialEq, Eq)]
pub enum Answer {
    /// The entry has a certificate.
    Yes,
    /// The entry has no certificate, for this cause.
    No(Cause),
    /// The entry has no certificate, since it is for a terminal of another kind.
    OtherKind,
    /// The entry is only there to be used by others.
    Part,
    /// The entry can't be read.
    Refused,
}

impl Answer {
    /// The word by which the answer is counted.
    fn name(self) -> &'static [u8]
        ensures { result.now ≡ answer_name self }
    {
        match self {
            Answer::Yes => b"yes",
            Answer::No(cause) => cause_name(cause),
            Answer::OtherKind => b"OtherKind",
            Answer::Part => b"part",
            Answer::Refused => b"refused",
        }
    }
}

/// The answers in the order in which they are counted.
const ANSWERS: [&str; 22] = [
    "yes",
    "FlagOut",
    "Absent",
    "AcsByte",
    "Underflow",
    "BadNest",
    "BadCode",
    "Overflow",
    "BadChar",
    "WrongKind",
    "StaticRead",
    "Unfinished",
    "Stuck",
    "NotTame",
    "BadLook",
    "WrongEffect",
    "NotShown",
    "TooLong",
    "NoResync",
    "OtherKind",
    "part",
    "refused",
];

/// The line of counts: the number of `answers`, and the number of each kind that occurs.
pub fn answers_line(alloc: Global, answers: &[Answer]) -> Result<Vec<u8>, AllocError>
    ensures { IfOk result (λ line. line.items ≡ spec.answers_line answers.now) }
{
    let total = answers.len();
    let mut line = format!(in alloc; "total {total}")?.into_bytes();
    push_answers(alloc, answers, &mut line)?;
    line.push(b'\n')?;
    Ok(line)
}

/// Appends the number of `answers` of each kind that occurs.
fn push_answers(alloc: Global, answers: &[Answer], line: &mut Vec<u8>) -> Result<(), AllocError>
    ensures { OnOk result (line.new.items
        ≡ line.old.items ++ flat_map (spec.answer_part answers.now) spec.answer_names) }
{
    push_named(alloc, answers, &ANSWERS, line)
}

/// Appends the number of `answers` for each of these `names`, in their order.
fn push_named(
    alloc: Global,
    answers: &[Answer],
    names: &[&str],
    line: &mut Vec<u8>,
) -> Result<(), AllocError>
    ensures { OnOk result (line.new.items
        ≡ line.old.items ++ flat_map (spec.answer_part answers.now) (texts_of names.now)) }
{
    for name in names {
        push_count(alloc, answers, name, line)?;
    }
    Ok(())
}

/// Appends the number of `answers` that have this `name`, if any has.
fn push_count(
    alloc: Global,
    answers: &[Answer],
    name: &str,
    line: &mut Vec<u8>,
) -> Result<(), AllocError>
    ensures { OnOk result (line.new.items ≡ line.old.items ++ spec.answer_part answers.now name.now) }
{
    push_part(alloc, count_of(answers, name), name, line)
}

/// Appends `count` with this `name`, if it isn't 0.
fn push_part(alloc: Global, count: usize, name: &str, line: &mut Vec<u8>) -> Result<(), AllocError>
    ensures { OnOk result (line.new.items ≡ line.old.items ++ spec.part_of count name.now) }
{
    if count == 0 {
        return Ok(());
    }
    let part = format!(in alloc; ", {name} {count}")?;
    line.extend_from_slice(part.as_bytes())
}

/// The number of `answers` that have this `name`.
fn count_of(answers: &[Answer], name: &str) -> usize
    ensures { result ≡ spec.answer_count answers.now name.now }
{
    answers
        .iter()
        .filter(|answer| answer.name() == name.as_bytes())
        .count()
}

/// The answers of the lines of the faults `nos`.
pub fn fault_answers(alloc: Global, nos: &[No]) -> Result<Vec<Answer>, AllocError>
    ensures { IfOk result (λ answers. answers.items ≡ map fault_answer nos.now) }
{
    let mut answers = Vec::new(alloc);
    for no in nos {
        answers.push(Answer::No(no.cause))?;
    }
    Ok(answers)
}
