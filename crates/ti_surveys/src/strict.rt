//! The failure of a survey that fails if an entry isn't right.

ghost use Rattle.std.specs.{Prelude.{◌≡◌, IfOk, Some}, List.{list_all}};
ghost use Rattle.ti_surveys.specs.Strict as spec;

use std::alloc::{AllocError, Global};
use ti_files::{CommandRefusal, Failure};
use ti_verdicts::Answer;

/// The failure of a survey whose lines have these `answers`. The `failure` of a path that can't be read comes first;
/// else, if the survey `is_strict`, it is refused as `Faulty` if some line doesn't say yes. An entry that is only there
/// to be used counts as if it did.
pub fn strict_failure(
    alloc: Global,
    is_strict: bool,
    answers: &[Answer],
    failure: Option<Failure>,
) -> Result<Option<Failure>, AllocError>
    ensures { IfOk result (λ ended. spec.EndsStrictly is_strict answers.now failure ended) }
{
    match failure {
        Some(failure) => Ok(Some(failure)),
        None => {
            if is_strict && !all_pass(answers) {
                Ok(Some(faulty(alloc)?))
            } else {
                Ok(None)
            }
        }
    }
}

/// The failure of a survey with a line that doesn't say yes.
fn faulty(alloc: Global) -> Result<Failure, AllocError>
    ensures { IfOk result (λ failure. spec.IsFaulty (Some failure)) }
{
    let words = Vec::from_slice(alloc, b"Faulty")?;
    Ok(Failure::Refused(CommandRefusal::Verdict(words)))
}

/// Whether a strict survey passes all of these `answers`.
fn all_pass(answers: &[Answer]) -> bool
    ensures { result ≡ list_all spec.passes answers.now }
{
    answers.iter().all(|answer| passes(*answer))
}

/// Whether a strict survey passes this `answer`.
fn passes(answer: Answer) -> bool
    ensures { result ≡ spec.passes answer }
{
    match answer {
        Answer::Yes | Answer::Part => true,
        Answer::No(_) | Answer::OtherKind | Answer::Refused => false,
    }
}
