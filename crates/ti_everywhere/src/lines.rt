//! The line of an entry in a survey of every size.

ghost use Rattle.std.specs.Prelude.{IfOk};
ghost use Rattle.ti_caps.specs.Entry.{Content};
ghost use Rattle.ti_everywhere.specs.Lines as spec;
ghost use Rattle.ti_sizes.specs.Answers.{IsAnswer};
ghost use Rattle.ti_surveys.specs.Told.{told_of};

use crate::words::{Words, doubt_words, no_at};
use std::alloc::{AllocError, Global};
use ti_files::{CommandRefusal, push_shown, refusal_words};
use ti_sizes::EverySize;
use ti_surveys::Said;
use ti_verdicts::Answer;

/// The line of `name` with the `words` about it. Each byte outside 32 to 126 is in octal.
fn line(alloc: Global, name: &[u8], words: &[u8]) -> Words {
    let mut line = Vec::new(alloc);
    push_shown(&mut line, name)?;
    line.push(b' ')?;
    push_shown(&mut line, words)?;
    line.push(b'\n')?;
    Ok(line)
}

/// The words of an `answer`.
fn answer_words(alloc: Global, answer: &EverySize) -> Words {
    match answer {
        EverySize::Yes => Vec::from_slice(alloc, b"yes"),
        EverySize::No(size, no) => no_at(alloc, *size, no),
        EverySize::Undecided(cap) => doubt_words(alloc, b"undecided", *cap),
    }
}

/// How an `answer` is counted. `ti_verdicts` has no answer for a doubt; the one for another kind of terminal, which no
/// entry gets here, is taken for it.
fn counted(answer: &EverySize) -> Answer
    ensures { (entry : Content) → IsAnswer entry answer.now → spec.IsTrueOf entry result }
{
    match answer {
        EverySize::Yes => Answer::Yes,
        EverySize::No(_, no) => Answer::No(no.cause),
        EverySize::Undecided(_) => Answer::OtherKind,
    }
}

/// The statement with this `answer` about the entry of this `name`.
pub(crate) fn said_of(alloc: Global, name: &[u8], answer: &EverySize) -> Result<Said, AllocError>
    ensures { (entry : Content) → IsAnswer entry answer.now → IfOk result (λ said. spec.Says entry (told_of said)) }
{
    let words = answer_words(alloc, answer)?;
    let line = line(alloc, name, words.as_slice())?;
    Said::of_line(alloc, line, counted(answer))
}

/// The statement about what has this `name` and can't be obtained, with the `refusal` that says why.
pub(crate) fn refused_line(
    alloc: Global,
    name: &[u8],
    refusal: &CommandRefusal,
) -> Result<Said, AllocError>
    ensures { IfOk result (λ said. spec.Refuses (told_of said)) }
{
    let mut words = Vec::from_slice(alloc, b"refused: ")?;
    words.extend_from_slice(refusal_words(alloc, refusal)?.as_slice())?;
    let line = line(alloc, name, words.as_slice())?;
    Said::of_line(alloc, line, Answer::Refused)
}
