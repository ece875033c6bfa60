//! The counts of the answers in a survey of every size.

use crate::words::Words;
use std::alloc::Global;
use ti_verdicts::Answer;

/// The kinds of answers that are counted.
#[derive(Clone, Copy, PartialEq, Eq)]
enum Count {
    Yes,
    No,
    Undecided,
    Refused,
}

/// The kind as which `answer` is counted.
fn count_of(answer: Answer) -> Count {
    match answer {
        Answer::Yes => Count::Yes,
        Answer::No(_) => Count::No,
        Answer::OtherKind => Count::Undecided,
        Answer::Part | Answer::Refused => Count::Refused,
    }
}

/// The number of `answers` of this kind.
fn number(answers: &[Answer], count: Count) -> usize {
    answers
        .iter()
        .filter(|answer| count_of(**answer) == count)
        .count()
}

/// The line with the number of `answers` of each kind.
pub(crate) fn counts_line(alloc: Global, answers: &[Answer]) -> Words {
    let total = answers.len();
    let yes = number(answers, Count::Yes);
    let no = number(answers, Count::No);
    let undecided = number(answers, Count::Undecided);
    let refused = number(answers, Count::Refused);
    let line = format!(in alloc;
        "total {total}, yes {yes}, no {no}, undecided {undecided}, refused {refused}\n"
    )?;
    Ok(line.into_bytes())
}
