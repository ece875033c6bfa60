//! A file of SARIF 2.1.0, in which code hosts show findings at their lines.

ghost use Rattle.std.specs.Prelude.{◌≡◌, ◌++◌, drop, IfOk, OnOk};
ghost use Rattle.ti_printers.specs.Sarif as spec;

use crate::escapes::printable_json;
use crate::results::result_of;
use std::alloc::{AllocError, Global};
use ti_reports::{Form, Report, Verdict};

/// The text before the results.
const HEAD: &str =
    "{\"$schema\":\"https://json.schemastore.org/sarif-2.1.0.json\",\"version\":\"2.1.0\",\"runs\":[{\"tool\":{\"driver\":{\"name\":\"ticurses\",\"rules\":[\n\
    {\"id\":\"Absent\",\"shortDescription\":{\"text\":\"The entry lacks clear, cup or sgr0\"}},\n\
    {\"id\":\"AcsByte\",\"shortDescription\":{\"text\":\"acsc gives a line drawing character a partner that can't be printed\"}},\n\
    {\"id\":\"Advice\",\"shortDescription\":{\"text\":\"What a user of the entry may want to know\"}},\n\
    {\"id\":\"BadChar\",\"shortDescription\":{\"text\":\"A parameter string writes a character that is not 0 to 255\"}},\n\
    {\"id\":\"BadCode\",\"shortDescription\":{\"text\":\"A parameter string has a % that no code follows\"}},\n\
    {\"id\":\"BadLook\",\"shortDescription\":{\"text\":\"An attribute's string turns on a rendition that is not its own\"}},\n\
    {\"id\":\"BadNest\",\"shortDescription\":{\"text\":\"A parameter string has a conditional that is not %? %t %e %;\"}},\n\
    {\"id\":\"Duplicate\",\"shortDescription\":{\"text\":\"A field has a name that its entry has had before\"}},\n\
    {\"id\":\"FlagOut\",\"shortDescription\":{\"text\":\"With a flag of the entry programs can't rely on what is on the screen\"}},\n\
    {\"id\":\"FurtherFields\",\"shortDescription\":{\"text\":\"Further fields of an entry have hints, which are counted\"}},\n\
    {\"id\":\"NoResync\",\"shortDescription\":{\"text\":\"What leads out of any state doesn't begin with ESC\"}},\n\
    {\"id\":\"NotShown\",\"shortDescription\":{\"text\":\"The effect is not the wanted one, but no state was found that shows it\"}},\n\
    {\"id\":\"NotTame\",\"shortDescription\":{\"text\":\"No single effect describes what is sent from all states\"}},\n\
    {\"id\":\"OddEscape\",\"shortDescription\":{\"text\":\"A string has a backslash before a byte that has no meaning there\"}},\n\
    {\"id\":\"Overflow\",\"shortDescription\":{\"text\":\"A parameter string computes what does not fit into 32 bits\"}},\n\
    {\"id\":\"PercentCaret\",\"shortDescription\":{\"text\":\"A string has %^, which is % and a control character\"}},\n\
    {\"id\":\"Refused\",\"shortDescription\":{\"text\":\"The entry or the file can't be read\"}},\n\
    {\"id\":\"StaticRead\",\"shortDescription\":{\"text\":\"A parameter string reads a static variable before it sets it\"}},\n\
    {\"id\":\"Stuck\",\"shortDescription\":{\"text\":\"What is sent has a byte that is neither text nor part of a sequence\"}},\n\
    {\"id\":\"TooLong\",\"shortDescription\":{\"text\":\"With this line the certificate would be too long\"}},\n\
    {\"id\":\"Underflow\",\"shortDescription\":{\"text\":\"A parameter string takes a value from the empty stack\"}},\n\
    {\"id\":\"Unfinished\",\"shortDescription\":{\"text\":\"What is sent ends within a control sequence\"}},\n\
    {\"id\":\"UnknownName\",\"shortDescription\":{\"text\":\"A field has a name that no capability has\"}},\n\
    {\"id\":\"WrongEffect\",\"shortDescription\":{\"text\":\"The string doesn't do what it is for\"}},\n\
    {\"id\":\"WrongKind\",\"shortDescription\":{\"text\":\"A parameter string gets a text for a number, or a number for a text\"}}\n\
    ]}},\"results\":[\n\
    ";

/// The text behind them.
const TAIL: &str = "\n]}]}\n";

/// Prints each report but a yes as a result of SARIF, each after a comma and LF. `sarif_file` makes a file of them.
#[derive(Clone, Copy, Debug)]
pub struct Sarif;

impl Form for Sarif {
    ghost use Rattle.std.specs.Prelude.{true};

    ghost wanted = { λ _ _. true };

    ghost prints = { λ _ report text. spec.IsResultIf report.verdict text };

    fn wants(&self, _report: &Report) -> bool {
        true
    }

    fn print(&self, alloc: Global, report: &Report) -> Result<Vec<u8>, AllocError> {
        match report.verdict {
            Verdict::Yes(_) => Ok(Vec::new(alloc)),
            Verdict::No | Verdict::Refused => result_text(alloc, report),
            Verdict::Advice | Verdict::Hint(_) => result_text(alloc, report),
        }
    }
}

/// The result of `report`, after a comma and LF.
fn result_text(alloc: Global, report: &Report) -> Result<Vec<u8>, AllocError>
    ensures { IfOk result (λ text. spec.IsResult text.items) }
{
    let json = result_of(alloc, report)?;
    let own = printable_json(alloc, json.as_str())?;
    let mut text = Vec::from_slice(alloc, b",\n")?;
    text.extend_from_slice(own.as_slice())?;
    Ok(text)
}

/// The file of SARIF with these `results`, as `Sarif` prints them, one after another.
///
/// # Errors
/// Out of memory.
pub fn sarif_file(alloc: Global, results: &[u8]) -> Result<Vec<u8>, AllocError>
    ensures { IfOk result (λ file. spec.IsFileOf results.now file.items) }
{
    let mut file = Vec::from_slice(alloc, HEAD.as_bytes())?;
    file.extend_from_slice(without_comma(results))?;
    file.extend_from_slice(TAIL.as_bytes())?;
    Ok(file)
}

/// The `results` without the first comma and LF.
fn without_comma(results: &[u8]) -> &[u8]
    ensures { result.now ≡ drop 2 results.now }
{
    match results {
        [_, _, rest @ ..] => rest,
        [_] | [] => &[],
    }
}
