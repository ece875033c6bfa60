//! Strings that don't do on T what their names mean.

ghost use Rattle.std.specs.Prelude.{◌≡◌, ◌++◌, IfOk, OnOk, option_copied, option_map, true, false};
ghost use Rattle.ti_advice.specs.Deeds as spec;
ghost use Rattle.ti_advice.specs.Parts.{optional};
ghost use Rattle.ti_advice.specs.Runs.{DoAlike, DoUnlike};
ghost use Rattle.ti_advice.specs.Strings as strings;

use crate::advice::{Advice, AdviceKind};
use crate::duties::Duty;
use crate::runs::{Answer, is_alike};
use crate::strings::{Found, has_string, or_none, own_sent, sent_by, string_named};
use std::alloc::{AllocError, Global};
use ti_caps::{Entry, by_name};
use ti_parm::Param;

/// A piece of advice, if there is one; or that memory ran out.
pub(crate) type Advised = Result<Option<Advice>, AllocError>;

/// Fills the screen with characters that all differ, but for the last column, and leaves the cursor at its start.
const CELLS: &[u8] = b"abcdefghi\r\njklmnopqr\r\nstuvwxyzA\r\nBCDEFGHIJ\r\nKLMNOPQRS\x1b[H";

/// Shows whether marks, insertion or wrapping have begun.
const MARK: &[u8] = b"xyz";

/// Shows the marks, and puts all of them and both colors on.
const ALL_MARKS: &[u8] = b"x\x1b[1;2;4;5;7;8;31;42m";

/// The parameters with which the string of `duty` is sent.
fn given(duty: Duty) -> [Param<'static>; 1]
    ensures { spec.AreGiven duty result }
{
    [Param::Number(i32::from(duty.number()))]
}

/// The bytes before those of `duty`: they fill the screen, and lead to the place from which its string is sent. The
/// end of a mark is sent behind the string of `entry` that begins it.
fn lead(alloc: Global, entry: &Entry, duty: Duty) -> Result<Vec<u8>, AllocError>
    ensures { IfOk result (λ bytes. spec.IsLead entry.now duty bytes.items) }
{
    let begun = begun_by(alloc, entry, duty)?;
    let mut bytes = Vec::from_slice(alloc, CELLS)?;
    bytes.extend_from_slice(duty.start())?;
    bytes.extend_from_slice(begun.as_slice())?;
    Ok(bytes)
}

/// The bytes that the entry's own string sends to begin what `duty` ends; none if it ends nothing.
fn begun_by(alloc: Global, entry: &Entry, duty: Duty) -> Result<Vec<u8>, AllocError>
    ensures { IfOk result (λ bytes. spec.IsBegun entry.now (spec.begun duty) bytes.items) }
{
    match duty.begun() {
        Some(name) => {
            let found = own_sent(alloc, entry, name, &[])?;
            Ok(or_none(alloc, found))
        }
        None => Ok(Vec::new(alloc)),
    }
}

/// The bytes of a run of `own` behind `lead`; those that begin a mark are sent again where all marks are on.
fn framed(alloc: Global, lead: &[u8], again: bool, own: &[u8]) -> Result<Vec<u8>, AllocError>
    ensures { IfOk result (λ bytes. bytes.items ≡ spec.framed lead.now again own.now) }
{
    let mut bytes = Vec::from_slice(alloc, lead)?;
    bytes.extend_from_slice(own)?;
    if again {
        bytes.extend_from_slice(ALL_MARKS)?;
        bytes.extend_from_slice(own)?;
    }
    bytes.extend_from_slice(MARK)?;
    Ok(bytes)
}

/// The bytes of a run of `own` behind `lead`, as those of `duty` are run.
fn run_of(alloc: Global, duty: Duty, lead: &[u8], own: &[u8]) -> Result<Vec<u8>, AllocError>
    ensures { IfOk result (λ bytes. bytes.items ≡ spec.run_of duty lead.now own.now) }
{
    framed(alloc, lead, duty.is_mark(), own)
}

/// Whether a run of `own` behind `lead` ends as one of the meaning of `duty`.
fn runs_alike(alloc: Global, duty: Duty, lead: &[u8], own: &[u8]) -> Answer
    ensures alike { IfOk result (λ so. so ≡ true → DoAlike (spec.run_of duty lead.now own.now)
        (spec.run_of duty lead.now (spec.standard duty))) }
    ensures unlike { IfOk result (λ so. so ≡ false → DoUnlike (spec.run_of duty lead.now own.now)
        (spec.run_of duty lead.now (spec.standard duty))) }
{
    let bytes = run_of(alloc, duty, lead, own)?;
    let wanted = run_of(alloc, duty, lead, duty.standard())?;
    is_alike(alloc, bytes.as_slice(), wanted.as_slice())
}

/// Whether `own`, sent for `duty` by `entry`, does what the name means.
fn does_as_meant(alloc: Global, entry: &Entry, duty: Duty, own: &[u8]) -> Answer
    ensures meant { IfOk result (λ so. so ≡ true → spec.DoesAsMeant entry.now duty own.now) }
    ensures other { IfOk result (λ so. so ≡ false → spec.DoesElse entry.now duty own.now) }
{
    if own == duty.standard() {
        return Ok(true);
    }
    let lead = lead(alloc, entry, duty)?;
    runs_alike(alloc, duty, lead.as_slice(), own)
}

/// Whether `entry` has an insertion mode, and an `ich1` that says that nothing is sent before a character.
fn inserts_by_mode(entry: &Entry) -> bool
    ensures { result ≡ spec.inserts_by_mode entry.now }
{
    has_string(entry, b"smir") && is_nothing(string_named(entry, b"ich1"))
}

/// Whether the string is there, and empty.
fn is_nothing(string: Option<&[u8]>) -> bool
    ensures { result ≡ spec.is_nothing (option_copied string.entry) }
{
    match string {
        Some([]) => true,
        Some([_, ..]) | None => false,
    }
}

/// Whether the string of `duty` is one on which there can be advice: beside `sgr` alone, if it begins a mark, since it
/// is checked if there is none; and not an `ich1` that is empty beside an insertion mode.
fn applies(entry: &Entry, duty: Duty) -> bool
    ensures { result ≡ spec.applies entry.now duty }
{
    match duty {
        Duty::Smul | Duty::Rev | Duty::Blink | Duty::Dim => has_string(entry, b"sgr"),
        Duty::Bold | Duty::Invis | Duty::Smso => has_string(entry, b"sgr"),
        Duty::Ich1 => !inserts_by_mode(entry),
        Duty::Rmul | Duty::Rmso | Duty::Ich | Duty::Dch1 | Duty::Dch => true,
        Duty::Il1 | Duty::Il | Duty::Dl1 | Duty::Dl | Duty::Indn | Duty::Rin => true,
        Duty::Ht | Duty::Cbt | Duty::Nel | Duty::Sc | Duty::Rc | Duty::Flash => true,
        Duty::Rmam | Duty::Smam | Duty::Smir | Duty::Rmir | Duty::Smkx | Duty::Rmkx => true,
    }
}

/// The advice on the string of `duty` that sends `run`.
fn advice_of(duty: Duty, run: Option<Vec<u8>>) -> Option<Advice>
    ensures { spec.IsAdviceOf duty (option_map (λ bytes. bytes.items) run) result }
{
    match by_name(duty.name()) {
        Some(cap) => Some(Advice {
            cap,
            kind: AdviceKind::Deed(duty),
            run,
        }),
        None => None,
    }
}

/// The advice on `own`, which the string of `entry` sends for `duty`.
fn own_judged(alloc: Global, entry: &Entry, duty: Duty, own: Vec<u8>) -> Advised
    ensures { IfOk result (λ found. spec.IsOwnJudged entry.now duty own.items found) }
{
    if does_as_meant(alloc, entry, duty, own.as_slice())? {
        Ok(None)
    } else {
        Ok(advice_of(duty, Some(own)))
    }
}

/// The advice on what the string of `entry` sends for `duty`, or on a string that can't be expanded.
fn sent_judged(alloc: Global, entry: &Entry, duty: Duty, own: Option<Vec<u8>>) -> Advised
    ensures { IfOk result (λ found. spec.IsSentJudged entry.now duty (option_map (λ bytes. bytes.items) own) found) }
{
    match own {
        Some(own) => own_judged(alloc, entry, duty, own),
        None => Ok(advice_of(duty, None)),
    }
}

/// The bytes that `string` sends for `duty`; `None` if it can't be expanded.
fn sent_for(alloc: Global, string: &[u8], duty: Duty) -> Found
    ensures { IfOk result (λ found. strings.IsSent string.now (spec.given duty)
        (option_map (λ bytes. bytes.items) found)) }
{
    sent_by(alloc, string, &given(duty))
}

/// The advice on the `string` of `entry` for `duty`.
fn judged(alloc: Global, entry: &Entry, duty: Duty, string: &[u8]) -> Advised
    ensures { IfOk result (λ found. spec.IsJudged entry.now duty string.now found) }
{
    let own = sent_for(alloc, string, duty)?;
    sent_judged(alloc, entry, duty, own)
}

/// The advice on the string of `entry` for `duty`, if it has it.
fn duty_advice(alloc: Global, entry: &Entry, duty: Duty) -> Advised
    ensures { IfOk result (λ found. spec.IsDutyAdvice entry.now duty found) }
{
    if !applies(entry, duty) {
        return Ok(None);
    }
    match string_named(entry, duty.name()) {
        Some(string) => judged(alloc, entry, duty, string),
        None => Ok(None),
    }
}

/// Adds `found` to `list`, if there is one.
pub(crate) fn push_found(list: &mut Vec<Advice>, found: Option<Advice>) -> Result<(), AllocError>
    ensures { OnOk result (list.new.items ≡ list.old.items ++ optional found) }
{
    if let Some(own) = found {
        list.push(own)?;
    }
    Ok(())
}

/// The advice on each of these strings of `entry` that doesn't do what its name means.
fn deeds_of(alloc: Global, entry: &Entry, duties: &[Duty]) -> Result<Vec<Advice>, AllocError>
    ensures { IfOk result (λ list. spec.AreDeedsOf entry.now duties.now list.items) }
{
    let mut list = Vec::new(alloc);
    for duty in duties {
        let found = duty_advice(alloc, entry, *duty)?;
        push_found(&mut list, found)?;
    }
    Ok(list)
}

/// The advice on each string of `entry` that doesn't do what its name means.
pub(crate) fn deeds(alloc: Global, entry: &Entry) -> Result<Vec<Advice>, AllocError>
    ensures { IfOk result (λ list. spec.AreDeeds entry.now list.items) }
{
    deeds_of(alloc, entry, &Duty::all())
}
