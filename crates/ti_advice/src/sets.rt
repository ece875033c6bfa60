//! The sets that `sgr` makes active by its ninth parameter.

ghost use Rattle.std.specs.Prelude.{◌≡◌, IfOk, [], option_map, true, false, codes};
ghost use Rattle.ti_parm.specs.Value.{values_of};
ghost use Rattle.ti_advice.specs.Runs.{DoAlike, DoUnlike};
ghost use Rattle.ti_advice.specs.Sets as spec;
ghost use Rattle.ti_advice.specs.Strings.{IsOwn};

use crate::advice::{Advice, AdviceKind};
use crate::deeds::{Advised, push_found};
use crate::runs::{Answer, is_alike};
use crate::strings::{Found, has_string, or_none, own_sent};
use std::alloc::{AllocError, Global};
use ti_caps::{Entry, by_name};
use ti_parm::Param;

/// A use of the ninth parameter of `sgr`.
#[derive(Clone, Copy, Debug, PartialEq, Eq)]
pub enum SetUse {
    /// With it lines are drawn, in the set of `smacs`.
    Lines,
    /// Without it text is written, in the set of `rmacs`.
    Text,
}

/// Shows the active set, and then makes both sets plain.
const SHOWN: &[u8] = b"q\x1b(B\x1b)B\x0f";

fn number(on: bool) -> Param<'static>
    ensures { result ≡ spec.number_param on }
{
    if on {
        Param::Number(1)
    } else {
        Param::Number(0)
    }
}

/// The parameters of `sgr` for no attribute or for all seven, and for lines or text.
fn asked(marked: bool, lines: bool) -> [Param<'static>; 9]
    ensures { values_of result ≡ spec.asked marked lines }
{
    let mark = number(marked);
    [
        mark,
        mark,
        mark,
        mark,
        mark,
        mark,
        mark,
        number(false),
        number(lines),
    ]
}

/// The bytes of the entry's own string of this name, which takes no parameter, or none.
fn own_or_none(alloc: Global, entry: &Entry, name: &[u8]) -> Result<Vec<u8>, AllocError>
    ensures { IfOk result (λ bytes. spec.IsOwnOrNone entry.now name.now bytes.items) }
{
    let found = own_sent(alloc, entry, name, &[])?;
    Ok(or_none(alloc, found))
}

/// The bytes of `first`, `second` and `third`, and then those that show the active set.
fn run(alloc: Global, first: &[u8], second: &[u8], third: &[u8]) -> Result<Vec<u8>, AllocError>
    ensures { IfOk result (λ bytes. bytes.items ≡ spec.run first.now second.now third.now) }
{
    let mut bytes = Vec::from_slice(alloc, first)?;
    bytes.extend_from_slice(second)?;
    bytes.extend_from_slice(third)?;
    bytes.extend_from_slice(SHOWN)?;
    Ok(bytes)
}

/// The bytes before those of `sgr`: they begin alternate sets, and for text they make that of `smacs` active.
fn lead(alloc: Global, entry: &Entry, set_use: SetUse) -> Result<Vec<u8>, AllocError>
    ensures { IfOk result (λ bytes. spec.IsLead entry.now set_use bytes.items) }
{
    let mut bytes = own_or_none(alloc, entry, b"enacs")?;
    match set_use {
        SetUse::Lines => Ok(bytes),
        SetUse::Text => {
            let switch = own_or_none(alloc, entry, b"smacs")?;
            bytes.extend_from_slice(switch.as_slice())?;
            Ok(bytes)
        }
    }
}

/// The name of the string that makes the set active which is wanted.
fn switch_name(set_use: SetUse) -> &'static [u8]
    ensures { result.now ≡ spec.switch_name set_use }
{
    match set_use {
        SetUse::Lines => b"smacs",
        SetUse::Text => b"rmacs",
    }
}

fn is_lines(set_use: SetUse) -> bool
    ensures { result ≡ spec.is_lines set_use }
{
    matches!(set_use, SetUse::Lines)
}

/// Whether `own` shows behind `lead` what `plain` and the bytes of `switch` show there.
fn runs_alike(alloc: Global, lead: &[u8], own: &[u8], plain: &[u8], switch: &[u8]) -> Answer
    ensures alike { IfOk result (λ so. so ≡ true →
        DoAlike (spec.run lead.now own.now []) (spec.run lead.now plain.now switch.now)) }
    ensures unlike { IfOk result (λ so. so ≡ false →
        DoUnlike (spec.run lead.now own.now []) (spec.run lead.now plain.now switch.now)) }
{
    let bytes = run(alloc, lead, own, b"")?;
    let wanted = run(alloc, lead, plain, switch)?;
    is_alike(alloc, bytes.as_slice(), wanted.as_slice())
}

/// Whether `own`, which `sgr` sends for this use, shows the set that the entry's own switch makes active behind
/// `plain`, which `sgr` sends without its ninth parameter.
fn switches(alloc: Global, entry: &Entry, set_use: SetUse, own: &[u8], plain: &[u8]) -> Answer
    ensures alike { IfOk result (λ so. so ≡ true → spec.Switches entry.now set_use own.now plain.now) }
    ensures unlike { IfOk result (λ so. so ≡ false → spec.SwitchesElse entry.now set_use own.now plain.now) }
{
    let lead = lead(alloc, entry, set_use)?;
    let switch = own_or_none(alloc, entry, switch_name(set_use))?;
    runs_alike(alloc, lead.as_slice(), own, plain, switch.as_slice())
}

/// The advice on `sgr` for this use, with the bytes `own` that it sends.
fn advice_of(set_use: SetUse, own: Vec<u8>) -> Option<Advice>
    ensures { spec.IsAdviceOf set_use own.items result }
{
    match by_name(b"sgr") {
        Some(cap) => Some(Advice {
            cap,
            kind: AdviceKind::Set(set_use),
            run: Some(own),
        }),
        None => None,
    }
}

/// The advice on `own` and `plain`, which `sgr` of `entry` sends for this use and without its ninth parameter.
fn judged(alloc: Global, entry: &Entry, set_use: SetUse, own: Vec<u8>, plain: &[u8]) -> Advised
    ensures { IfOk result (λ found. spec.IsJudged entry.now set_use own.items plain.now found) }
{
    if switches(alloc, entry, set_use, own.as_slice(), plain)? {
        Ok(None)
    } else {
        Ok(advice_of(set_use, own))
    }
}

/// The advice on `own` beside `plain`, where `sgr` sends both.
fn judged_if(
    alloc: Global,
    entry: &Entry,
    set_use: SetUse,
    own: Option<Vec<u8>>,
    plain: Option<Vec<u8>>,
) -> Advised
    ensures { IfOk result (λ found. spec.IsJudgedIf entry.now set_use
        (option_map (λ bytes. bytes.items) own) (option_map (λ bytes. bytes.items) plain) found) }
{
    match own {
        Some(own) => match plain {
            Some(plain) => judged(alloc, entry, set_use, own, plain.as_slice()),
            None => Ok(None),
        },
        None => Ok(None),
    }
}

/// The bytes that `sgr` of `entry` sends for no attribute or for all, and for lines or text.
fn asked_sent(alloc: Global, entry: &Entry, marked: bool, lines: bool) -> Found
    ensures { IfOk result (λ found. IsOwn entry.now (codes "sgr") (spec.asked marked lines)
        (option_map (λ bytes. bytes.items) found)) }
{
    own_sent(alloc, entry, b"sgr", &asked(marked, lines))
}

/// The advice on `sgr` of `entry` for this use, with no attribute or with all of them.
fn sent_advice(alloc: Global, entry: &Entry, set_use: SetUse, marked: bool) -> Advised
    ensures { IfOk result (λ found. spec.IsSentAdvice entry.now set_use marked found) }
{
    let own = asked_sent(alloc, entry, marked, is_lines(set_use))?;
    let plain = asked_sent(alloc, entry, marked, false)?;
    judged_if(alloc, entry, set_use, own, plain)
}

/// Whether `entry` has all strings by which programs draw lines with attributes.
fn draws(entry: &Entry) -> bool
    ensures { result ≡ spec.draws entry.now }
{
    has_string(entry, b"sgr")
        && has_string(entry, b"acsc")
        && has_string(entry, b"smacs")
        && has_string(entry, b"rmacs")
}

/// The advice on `sgr` of `entry` for this use: with no attribute, or else with all of them.
fn use_advice(alloc: Global, entry: &Entry, set_use: SetUse) -> Advised
    ensures { IfOk result (λ found. spec.IsUseAdvice entry.now set_use found) }
{
    match sent_advice(alloc, entry, set_use, false)? {
        Some(found) => Ok(Some(found)),
        None => sent_advice(alloc, entry, set_use, true),
    }
}

/// The advice on `sgr` of an entry that draws lines.
fn both_uses(alloc: Global, entry: &Entry) -> Result<Vec<Advice>, AllocError>
    ensures { IfOk result (λ list. spec.AreOfBoth entry.now list.items) }
{
    let lines = use_advice(alloc, entry, SetUse::Lines)?;
    let text = use_advice(alloc, entry, SetUse::Text)?;
    let mut list = Vec::new(alloc);
    push_found(&mut list, lines)?;
    push_found(&mut list, text)?;
    Ok(list)
}

/// The advice on `sgr` of `entry` with its ninth parameter, and without it.
pub(crate) fn sets(alloc: Global, entry: &Entry) -> Result<Vec<Advice>, AllocError>
    ensures { IfOk result (λ list. spec.AreSets entry.now list.items) }
{
    if draws(entry) {
        both_uses(alloc, entry)
    } else {
        Ok(Vec::new(alloc))
    }
}
