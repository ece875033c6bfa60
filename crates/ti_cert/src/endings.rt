//! The judgement at the end of a certificate: charsets, and the strings that lead out of any state.

ghost use Rattle.std.specs.Prelude.{◌≡◌, ◌-◌, IfOk, IfErr, OnOk, Some, true, false, is_some};
ghost use Rattle.ti_cert.specs.Audits.{LacksRecord, LacksNeeded, IsConcluded, ConcludesBy};
ghost use Rattle.ti_cert.specs.Clashes as clashes;
ghost use Rattle.ti_cert.specs.{Known.{Holds}, Strings.{has_group, row_string}};
ghost use Rattle.ti_cert.specs.Table as spec;
ghost use Rattle.ti_conforms.specs.Resync.{texts_of};
ghost use Rattle.ti_rows.specs.declared.rows.Row.TheVariants as rows;

use crate::clashes::{Clash, Facts, Resync, first_clash};
use crate::faults::CertFaultKind;
use crate::known::Known;
use crate::strings::Strings;
use crate::tokens::row_effect;
use std::alloc::Global;
use ti_conforms::{Charsets, resync_rows};
use ti_rows::Row;
use vt_effects::Sets;
use vt_term::Scanner;

/// The change of the charsets by the row's string, `None` if there is no such string.
#[tactic(auto, using(crate::proofs::AuditSteps::not_split))]
fn change_of(
    scanner: &mut Scanner,
    strings: &Strings,
    row: Row,
) -> Result<Option<Sets>, CertFaultKind>
    ensures change { IfOk result (λ change. spec.Changes strings.now row change) }
    ensures fails { IfErr result (LacksRecord strings.now) }
{
    match strings.get(row) {
        None => Ok(None),
        Some(bytes) => {
            match row_effect(scanner, bytes, row, strings.size())? {
                Some(effect) => Ok(Some(effect.charset)),
                None => Err(CertFaultKind::NotTame),
            }
        }
    }
}

fn resync_of(scanner: &mut Scanner, strings: &Strings) -> Result<Resync, CertFaultKind>
    ensures fails { IfErr result (LacksRecord strings.now) }
    ensures smcup { IfOk result (λ r. spec.Changes strings.now rows.Smcup r.smcup) }
    ensures enacs { IfOk result (λ r. spec.Changes strings.now rows.Enacs r.enacs) }
    ensures sgr0 { IfOk result (λ r. spec.Changes strings.now rows.Sgr0 r.sgr0) }
    ensures rmacs { IfOk result (λ r. spec.Changes strings.now rows.Rmacs r.rmacs) }
{
    Ok(Resync {
        smcup: change_of(scanner, strings, Row::Smcup)?,
        enacs: change_of(scanner, strings, Row::Enacs)?,
        sgr0: change_of(scanner, strings, Row::Sgr0)?,
        rmacs: change_of(scanner, strings, Row::Rmacs)?,
    })
}

/// The first byte of the strings of `rows`, one after another.
fn first_byte(strings: &Strings, rows: &[Row]) -> Option<u8>
    ensures { result ≡ spec.head_of (texts_of (λ row. row_string strings.now row) rows.now) }
{
    for row in rows {
        if let Some([first, ..]) = strings.get(*row) {
            return Some(*first);
        }
    }
    None
}

/// The first byte of the strings that lead a terminal out of an unknown state.
fn first_of_resync(strings: &Strings) -> Option<u8>
    ensures { result ≡ spec.first_of_resync strings.now }
{
    first_byte(strings, &resync_rows(strings.size()))
}

/// Checks that the lines that a resynchronization needs are there.
fn check_needed(strings: &Strings) -> Result<(), CertFaultKind>
    ensures fails { IfErr result (LacksNeeded strings.now) }
    ensures clear { OnOk result (is_some (row_string strings.now rows.Clear) ≡ true) }
    ensures sgr0 { OnOk result (is_some (row_string strings.now rows.Sgr0) ≡ true) }
    ensures csr { OnOk result (has_group strings.now (rows.Csr 0 1) ≡ true
        → is_some (row_string strings.now (rows.Csr 0 (strings.now.rows - 1))) ≡ true) }
{
    let whole = Row::Csr(0, (strings.size().rows - 1) as u16);
    if strings.get(Row::Clear).is_none() {
        return Err(CertFaultKind::missing(Row::Clear));
    }
    if strings.get(Row::Sgr0).is_none() {
        return Err(CertFaultKind::missing(Row::Sgr0));
    }
    if strings.has(Row::Csr(0, 1)) && strings.get(whole).is_none() {
        return Err(CertFaultKind::missing(whole));
    }
    Ok(())
}

/// The fault to report for a clash of all lines together.
fn kind_of(clash: Clash) -> CertFaultKind
    ensures { result ≡ clashes.kind_of clash }
{
    match clash {
        Clash::Smacs(_) | Clash::Rmacs(_) => CertFaultKind::NotShown,
        Clash::Acsc => CertFaultKind::BadLook,
        Clash::Clear => CertFaultKind::NoResync,
    }
}

/// Judges the lines together once all are known. Returns the settled charsets.
#[tactic(auto, using(crate::proofs::AuditSteps::no_lack))]
pub(crate) fn conclude(
    alloc: Global,
    known: &Known,
    has_acsc: bool,
) -> Result<Charsets, CertFaultKind>
    ensures concluded { IfOk result (λ settled. Holds known.now → IsConcluded known.now has_acsc settled) }
    ensures fails { IfErr result (λ kind. Holds known.now → ConcludesBy known.now has_acsc kind) }
{
    let strings = &known.strings;
    check_needed(strings)?;
    let mut scanner = Scanner::new(alloc)?;
    let resync = resync_of(&mut scanner, strings)?;
    let smacs = change_of(&mut scanner, strings, Row::Smacs)?;
    let escapes = begins_with_escape(strings);
    let facts = Facts {
        reach: known.reach,
        changes: &known.changes,
        resync,
        smacs,
        has_acsc,
        escapes,
    };
    match first_clash(facts) {
        Ok(settled) => Ok(settled),
        Err(clash) => Err(kind_of(clash)),
    }
}

/// Whether the bytes that lead out of an unknown state begin with ESC.
fn begins_with_escape(strings: &Strings) -> bool
    ensures yes { result ≡ true → spec.first_of_resync strings.now ≡ Some 27 }
    ensures no { result ≡ false → spec.first_of_resync strings.now ≡ Some 27 → ⊥ }
{
    match first_of_resync(strings) {
        Some(first) => first == 27,
        None => false,
    }
}
