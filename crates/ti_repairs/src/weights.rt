//! The findings about an entry, and how much each counts.

ghost use Rattle.std.specs.{Prelude.{◌≡◌, IfOk}, List.{AllZip}};
ghost use Rattle.ti_repairs.specs.Weights as spec;

use std::alloc::{AllocError, Global};
use ti_caps::Entry;
use ti_checker::{Cause, No};
use ti_faults::faults;
use ti_grades::{Grade, grade_of};
use ti_parm::ParmFault;
use ti_steps::{Finding, Found, Weight};
use ti_surveys::{EntryKind, kind_of};
use vt_term::Size;

/// The size of the terminal, and whether what T hasn't is mended too.
#[derive(Clone, Copy, Debug)]
pub struct Terms {
    /// The terminal's size.
    pub size: Size,
    /// Whether strings are also suggested for faults of which T can't tell whether they are some.
    pub is_standard: bool,
}

/// An entry with all its faults.
#[derive(Clone, Copy)]
struct Faulty<'a> {
    entry: &'a Entry,
    kind: EntryKind,
    /// Whether it has one fault alone.
    alone: bool,
}

/// The number of a fault of codes.
fn code_number(fault: ParmFault) -> u8
    ensures { result ≡ spec.code_number fault }
{
    match fault {
        ParmFault::Underflow => 20,
        ParmFault::BadNest => 21,
        ParmFault::BadCode => 22,
        ParmFault::Overflow => 23,
        ParmFault::BadChar => 24,
        ParmFault::WrongKind => 25,
        ParmFault::NoMemory => 26,
    }
}

/// The number of a cause: of causes with one name there is one number.
fn cause_number(cause: Cause) -> u8
    ensures { result ≡ spec.cause_number cause }
{
    match cause {
        Cause::FlagOut => 1,
        Cause::Absent => 2,
        Cause::AcsByte => 3,
        Cause::Parm(fault) => code_number(fault),
        Cause::StaticRead => 4,
        Cause::Unfinished => 5,
        Cause::Stuck => 6,
        Cause::NotTame => 7,
        Cause::BadLook => 8,
        Cause::WrongEffect(_) => 9,
        Cause::NotShown => 10,
        Cause::TooLong => 11,
        Cause::NoResync => 12,
        Cause::NoMemory => 13,
    }
}

/// Whether an entry that is only there to be used may have a fault with this cause for what it lacks.
fn is_lack(cause: Cause) -> bool
    ensures { result ≡ spec.is_lack cause }
{
    match cause {
        Cause::Absent => true,
        Cause::NoResync => true,
        Cause::FlagOut => false,
        Cause::AcsByte => false,
        Cause::Parm(_) => false,
        Cause::StaticRead => false,
        Cause::Unfinished => false,
        Cause::Stuck => false,
        Cause::NotTame => false,
        Cause::BadLook => false,
        Cause::WrongEffect(_) => false,
        Cause::NotShown => false,
        Cause::TooLong => false,
        Cause::NoMemory => false,
    }
}

/// Whether a fault with this cause counts for nothing in an entry of this kind.
fn is_lent(kind: EntryKind, cause: Cause) -> bool
    ensures { result ≡ spec.is_lent kind cause }
{
    match kind {
        EntryKind::Other => true,
        EntryKind::Part => is_lack(cause),
        EntryKind::Usual => false,
    }
}

/// How much a fault of this grade counts.
fn graded(grade: Grade, is_standard: bool) -> Weight
    ensures { result ≡ spec.graded grade is_standard }
{
    match grade {
        Grade::Broken => Weight::Certain,
        Grade::Contradicts => Weight::Certain,
        Grade::Wrong => Weight::Shown,
        Grade::Unknown => {
            if is_standard {
                Weight::Shown
            } else {
                Weight::Doubtful
            }
        }
    }
}

/// How much the fault `no` of the entry counts.
fn weight_of(alloc: Global, terms: Terms, of: Faulty<'_>, no: &No) -> Result<Weight, AllocError>
    ensures { IfOk result (spec.IsWeight terms of.entry.entry.now of.entry.kind of.entry.alone no.now) }
{
    if is_lent(of.kind, no.cause) {
        return Ok(Weight::Lent);
    }
    let grade = grade_of(alloc, of.entry, terms.size, no, of.alone)?;
    Ok(graded(grade, terms.is_standard))
}

/// The fault `no` of the entry, as a finding.
fn finding_of(alloc: Global, terms: Terms, of: Faulty<'_>, no: &No) -> Result<Finding, AllocError>
    ensures { IfOk result (spec.IsFinding terms of.entry.entry.now of.entry.kind of.entry.alone no.now) }
{
    let weight = weight_of(alloc, terms, of, no)?;
    Ok(Finding {
        cap: no.cap,
        cause: cause_number(no.cause),
        weight,
    })
}

/// Each of the faults `nos` of the entry, as a finding.
fn all_findings(alloc: Global, terms: Terms, of: Faulty<'_>, nos: &[No]) -> Found
    ensures { IfOk result (λ findings. AllZip (spec.IsFinding terms of.entry.entry.now of.entry.kind of.entry.alone)
        nos.now findings.items) }
{
    let mut findings = Vec::new(alloc);
    for no in nos {
        let own = finding_of(alloc, terms, of, no)?;
        findings.push(own)?;
    }
    Ok(findings)
}

/// Each of the faults `nos`, all those of the entry, as a finding.
pub fn findings_of(alloc: Global, terms: Terms, entry: &Entry, nos: &[No]) -> Found
    ensures { IfOk result (λ findings. spec.AreFindings terms entry.now nos.now findings.items) }
{
    let of = Faulty {
        entry,
        kind: kind_of(true, entry, nos),
        alone: nos.len() == 1,
    };
    all_findings(alloc, terms, of, nos)
}

/// All that is found about the entry.
pub fn found(alloc: Global, terms: Terms, entry: &Entry) -> Found
    ensures { IfOk result (λ findings. spec.Finds terms entry.now findings.items) }
{
    let nos = faults(alloc, entry, terms.size)?;
    findings_of(alloc, terms, entry, nos.as_slice())
}
