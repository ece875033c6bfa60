//! The meaning of findings for the values of an entry.

ghost use Rattle.std.specs.Prelude.{◌≡◌, ◌==◌, ◌&&◌, not};
ghost use Rattle.std.specs.List.{list_all, list_any};
ghost use Rattle.ti_steps.specs.Findings as spec;

use crate::advice::{Finding, Remedy, Weight};
use ti_caps::Cap;

/// Whether both are about one capability for one cause.
fn is_same_fault(one: &Finding, other: &Finding) -> bool
    ensures { result ≡ spec.is_same_fault one.now other.now }
{
    one.cap.place() == other.cap.place() && one.cause == other.cause
}

/// Whether an entry of which this is found has that fault.
pub fn has_fault(findings: &[Finding], one: &Finding) -> bool
    ensures { result ≡ spec.has_fault findings.now one.now }
{
    findings.iter().any(|own| is_same_fault(one, own))
}

/// Whether each fault of the new findings is one of the old ones.
pub fn is_no_worse(old: &[Finding], new: &[Finding]) -> bool
    ensures { result ≡ spec.is_no_worse old.now new.now }
{
    new.iter().all(|own| has_fault(old, own))
}

/// Whether a finding of this weight counts for nothing.
fn is_lent(weight: Weight) -> bool
    ensures { result ≡ spec.is_lent weight }
{
    match weight {
        Weight::Certain => false,
        Weight::Shown => false,
        Weight::Doubtful => false,
        Weight::Lent => true,
    }
}

/// Whether nothing is found that counts.
pub fn is_whole(findings: &[Finding]) -> bool
    ensures { result ≡ spec.is_whole findings.now }
{
    findings.iter().all(|own| is_lent(own.weight))
}

/// Whether a value may change for a finding of this weight, in an entry that is `whole` afterwards or not.
fn may_change(weight: Weight, whole: bool) -> bool
    ensures { result ≡ spec.may_change weight whole }
{
    match weight {
        Weight::Certain => true,
        Weight::Shown => whole,
        Weight::Doubtful => whole,
        Weight::Lent => false,
    }
}

/// Whether this finding of an entry lets a value of that entry change for the fault.
fn permits(whole: bool, fault: &Finding, own: &Finding) -> bool
    ensures { result ≡ spec.permits whole fault.now own.now }
{
    is_same_fault(fault, own) && may_change(own.weight, whole)
}

/// Whether a value of an entry with these findings may change for the fault.
fn is_permitted(findings: &[Finding], whole: bool, fault: &Finding) -> bool
    ensures { result ≡ spec.is_permitted findings.now whole fault.now }
{
    findings.iter().any(|own| permits(whole, fault, own))
}

/// Whether the remedy's string is for the capability at fault, and for no other one that is mended beside it.
fn is_direct(one: &Remedy) -> bool
    ensures { result ≡ spec.is_direct one.now }
{
    one.fault.cap.place() == one.change.cap.place()
}

/// Whether an entry with these findings may change by the remedy.
pub fn allows(findings: &[Finding], whole: bool, one: &Remedy) -> bool
    ensures { result ≡ spec.allows findings.now whole one.now }
{
    is_permitted(findings, whole, &one.fault) && (is_direct(one) || whole)
}

/// Whether the remedy gives this capability a string, and an entry with these findings may change by it.
fn explains(findings: &[Finding], whole: bool, cap: Cap, one: &Remedy) -> bool
    ensures { result ≡ spec.explains findings.now whole cap one.now }
{
    one.change.cap.place() == cap.place() && allows(findings, whole, one)
}

/// Whether one of the remedies gives this capability a string, and an entry with these findings may change by it.
pub fn is_explained(findings: &[Finding], whole: bool, cap: Cap, taken: &[Remedy]) -> bool
    ensures { result ≡ spec.is_explained findings.now whole cap taken.now }
{
    taken.iter().any(|one| explains(findings, whole, cap, one))
}

/// Whether nothing is found.
pub fn is_none(findings: &[Finding]) -> bool
    ensures { result ≡ spec.is_none findings.now }
{
    match findings {
        [] => true,
        [_first, ..] => false,
    }
}

/// Whether something is found about the capability.
fn is_found(cap: Cap, findings: &[Finding]) -> bool
    ensures { result ≡ spec.is_found cap findings.now }
{
    findings.iter().any(|own| own.cap.place() == cap.place())
}

/// Whether a finding of this weight is certain.
fn is_sure(weight: Weight) -> bool
    ensures { result ≡ spec.is_sure weight }
{
    match weight {
        Weight::Certain => true,
        Weight::Shown => false,
        Weight::Doubtful => false,
        Weight::Lent => false,
    }
}

/// Whether this finding is that fault, for certain.
fn is_certain(fault: &Finding, own: &Finding) -> bool
    ensures { result ≡ spec.is_certain fault.now own.now }
{
    is_same_fault(fault, own) && is_sure(own.weight)
}

/// Whether one of the findings is that fault, for certain.
fn was_certain(findings: &[Finding], fault: &Finding) -> bool
    ensures { result ≡ spec.was_certain findings.now fault.now }
{
    findings.iter().any(|own| is_certain(fault, own))
}

/// Whether the fault was certain, and nothing is found about its capability any more.
fn is_mended(old: &[Finding], new: &[Finding], fault: &Finding) -> bool
    ensures { result ≡ spec.is_mended old.now new.now fault.now }
{
    was_certain(old, fault) && !is_found(fault.cap, new)
}

/// Whether an entry with the remedy's fault has no fault any more, or that certain fault is mended directly.
pub fn is_earned(old: &[Finding], new: &[Finding], one: &Remedy) -> bool
    ensures { result ≡ spec.is_earned old.now new.now one.now }
{
    has_fault(old, &one.fault)
        && (is_none(new) || (is_direct(one) && is_mended(old, new, &one.fault)))
}

/// Whether this finding is about the capability, and none of the old ones is that fault.
fn is_new(old: &[Finding], cap: Cap, own: &Finding) -> bool
    ensures { result ≡ (own.now.cap == cap && not (spec.has_fault old.now own.now)) }
{
    own.cap.place() == cap.place() && !has_fault(old, own)
}

/// Whether there is a new fault about the capability.
pub fn has_new(old: &[Finding], new: &[Finding], cap: Cap) -> bool
    ensures { result ≡ list_any (λ own. own.cap == cap && not (spec.has_fault old.now own)) new.now }
{
    new.iter().any(|own| is_new(old, cap, own))
}
