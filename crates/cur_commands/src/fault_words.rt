//! The fixed line that says why a certificate is refused.

ghost use Rattle.std.specs.Prelude.{◌≡◌, ◌++◌, IfOk, OnOk};
ghost use Rattle.cur_commands.specs.Faults as spec;

use std::alloc::{AllocError, Global};
use ti_caps::{Cap, name};
use ti_cert::{CertFault, CertFaultKind};
use ti_files::Pushed;
use ti_words::push_numbers;

/// `line N: KIND` of `fault`, and the capability that the kind has.
pub fn fault_words(alloc: Global, fault: &CertFault) -> Result<Vec<u8>, AllocError>
    ensures { IfOk result (λ words. words.items ≡ spec.fault_text fault.now) }
{
    let line = fault.line;
    let mut words = Vec::new(alloc);
    words.extend_from_slice(format!(in alloc; "line {line}: ")?.as_bytes())?;
    words.extend_from_slice(kind_name(&fault.kind))?;
    push_cap(alloc, &fault.kind, &mut words)?;
    Ok(words)
}

/// `Disagree CAP P..`, with the name of `cap` and the `numbers`.
pub fn disagreement_words(alloc: Global, cap: Cap, numbers: &[u16]) -> Result<Vec<u8>, AllocError>
    ensures { IfOk result (λ words. words.items ≡ spec.disagreement_text cap numbers.now) }
{
    let mut words = Vec::new(alloc);
    words.extend_from_slice(b"Disagree ")?;
    words.extend_from_slice(name(cap))?;
    push_numbers(alloc, numbers, &mut words)?;
    Ok(words)
}

/// The name of `kind`, and the space before its capability, if it has one.
fn kind_name(kind: &CertFaultKind) -> &'static [u8]
    ensures { result.now ≡ spec.kind_name kind.now }
{
    match kind {
        CertFaultKind::BadLine => b"BadLine",
        CertFaultKind::Missing(_, _) => b"Missing ",
        CertFaultKind::OutOfOrder => b"OutOfOrder",
        CertFaultKind::NotWhole => b"NotWhole",
        CertFaultKind::NotTame => b"NotTame",
        CertFaultKind::NotShown => b"NotShown",
        CertFaultKind::NoResync => b"NoResync",
        CertFaultKind::BadLook => b"BadLook",
        CertFaultKind::NoMemory => b"NoMemory",
        CertFaultKind::ReadFailed => b"ReadFailed",
    }
}

/// Appends the capability that `kind` has, with its parameters, to `words`.
fn push_cap(alloc: Global, kind: &CertFaultKind, words: &mut Vec<u8>) -> Pushed
    ensures { OnOk result (words.new.items ≡ words.old.items ++ spec.kind_cap kind.now) }
{
    match kind {
        CertFaultKind::Missing(cap, params) => {
            words.extend_from_slice(name(*cap))?;
            push_numbers(alloc, params.as_slice(), words)
        }
        CertFaultKind::BadLine | CertFaultKind::OutOfOrder | CertFaultKind::NotWhole => Ok(()),
        CertFaultKind::NotTame | CertFaultKind::NotShown | CertFaultKind::NoResync => Ok(()),
        CertFaultKind::BadLook | CertFaultKind::NoMemory | CertFaultKind::ReadFailed => Ok(()),
    }
}
