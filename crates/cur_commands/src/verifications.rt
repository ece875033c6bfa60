//! The command `verify`.

ghost use Rattle.std.specs.Prelude.{◌≡◌, IfErr, IfOk};
ghost use Rattle.ti_conforms.specs.Conforms.{Conforms};
ghost use Rattle.cur_commands.specs.Faults.{TellsFault, fault_text};
ghost use Rattle.ti_verdicts.specs.Refusals.{IsVerdict};
ghost use Rattle.cur_commands.specs.Verifications as spec;

use crate::certificates::CertificateFile;
use crate::fault_words::{disagreement_words, fault_words};
use crate::faults::explain_fault;
use std::alloc::Global;
use std::io::Read;
use ti_caps::Entry;
use ti_cert::{AgreeFault, CertFault, CertFaultKind, Checked, VerifyFault, verify_from};
use ti_commands::entry_of;
use ti_files::{Failure, Files, Remarks, Replied, Reply, file_fault, size_words};
use ti_requests::VerifyWords;
use ti_verdicts::verdict;
use ti_words::explain_disagreement;
use vt_term::Size;

/// Says yes if the certificate that the `words` name shows that their entry conforms at their size. Further lines go to
/// `remarks`.
pub fn verify_certificate<F: Files>(
    alloc: Global,
    words: &VerifyWords<'_>,
    files: &mut F,
    remarks: &mut Remarks,
) -> Replied
    ensures reply { IfOk result (λ reply. spec.IsVerified (F.holds files.old) words.now reply) }
    ensures failure { IfErr result (λ e. spec.FailsToVerify (F.holds files.old) words.now e) }
    ensures kept { F.holds files.new ≡ F.holds files.old }
{
    let size = size_words(alloc, words.rows, words.cols, remarks)?;
    let entry = entry_of(alloc, files, words.entry, remarks)?;
    let _checked = checked_at(alloc, &entry, size, words.certificate, files, remarks)?;
    let text = Vec::from_slice(alloc, b"yes\n")?;
    Ok(Reply::of_text(alloc, text))
}

/// The strings of `entry` that the certificate at `path` verifies for `size`. The certificate is judged as it is read.
pub fn checked_at<F: Files>(
    alloc: Global,
    entry: &Entry,
    size: Size,
    path: &str,
    files: &mut F,
    remarks: &mut Remarks,
) -> Result<Checked, Failure>
    ensures conforms { IfOk result (λ _. Conforms entry.now size.rows size.cols) }
    ensures hands_out { IfOk result
        (λ checked. spec.HandsOut ((F.holds files.old).at path.now) entry.now size.rows size.cols checked) }
    ensures failure { IfErr result
        (λ e. spec.LacksCertificate ((F.holds files.old).at path.now) size.rows size.cols entry.now path.now e) }
    ensures kept { F.holds files.new ≡ F.holds files.old }
{
    let file = match files.reader(path) {
        Ok(file) => file,
        Err(fault) => return Err(file_fault(alloc, path, fault, remarks)),
    };
    let mut reader = CertificateFile::new(alloc, file);
    match verify_from(alloc, entry, size, &mut reader) {
        Ok(checked) => Ok(checked),
        Err(VerifyFault::Cert(fault)) => {
            Err(cert_failure(alloc, path, size, &fault, &reader, remarks))
        }
        Err(VerifyFault::Agree(fault)) => Err(agree_failure(alloc, path, entry, &fault, remarks)),
    }
}

/// The failure of the certificate at `path`, with which `entry` doesn't agree, as `fault` says.
fn agree_failure(
    alloc: Global,
    path: &str,
    entry: &Entry,
    fault: &AgreeFault,
    remarks: &mut Remarks,
) -> Failure
    ensures { TellsFault path.now (VerifyFault.Agree fault.now) result }
{
    match fault {
        AgreeFault::Disagree { cap, params } => {
            explain_disagreement(alloc, path, entry, *cap, remarks);
            verdict(disagreement_words(alloc, *cap, params.as_slice()))
        }
        AgreeFault::NoMemory => Failure::NoMemory,
    }
}

/// The failure of the certificate at `path`, whose text has `fault`.
fn cert_failure<R: Read>(
    alloc: Global,
    path: &str,
    size: Size,
    fault: &CertFault,
    reader: &CertificateFile<R>,
    remarks: &mut Remarks,
) -> Failure
    ensures { TellsFault path.now (VerifyFault.Cert fault.now) result }
{
    match fault.kind {
        CertFaultKind::NoMemory => Failure::NoMemory,
        CertFaultKind::ReadFailed => file_fault(alloc, path, reader.fault(), remarks),
        CertFaultKind::BadLine
        | CertFaultKind::Missing(_, _)
        | CertFaultKind::OutOfOrder
        | CertFaultKind::NotWhole
        | CertFaultKind::NotTame
        | CertFaultKind::NotShown
        | CertFaultKind::NoResync
        | CertFaultKind::BadLook => {
            explain_fault(alloc, path, size, fault, reader.seen(), remarks);
            fault_verdict(alloc, fault)
        }
    }
}

/// The refusal in the words of `fault`.
fn fault_verdict(alloc: Global, fault: &CertFault) -> Failure
    ensures { IsVerdict (fault_text fault.now) result }
{
    verdict(fault_words(alloc, fault))
}
