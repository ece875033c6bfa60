//! The form in which reports are printed.

ghost use Rattle.std.specs.{Prelude.{◌≡◌, ℕ, Bool, List, IfOk}, List.{list_any}};
ghost use Rattle.ti_reports.specs.Forms.{is_news};
ghost use Rattle.ti_reports.specs.declared.reports.Report.{Report};
ghost use Rattle.ti_verdicts.specs.Parts.{HasParts};

use crate::reports::Report;
use std::alloc::{AllocError, Global};
use ti_verdicts::Lines;

/// Prints reports in the form in which they are wanted.
pub trait Form {
    /// Whether it tells of a report; of others it prints nothing, and they are no reason to fail.
    ghost wanted: { Self → Report → Bool };

    /// The relation that what it prints of a report satisfies.
    ghost prints: { Self → Report → List ℕ → Type 0 };

    /// Whether it tells of `report`.
    fn wants(&self, report: &Report) -> bool
        ensures { result ≡ wanted self.now report.now };

    /// The text that it prints of `report`.
    ///
    /// # Errors
    /// Out of memory.
    fn print(&self, alloc: Global, report: &Report) -> Result<Vec<u8>, AllocError>
        ensures { IfOk result (λ text. prints self.now report.now text.items) };
}

/// The texts that `form` prints of the `reports`, one after another.
pub(crate) fn printed<P: Form>(alloc: Global, form: &P, reports: &[Report]) -> Lines
    ensures { IfOk result (λ text. HasParts (P.prints form.now) reports.now text.items) }
{
    let mut text = Vec::new(alloc);
    for report in reports {
        text.extend_from_slice(form.print(alloc, report)?.as_slice())?;
    }
    Ok(text)
}

/// Whether `form` tells of one of the `reports` that says that something is wrong.
pub(crate) fn has_news<P: Form>(form: &P, reports: &[Report]) -> bool
    ensures { result ≡ list_any (is_news (P.wanted form.now)) reports.now }
{
    reports.iter().any(|report| is_news(form, report))
}

/// Whether `form` tells of `report`, which says that something is wrong.
pub(crate) fn is_news<P: Form>(form: &P, report: &Report) -> bool
    ensures { result ≡ is_news (P.wanted form.now) report.now }
{
    report.verdict.is_wrong() && form.wants(report)
}
