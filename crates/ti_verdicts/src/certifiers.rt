//! Writers of certificates.

ghost use Rattle.std.specs.Prelude.{ℕ, List, IfErr, IfOk};
ghost use Rattle.ti_caps.specs.Entry.{Content};
ghost use Rattle.ti_checker.specs.{declared.causes.No.{No}, No.{IsNo}};
ghost use Rattle.ti_verdicts.specs.Checks.{IsCertified};

use std::alloc::Global;
use ti_caps::Entry;
use ti_checker::{No, check};
use vt_term::Size;

/// Writes the certificates of entries.
pub trait Certifier {
    /// The relation that the text written for an entry, rows and columns satisfies.
    ghost certifies: { Self → Content → ℕ → ℕ → List ℕ → Type 0 };

    /// The relation that a refusal for an entry, rows and columns satisfies.
    ghost refuses: { Self → Content → ℕ → ℕ → No → Type 0 };

    /// Whether further lines tell the bound of a session on an entry with a certificate.
    fn tells_bound(&self) -> bool;

    /// The certificate of `entry` for `size`.
    ///
    /// # Errors
    /// The capability, the parameters and the cause for which there is none.
    fn certify(&self, alloc: Global, entry: &Entry, size: Size) -> Result<Vec<u8>, No>
        ensures certifies { IfOk result (λ text. certifies self.now entry.now size.rows size.cols text.items) }
        ensures refuses { IfErr result (λ refusal. refuses self.now entry.now size.rows size.cols refusal) };
}

/// The checker: a text that it writes is the certificate of the entry, which conforms, and each of its refusals is true
/// and the first.
#[derive(Clone, Copy)]
pub struct Checker;

impl Certifier for Checker {
    ghost certifies = { λ _ entry rows cols text. IsCertified entry rows cols text };

    ghost refuses = { λ _ entry rows cols refusal. IsNo entry rows cols refusal };

    fn tells_bound(&self) -> bool {
        false
    }

    fn certify(&self, alloc: Global, entry: &Entry, size: Size) -> Result<Vec<u8>, No> {
        check(alloc, entry, size)
    }
}

/// The checker, where further lines tell the bound of a session too.
#[derive(Clone, Copy)]
pub struct TellingChecker;

impl Certifier for TellingChecker {
    ghost certifies = { λ _ entry rows cols text. IsCertified entry rows cols text };

    ghost refuses = { λ _ entry rows cols refusal. IsNo entry rows cols refusal };

    fn tells_bound(&self) -> bool {
        true
    }

    fn certify(&self, alloc: Global, entry: &Entry, size: Size) -> Result<Vec<u8>, No> {
        check(alloc, entry, size)
    }
}
