//! The findings about entries, and strings that are advised for them.

ghost use Rattle.std.specs.{Prelude.{◌≡◌, List, IfOk, IsTrue}, List.{AllByRecursion}};
ghost use Rattle.ti_caps.specs.{Entry.{Content}, Fits.{string_fits}};
ghost use Rattle.ti_steps.specs.declared.advice.{Advice.{Advice}, Finding.{Finding}};

use std::alloc::{AllocError, Global};
use ti_caps::{Bytes, Cap, Entry};
use ti_fixes::Change;

/// How much a finding of an entry counts.
#[derive(Clone, Copy, Debug, PartialEq, Eq)]
pub enum Weight {
    /// It is a fault on any terminal, or by the entry's own other strings.
    Certain,
    /// The terminal shows it.
    Shown,
    /// It may be none.
    Doubtful,
    /// It is that of an entry that isn't for the terminal, or of one that is only there to be used by others: it counts
    /// for nothing.
    Lent,
}

/// Something that is wrong with an entry.
#[derive(Clone, Copy, Debug, PartialEq, Eq)]
pub struct Finding {
    /// The capability at fault.
    pub cap: Cap,
    /// The number by which an adviser knows the kind of the fault.
    pub cause: u8,
    /// How much it counts.
    pub weight: Weight,
}

/// A string that is advised for a capability of an entry.
#[derive(Debug, Drop)]
pub struct Advice {
    /// The capability.
    pub cap: Cap,
    /// The string.
    pub string: Bytes,
    /// The fault of the entry for which it is advised; it may be that of another capability.
    pub fault: Finding,
}

/// A string that is advised for an entry of a source text, and the field that is to be given it.
#[derive(Debug, Drop)]
pub struct Remedy {
    /// The place of the entry for which it is advised.
    pub root: usize,
    /// The fault of that entry for which it is advised.
    pub fault: Finding,
    /// The field and the string.
    pub change: Change,
}

impl Remedy {
    /// A copy of the remedy.
    ///
    /// # Errors
    /// Out of memory.
    pub fn try_copy(&self) -> Result<Remedy, AllocError>
        ensures { IfOk result (λ copy. copy ≡ self.now) }
    {
        Ok(Remedy {
            root: self.root,
            fault: self.fault,
            change: self.change.try_copy()?,
        })
    }
}

/// Whether something is so of entries, unless memory ran out.
pub type Judged = Result<bool, AllocError>;

/// The findings about an entry, unless memory ran out.
pub type Found = Result<Vec<Finding>, AllocError>;

/// Finds what is wrong with entries, and advises strings for them.
pub trait Adviser {
    /// The relation of an entry and what is found about it.
    ghost finds: { Self → Content → List Finding → Type 0 };

    /// The relation of an entry and the strings that are advised for it.
    ghost advises: { Self → Content → List Advice → Type 0 };

    /// All that is wrong with the entry.
    fn find(&self, alloc: Global, entry: &Entry) -> Found
        ensures { IfOk result (λ findings. finds self.now entry.now findings.items) };

    /// The strings that are advised for the entry.
    fn advise(&self, alloc: Global, entry: &Entry) -> Result<Vec<Advice>, AllocError>
        ensures advised { IfOk result (λ advices. advises self.now entry.now advices.items) }
        ensures fits { IfOk result (λ advices. AllByRecursion (λ one. IsTrue (string_fits one.string)) advices.items) };
}
