//! The advice on an entry.

ghost use Rattle.std.specs.Prelude.{IfOk};
ghost use Rattle.ti_advice.specs.Advice as spec;

use crate::deeds::deeds;
use crate::duties::Duty;
use crate::keys::{Key, keys};
use crate::pictures::pictures;
use crate::sets::{SetUse, sets};
use std::alloc::{AllocError, Global};
use ti_caps::{Cap, Entry};

/// A piece of advice about a string that programs send, checked or not, or that a key sends.
#[derive(Debug, Drop)]
pub struct Advice {
    /// The capability of the string.
    pub cap: Cap,
    /// The fault of the string.
    pub kind: AdviceKind,
    /// The bytes that it sends in the run that shows the fault; `None` if there is no run, or if the string can't be
    /// expanded.
    pub run: Option<Vec<u8>>,
}

/// The kinds of advice.
#[derive(Clone, Copy, Debug, PartialEq, Eq)]
pub enum AdviceKind {
    /// The string doesn't do on T what its name means.
    Deed(Duty),
    /// `sgr` doesn't switch to the set that `smacs` or `rmacs` makes active.
    Set(SetUse),
    /// `acsc` gives this letter of the VT100's set the picture of another one.
    Picture(u8),
    /// This key before it sends the same string.
    Key(Key),
}

/// All advice on `entry`, in the order of the kinds: attributes and other strings, sets, pictures, keys.
///
/// # Errors
/// Out of memory.
pub fn advice_on(alloc: Global, entry: &Entry) -> Result<Vec<Advice>, AllocError>
    ensures { IfOk result (λ list. spec.IsAdviceOn entry.now list.items) }
{
    let mut list = deeds(alloc, entry)?;
    let mut of_sets = sets(alloc, entry)?;
    let mut of_pictures = pictures(alloc, entry)?;
    let mut of_keys = keys(alloc, entry)?;
    list.append(&mut of_sets)?;
    list.append(&mut of_pictures)?;
    list.append(&mut of_keys)?;
    Ok(list)
}
