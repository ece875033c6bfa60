//! An entry's strings by name, and what they send.

ghost use Rattle.std.specs.Prelude.{◌≡◌, IfOk, option_copied, option_map};
ghost use Rattle.ti_parm.specs.Value.{values_of};
ghost use Rattle.ti_advice.specs.Strings as spec;

use std::alloc::{AllocError, Global};
use ti_caps::{Entry, by_name};
use ti_parm::{Param, ParmFault, sent};

/// Bytes, if there are any; or that memory ran out.
pub(crate) type Found = Result<Option<Vec<u8>>, AllocError>;

/// The string of `entry` with this name.
pub(crate) fn string_named<'a>(entry: &'a Entry, name: &[u8]) -> Option<&'a [u8]>
    ensures { option_copied result ≡ spec.string_named entry.now name.now }
{
    match by_name(name) {
        Some(cap) => entry.get_string(cap),
        None => None,
    }
}

/// Whether `entry` has a string of this name.
pub(crate) fn has_string(entry: &Entry, name: &[u8]) -> bool
    ensures { result ≡ spec.has_string entry.now name.now }
{
    string_named(entry, name).is_some()
}

/// The bytes that `string` sends with the parameters `given`; `None` if it can't be expanded.
pub(crate) fn sent_by(alloc: Global, string: &[u8], given: &[Param]) -> Found
    ensures { IfOk result (λ found. spec.IsSent string.now (values_of given.now)
        (option_map (λ bytes. bytes.items) found)) }
{
    let mut bytes = Vec::new(alloc);
    match sent(alloc, string, given, &mut bytes) {
        Ok(()) => Ok(Some(bytes)),
        Err(ParmFault::NoMemory) => Err(AllocError),
        Err(
            ParmFault::Underflow
            | ParmFault::BadNest
            | ParmFault::BadCode
            | ParmFault::WrongKind
            | ParmFault::Overflow
            | ParmFault::BadChar,
        ) => Ok(None),
    }
}

/// The bytes that the string of `entry` with this name sends; `None` if it has none, or if that can't be expanded.
pub(crate) fn own_sent(alloc: Global, entry: &Entry, name: &[u8], given: &[Param]) -> Found
    ensures { IfOk result (λ found. spec.IsOwn entry.now name.now (values_of given.now)
        (option_map (λ bytes. bytes.items) found)) }
{
    match string_named(entry, name) {
        Some(string) => sent_by(alloc, string, given),
        None => Ok(None),
    }
}

/// These bytes, or none.
pub(crate) fn or_none(alloc: Global, found: Option<Vec<u8>>) -> Vec<u8>
    ensures { result.items ≡ spec.or_none (option_map (λ bytes. bytes.items) found) }
{
    match found {
        Some(bytes) => bytes,
        None => Vec::new(alloc),
    }
}
