//! Capabilities that are left out of an entry.

ghost use Rattle.std.specs.Prelude.{◌≡◌, IfOk};
ghost use Rattle.ti_without.specs.Less as spec;

use std::alloc::{AllocError, Global};
use ti_caps::{Cap, Entry};
use ti_checker::Cause;
use ti_conforms::acsc;
use ti_rows::Row;
use vt_term::Color;

/// A capability that is left out of an entry, and the fault for which it is.
#[derive(Clone, Copy, Debug, PartialEq, Eq)]
pub struct LeftOut {
    /// The capability that is left out.
    pub cap: Cap,
    /// The capability at fault: this one, or the other one of `smcup` and `rmcup`.
    pub at_fault: Cap,
    /// Its fault.
    pub cause: Cause,
}

/// The capabilities without which an entry has no certificate.
fn required() -> [Cap; 3]
    ensures { result ≡ spec.required }
{
    [Row::Clear.cap(), Row::Cup(0, 0).cap(), Row::Sgr0.cap()]
}

/// The capabilities that lead to the other screen and back.
fn other_screen() -> [Cap; 2]
    ensures { result ≡ spec.other_screen }
{
    [Row::Smcup.cap(), Row::Rmcup.cap()]
}

/// The capabilities of colors, each of which is checked only if an entry has all.
fn colors() -> [Cap; 3]
    ensures { result ≡ spec.colors }
{
    [
        Row::Setaf(Color::Black).cap(),
        Row::Setab(Color::Black).cap(),
        Row::Op.cap(),
    ]
}

/// The capabilities that lead to the alternate set of characters and back.
fn alternate() -> [Cap; 2]
    ensures { result ≡ spec.alternate }
{
    [Row::Smacs.cap(), Row::Rmacs.cap()]
}

/// Whether `cap` is one of `caps`.
fn is_among(caps: &[Cap], cap: Cap) -> bool
    ensures { result ≡ spec.is_among caps.now cap }
{
    caps.iter().any(|own| *own == cap)
}

/// Whether both `cap` and `other` are among `group`.
fn both(group: &[Cap], cap: Cap, other: Cap) -> bool
    ensures { result ≡ spec.both group.now cap other }
{
    is_among(group, cap) && is_among(group, other)
}

/// Whether `cap` is `smcup` or `rmcup`.
pub(crate) fn is_on_other_screen(cap: Cap) -> bool
    ensures { result ≡ spec.is_among spec.other_screen cap }
{
    is_among(&other_screen(), cap)
}

/// Whether `other` is left out when `cap` is: it is the same, or they are `smcup` and `rmcup`.
fn goes_with(cap: Cap, other: Cap) -> bool
    ensures { result ≡ spec.goes_with cap other }
{
    other == cap || both(&other_screen(), cap, other)
}

/// Whether `other` comes back when `cap` does: it goes with it, or is checked only together with it.
fn comes_with(cap: Cap, other: Cap) -> bool
    ensures { result ≡ spec.comes_with cap other }
{
    goes_with(cap, other)
        || both(&colors(), cap, other)
        || both(&alternate(), cap, other)
        || (is_among(&alternate(), cap) && other == acsc())
}

/// Whether `entry` has the string `cap`, and a certificate can do without it.
pub(crate) fn may_go(entry: &Entry, cap: Cap) -> bool
    ensures { result ≡ spec.may_go entry.now cap }
{
    entry.get_string(cap).is_some() && !is_among(&required(), cap)
}

/// The part of `left` that stays left out when `cap` is put back, with those that come with it.
pub(crate) fn but(alloc: Global, cap: Cap, left: &[LeftOut]) -> Result<Vec<LeftOut>, AllocError>
    ensures { IfOk result (λ fewer. fewer.items ≡ spec.but cap left.now) }
{
    let mut fewer = Vec::new(alloc);
    for one in left {
        if !comes_with(cap, one.cap) {
            fewer.push(*one)?;
        }
    }
    Ok(fewer)
}

/// The entry without the capabilities of `left`.
///
/// # Errors
/// Out of memory.
pub fn without_all(entry: &Entry, left: &[LeftOut]) -> Result<Entry, AllocError>
    ensures { IfOk result (λ smaller. smaller ≡ spec.less entry.now (spec.caps_of left.now)) }
{
    let mut smaller = entry.try_copy()?;
    for one in left {
        smaller = smaller.without(one.cap);
    }
    Ok(smaller)
}
