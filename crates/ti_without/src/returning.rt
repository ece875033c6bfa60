//! Strings that come back, since the entry has a certificate with them too.

ghost use Rattle.std.specs.Prelude.{◌≡◌, ◌<◌, All, Contains, IfNone, IfOk, IfSome, length};
ghost use Rattle.ti_without.specs.Less as less;
ghost use Rattle.ti_without.specs.Without as spec;

use crate::left_out::{LeftOut, but, without_all};
use crate::without::Without;
use std::alloc::{AllocError, Global};
use ti_caps::{Cap, Entry};
use ti_cert::Checked;
use ti_checker::{certify, check};
use ti_faults::must_claim;
use vt_term::Size;

/// The strings of the certificate of `entry`; `None` if it is refused. Most entries that come here are refused, and
/// `check` stops at their first fault.
fn accepted(alloc: Global, entry: &Entry, size: Size) -> Result<Option<Checked>, AllocError>
    ensures some { IfOk result (λ found. IfSome found (spec.IsCertified entry.now size.rows size.cols)) }
    ensures none { IfOk result (λ found. IfNone found (spec.IsRefused entry.now size.rows size.cols)) }
{
    match check(alloc, entry, size) {
        Ok(_text) => (),
        Err(no) => {
            must_claim(no.cause)?;
            return Ok(None);
        }
    }
    match certify(alloc, entry, size) {
        Ok(checked) => Ok(Some(checked)),
        Err(no) => {
            must_claim(no.cause)?;
            Ok(None)
        }
    }
}

/// The strings that are left if `cap` comes back, with all that comes with it; `None` if the entry is refused then.
fn put_back(
    alloc: Global,
    entry: &Entry,
    size: Size,
    left: &[LeftOut],
    cap: Cap,
) -> Result<Option<Without>, AllocError>
    ensures some { IfOk result (λ found. IfSome found (λ w. spec.IsCertified (less.less entry.now
        (less.caps_of w.left_out.items)) size.rows size.cols w.checked)) }
    ensures fewer { IfOk result (λ found. IfSome found (λ w. w.left_out.items ≡ less.but cap left.now)) }
    ensures none { IfOk result (λ found. IfNone found (spec.IsRefused (less.less entry.now
        (less.caps_of (less.but cap left.now))) size.rows size.cols)) }
{
    let fewer = but(alloc, cap, left)?;
    let smaller = without_all(entry, &fewer)?;
    match accepted(alloc, &smaller, size)? {
        Some(checked) => Ok(Some(Without {
            checked,
            left_out: fewer,
        })),
        None => Ok(None),
    }
}

/// The strings that are left if the first of `left` comes back that can; `None` if none can.
fn less_left(
    alloc: Global,
    entry: &Entry,
    size: Size,
    left: &[LeftOut],
) -> Result<Option<Without>, AllocError>
    ensures some { IfOk result (λ found. IfSome found (λ w. spec.IsCertified (less.less entry.now
        (less.caps_of w.left_out.items)) size.rows size.cols w.checked)) }
    ensures part { IfOk result (λ found. IfSome found (λ w. All (Contains left.now) w.left_out.items)) }
    ensures fewer { IfOk result (λ found. IfSome found (λ w. length w.left_out.items < length left.now)) }
    ensures none { IfOk result (λ found. IfNone found
        (All (spec.IsNeeded entry.now size.rows size.cols left.now) left.now)) }
{
    for one in left {
        if let Some(found) = put_back(alloc, entry, size, left, one.cap)? {
            return Ok(Some(found));
        }
    }
    Ok(None)
}

/// Puts strings back, one after another, until none can come back.
pub(crate) fn settled(
    alloc: Global,
    entry: &Entry,
    size: Size,
    found: Without,
) -> Result<Without, AllocError>
    requires { spec.IsFound entry.now size.rows size.cols found }
    ensures found { IfOk result (spec.IsFound entry.now size.rows size.cols) }
    ensures needed { IfOk result (λ w. All (spec.IsNeeded entry.now size.rows size.cols w.left_out.items)
        w.left_out.items) }
{
    let mut found = found;
    loop {
        match less_left(alloc, entry, size, &found.left_out)? {
            Some(better) => found = better,
            None => return Ok(found),
        }
    }
}
