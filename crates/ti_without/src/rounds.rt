//! One round: the strings at fault are left out.

ghost use Rattle.std.specs.List.{list_all, list_any};
ghost use Rattle.std.specs.Prelude.{◌≡◌, ◌<◌, ℕ, IfErr, IfOk, None, true};
ghost use Rattle.ti_caps.specs.Entry.{string_at};
ghost use Rattle.ti_checker.specs.No.{IsNo};
ghost use Rattle.ti_without.specs.Less.{both, other_screen};
ghost use Rattle.ti_without.specs.Going as going;
ghost use Rattle.ti_without.specs.Rounds as spec;
ghost use Rattle.ti_without.specs.Without.{IsStop};

use crate::left_out::{LeftOut, is_on_other_screen, may_go};
use std::alloc::{AllocError, Global};
use ti_caps::{Cap, Entry};
use ti_checker::{Cause, No};
use ti_faults::{faults_beside, must_claim};
use ti_rows::Row;
use vt_term::Size;

/// An entry that capabilities were left out of, and these.
#[derive(Drop)]
pub(crate) struct Smaller {
    pub(crate) entry: Entry,
    pub(crate) left: Vec<LeftOut>,
}

/// Whether a fault with this cause waits until nothing else is at fault.
fn waits(cause: Cause) -> bool
    ensures { result ≡ spec.waits cause }
{
    match cause {
        Cause::NoResync => true,
        Cause::FlagOut
        | Cause::Absent
        | Cause::AcsByte
        | Cause::Parm(_)
        | Cause::StaticRead
        | Cause::Unfinished
        | Cause::Stuck
        | Cause::NotTame
        | Cause::BadLook
        | Cause::WrongEffect(_)
        | Cause::NotShown
        | Cause::TooLong
        | Cause::NoMemory => false,
    }
}

/// Whether one of the faults `nos` doesn't wait.
fn some_counts(nos: &[No]) -> bool
    ensures { result ≡ list_any spec.counts nos.now }
{
    nos.iter().any(|no| !waits(no.cause))
}

/// Whether `entry` can do without the string of each of the faults `nos` that doesn't wait.
fn each_may_go(entry: &Entry, nos: &[No]) -> bool
    ensures { result ≡ list_all (spec.may_go_or_wait entry.now) nos.now }
{
    nos.iter()
        .all(|no| waits(no.cause) || may_go(entry, no.cap))
}

/// Whether there is a round: one of the faults `nos` doesn't wait, and `entry` can do without the string of each that
/// doesn't.
pub(crate) fn can_go_on(entry: &Entry, nos: &[No]) -> bool
    ensures { result ≡ spec.can_go_on entry.now nos.now }
{
    some_counts(nos) && each_may_go(entry, nos)
}

/// A copy of the refusal `no`.
fn copied(no: &No) -> Result<No, AllocError>
    ensures { IfOk result (λ copy. copy ≡ no.now) }
{
    Ok(No {
        cap: no.cap,
        params: no.params.clone()?,
        cause: no.cause,
    })
}

impl Smaller {
    /// Leaves out `cap` for the fault `no`, if the entry has a string of this capability.
    fn but(self, cap: Cap, no: &No) -> Result<Smaller, AllocError>
        ensures { IfOk result (going.LeavesOut self cap no.now) }
    {
        if self.entry.get_string(cap).is_none() {
            return Ok(self);
        }
        let Smaller { entry, left } = self;
        let mut left = left;
        left.push(LeftOut {
            cap,
            at_fault: no.cap,
            cause: no.cause,
        })?;
        Ok(Smaller {
            entry: entry.without(cap),
            left,
        })
    }

    /// Leaves out `smcup` and `rmcup` for the fault `no`, if it is that of one of them. The fault must not wait.
    fn but_pair(self, no: &No) -> Result<Smaller, AllocError>
        requires { spec.counts no.now ≡ true }
        ensures leaves { IfOk result (going.LeavesFor self no.now) }
        ensures lacks { IfOk result (λ after. (cap : ℕ) → both other_screen (no.now).cap cap ≡ true
            → string_at after.entry cap ≡ None) }
    {
        if !is_on_other_screen(no.cap) {
            return Ok(self);
        }
        let back = self.but(Row::Smcup.cap(), no)?;
        back.but(Row::Rmcup.cap(), no)
    }

    /// Leaves out the capability of the fault `no`, and with `smcup` and `rmcup` the other one; nothing if the fault
    /// waits.
    fn but_fault(self, no: &No) -> Result<Smaller, AllocError>
        ensures leaves { IfOk result (going.LeavesFor self no.now) }
        ensures lacks { IfOk result (going.LacksFor no.now) }
    {
        if waits(no.cause) {
            return Ok(self);
        }
        let single = self.but(no.cap, no)?;
        let smaller = single.but_pair(no)?;
        Ok(smaller)
    }

    /// Leaves out what goes for the faults `nos`.
    pub(crate) fn but_all(self, nos: &[No]) -> Result<Smaller, AllocError>
        ensures { IfOk result (going.LeavesAll self nos.now) }
    {
        let mut smaller = self;
        for no in nos {
            smaller = smaller.but_fault(no)?;
        }
        Ok(smaller)
    }
}

/// One round more, for an entry that `check` refuses by `no`.
///
/// # Errors
/// The refusal, if the entry has a fault whose string can't be left out; or out of memory.
pub(crate) fn next(alloc: Global, smaller: Smaller, size: Size, no: No) -> Result<Smaller, No>
    requires { IsNo smaller.entry size.rows size.cols no }
    ensures further { IfOk result (going.IsFurther size.rows size.cols smaller) }
    ensures fewer { IfOk result (λ after. going.present after.entry < going.present smaller.entry) }
    ensures stop { IfErr result (IsStop smaller.entry size.rows size.cols) }
{
    must_claim(no.cause)?;
    let nos = faults_beside(alloc, &smaller.entry, size, copied(&no)?)?;
    if !can_go_on(&smaller.entry, &nos) {
        return Err(no);
    }
    Ok(smaller.but_all(&nos)?)
}
