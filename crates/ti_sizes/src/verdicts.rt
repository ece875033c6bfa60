//! Whether an entry is right at every size.

ghost use Rattle.std.specs.Prelude.{◌≡◌, ◌≢◌, IfErr, IfOk, OnOk};
ghost use Rattle.ti_caps.specs.Entry.{Content};
ghost use Rattle.ti_conforms.specs.{Conforms.{Conforms, IsFit}, Entries.{EntryAgrees}, Judged.{IsJudged}};
ghost use Rattle.ti_cert.specs.Table.{table_of};
ghost use Rattle.ti_checker.specs.No.{IsNo};
ghost use Rattle.ti_checker.specs.declared.causes.Cause.TheVariants as causes;
ghost use Rattle.ti_sizes.specs.{EverySize.{IsRightAtEverySize}, Lines.{AreSteady}};
ghost use Rattle.ti_sizes.specs.Answers as spec;
ghost use Rattle.vt_term.specs.Size.{max_rows, max_cols};

use crate::lines::{Unsteady, check_lines};
use crate::steps::greatest;
use std::alloc::{AllocError, Global};
use ti_caps::{Cap, Entry};
use ti_cert::{Table, agrees, audit};
use ti_checker::{Cause, check};
use vt_term::Size;

/// The answer to the question whether an entry is right at every size.
#[derive(Debug, Drop)]
pub enum EverySize {
    /// The entry conforms at every size, and a session opens at each, unless memory runs out.
    Yes,
    /// The entry has no certificate at this size, for this reason.
    No(Size, ti_checker::No),
    /// The entry conforms at the sizes that were tried. It isn't known whether a string of this capability has the same
    /// effect at every size.
    Undecided(Cap),
}

/// Why there is no yes: an answer, or out of memory.
#[derive(Drop)]
enum Doubt {
    Because(EverySize),
    NoMemory,
}

/// Fails if `cause` is that memory ran out.
fn must_claim(cause: Cause) -> Result<(), AllocError>
    ensures { OnOk result (cause ≢ causes.NoMemory) }
{
    match cause {
        Cause::NoMemory => Err(AllocError),
        Cause::FlagOut
        | Cause::Absent
        | Cause::AcsByte
        | Cause::Parm(_)
        | Cause::StaticRead
        | Cause::Unfinished
        | Cause::Stuck
        | Cause::NotTame
        | Cause::BadLook
        | Cause::WrongEffect(_)
        | Cause::NotShown
        | Cause::TooLong
        | Cause::NoResync => Ok(()),
    }
}

/// Checks that the entry has a certificate at this size.
fn check_at(alloc: Global, entry: &Entry, size: Size) -> Result<(), Doubt>
    ensures conforms { OnOk result (Conforms entry.now size.rows size.cols) }
    ensures doubt { IfErr result (spec.IsDoubt entry.now) }
{
    if let Err(no) = check(alloc, entry, size) {
        return Err(doubt_of(size, no));
    }
    Ok(())
}

/// The doubt that a refusal at this size gives.
fn doubt_of(size: Size, no: ti_checker::No) -> Doubt
    ensures { (entry : Content) → IsNo entry size.rows size.cols no → spec.IsDoubt entry result }
{
    match must_claim(no.cause) {
        Ok(()) => Doubt::Because(EverySize::No(size, no)),
        Err(_) => Doubt::NoMemory,
    }
}

/// The strings that the entry sends at the greatest size, each of which was judged.
fn greatest_table(alloc: Global, entry: &Entry) -> Result<Table, Doubt>
    ensures judged { IfOk result (λ table. IsJudged (table_of table)) }
    ensures fit { OnOk result (IsFit entry.now) }
    ensures conforms { OnOk result (Conforms entry.now max_rows max_cols) }
    ensures rows { IfOk result (λ table. table.known.strings.rows ≡ max_rows) }
    ensures cols { IfOk result (λ table. table.known.strings.cols ≡ max_cols) }
    ensures sends { IfOk result (λ table. EntryAgrees table.known.strings.rows table.known.strings.cols entry.now
        (table_of table).line_of) }
    ensures certificate { OnOk result (spec.HasGreatest entry.now) }
    ensures doubt { IfErr result (spec.IsDoubt entry.now) }
{
    let size = greatest();
    let text = match check(alloc, entry, size) {
        Ok(text) => text,
        Err(no) => return Err(doubt_of(size, no)),
    };
    // an entry's own certificate is refused only when memory runs out
    let Ok(table) = audit(alloc, text.as_slice(), size) else {
        return Err(Doubt::NoMemory);
    };
    match agrees(alloc, &table, entry) {
        Ok(()) => Ok(table),
        Err(_) => Err(Doubt::NoMemory),
    }
}

/// Checks that the entry is right at every size.
fn check_sizes(alloc: Global, entry: &Entry) -> Result<(), Doubt>
    ensures yes { OnOk result (IsRightAtEverySize entry.now) }
    ensures doubt { IfErr result (spec.IsDoubt entry.now) }
{
    check_at(alloc, entry, least())?;
    check_at(alloc, entry, common())?;
    let table = greatest_table(alloc, entry)?;
    match check_lines(alloc, &table) {
        Ok(()) => Ok(()),
        Err(Unsteady::At(row)) => Err(Doubt::Because(EverySize::Undecided(row.cap()))),
        Err(Unsteady::NoMemory) => Err(Doubt::NoMemory),
    }
}

/// The least size of a terminal.
fn least() -> Size
    ensures rows { result.rows ≡ 2 }
    ensures cols { result.cols ≡ 2 }
{
    Size::new(2, 2).unwrap()
}

/// The most common size.
fn common() -> Size
    ensures rows { result.rows ≡ 24 }
    ensures cols { result.cols ≡ 80 }
{
    Size::new(24, 80).unwrap()
}

/// Whether `entry` drives a terminal correctly at every size, of 2 to 200 rows and 2 to 500 columns.
///
/// The entry is checked at 2 by 2, at 24 by 80 and at 200 by 500, in this order, and the first size at which it has no
/// certificate is the answer. A string sends the same for its parameters at every size, so those of the greatest size
/// are all that the entry ever sends. It remains to show that the effect of each is one for all sizes, from its tokens
/// alone; where that can't be shown, as with a tab, the answer is `Undecided`.
///
/// After a `Yes`, `ti_checker::certify` refuses the entry at no size, unless memory runs out.
///
/// # Errors
/// Out of memory.
pub fn every_size(alloc: Global, entry: &Entry) -> Result<EverySize, AllocError>
    ensures { IfOk result (spec.IsAnswer entry.now) }
{
    match check_sizes(alloc, entry) {
        Ok(()) => Ok(EverySize::Yes),
        Err(Doubt::Because(answer)) => Ok(answer),
        Err(Doubt::NoMemory) => Err(AllocError),
    }
}
