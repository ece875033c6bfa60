//! An entry with everything at fault mended at once.

ghost use Rattle.std.specs.Prelude.{◌≡◌, ◌<◌, IfOk, IsTrue, ◌≢◌, true, false};
ghost use Rattle.ti_caps.specs.{Entry.{with_value}, Fits.{string_fits}};
ghost use Rattle.ti_conforms.specs.Entries.{acsc};
ghost use Rattle.ti_faults.specs.Candidates.{choice_of};
ghost use Rattle.ti_faults.specs.Mended as spec;
ghost use Rattle.ti_rows.specs.Names.{cap_of};
ghost use Rattle.ti_rows.specs.declared.rows.Row as rows;

use crate::all_faults::faults;
use crate::candidates::{Choice, singles};
use crate::capabilities::row_of;
use std::alloc::{AllocError, Global};
use ti_caps::{Cap, Entry};
use ti_checker::{No, names};
use ti_conforms::acsc;
use ti_rows::Row;
use vt_term::Size;

/// An entry in which each capability at fault is mended, and the faults that are left then.
#[derive(Drop)]
pub struct Mended {
    /// The mended entry.
    pub entry: Entry,
    /// All its faults.
    pub left: Vec<No>,
    /// The choice of its candidates for `enacs`, `smacs`, `rmacs` and `sgr0`.
    pub choice: Choice,
}

/// The entry with this string of the row's capability.
#[tactic(auto, using(crate::proofs::Mends::string_kind))]
fn with_string(entry: Entry, row: Row, string: &[u8]) -> Result<Entry, AllocError>
    requires { IsTrue (string_fits string.now) }
    ensures { IfOk result (λ changed. changed ≡ spec.with_string entry row string.now) }
{
    let mut changed = entry;
    changed.set_string(row.cap(), string)?;
    Ok(changed)
}

/// The entry with no pairs in its `acsc`.
#[tactic(auto, unfolding(ti_caps::specs::Table::kind_of))]
fn without_pairs(entry: Entry) -> Result<Entry, AllocError>
    ensures { IfOk result (λ changed. changed ≡ spec.without_pairs entry) }
{
    let mut changed = entry;
    changed.set_string(acsc(), b"")?;
    Ok(changed)
}

/// The entry with the row's capability mended, as the strings of `own`, the unmended entry, determine it.
fn mend_row(own: &Entry, entry: Entry, choice: Choice, row: Row) -> Result<Entry, AllocError>
    ensures { IfOk result (spec.MendsRow own.now entry choice row) }
{
    match choice.stand_in(own, row) {
        Some(string) => with_string(entry, row, string),
        None => Ok(entry.without(row.cap())),
    }
}

/// The entry with a capability mended that isn't checked by itself: `acsc` loses its pairs, any other is removed.
fn mend_other(entry: Entry, cap: Cap) -> Result<Entry, AllocError>
    requires { (row : rows.Row) → cap_of row ≢ cap }
    ensures { IfOk result (spec.MendsOther entry cap) }
{
    if cap == acsc() {
        without_pairs(entry)
    } else {
        Ok(entry.without(cap))
    }
}

/// The entry with a capability mended.
fn mend(own: &Entry, entry: Entry, choice: Choice, cap: Cap) -> Result<Entry, AllocError>
    ensures { IfOk result (spec.Mends own.now choice cap entry) }
{
    match row_of(cap) {
        Some(row) => mend_row(own, entry, choice, row),
        None => mend_other(entry, cap),
    }
}

/// The entry with the capabilities of the faults `nos` mended.
fn mend_all(own: &Entry, choice: Choice, nos: &[No]) -> Result<Entry, AllocError>
    ensures { IfOk result (spec.MendsAll own.now choice nos.now own.now) }
{
    let mut entry = own.try_copy()?;
    for no in nos {
        entry = mend(own, entry, choice, no.cap)?;
    }
    Ok(entry)
}

/// The entry with the string that `choice` gives the row's capability together with others, if it gives one.
fn with_grouped(entry: Entry, choice: Choice, row: Row) -> Result<Entry, AllocError>
    ensures { IfOk result (λ changed. changed ≡ spec.with_grouped choice row entry) }
{
    match choice.as_one(row) {
        Some(string) => with_string(entry, row, string),
        None => Ok(entry),
    }
}

/// The entry with the strings that switch character sets, if `choice` mends them as one.
fn with_switching(entry: Entry, choice: Choice) -> Result<Entry, AllocError>
    ensures { IfOk result (λ changed. changed ≡ spec.with_switching choice entry) }
{
    let enabled = with_grouped(entry, choice, Row::Enacs)?;
    let graphic = with_grouped(enabled, choice, Row::Smacs)?;
    with_grouped(graphic, choice, Row::Rmacs)
}

/// The entry mended by the choice with this number, with the second candidate for `sgr0` or its first, and all faults
/// that are left then.
fn mended_by(
    alloc: Global,
    entry: &Entry,
    size: Size,
    nos: &[No],
    second_sgr0: bool,
    number: u8,
) -> Result<Mended, AllocError>
    ensures { IfOk result
        (spec.IsMended entry.now size.rows size.cols nos.now (choice_of entry.now second_sgr0 number)) }
{
    let choice = Choice::of(entry, second_sgr0, number);
    let single = mend_all(entry, choice, nos)?;
    let mended = with_switching(single, choice)?;
    let left = faults(alloc, &mended, size)?;
    Ok(Mended {
        entry: mended,
        left,
        choice,
    })
}

/// Whether none of the faults is about `smacs` or `rmacs`.
fn switch_right(faults: &[No]) -> bool
    ensures { result ≡ spec.switches_sets faults.now }
{
    !names(faults, Row::Smacs.cap()) && !names(faults, Row::Rmacs.cap())
}

/// How many choices there are to mend the faults `nos` of `entry`.
fn choices(entry: &Entry, nos: &[No]) -> u8
    ensures { result ≡ spec.choices entry.now nos.now }
{
    if switch_right(nos) {
        1
    } else {
        singles(entry) + 2
    }
}

impl Mended {
    /// The entry with the capabilities of all the faults `nos` mended at once. If `smacs` or `rmacs` is among them,
    /// there are choices: to mend only what is at fault, in four ways if the strings of `entry` shift between sets, or
    /// else in one; then `enacs`, `smacs` and `rmacs` as one, by SO and SI or by designating G0. The first is taken
    /// after which neither `smacs` nor `rmacs` is at fault, or else the first of all. If `sgr0` is among them, and a
    /// capability is at fault then that wasn't before, `sgr0` gets its second string, the standard's, unless that puts
    /// one at fault too.
    ///
    /// # Errors
    /// Out of memory.
    pub fn new(alloc: Global, entry: &Entry, size: Size, nos: &[No]) -> Result<Mended, AllocError>
        ensures { IfOk result (spec.IsBestMended entry.now size.rows size.cols nos.now) }
    {
        let first = Mended::best(alloc, entry, size, nos, false)?;
        if first.needs_other(nos) {
            first.or_second(alloc, entry, size, nos)
        } else {
            Ok(first)
        }
    }

    /// The entry mended with the second candidate for `sgr0`; or `self`, which must be mended with the first one and
    /// need another, if the second puts a capability at fault too.
    fn or_second(
        self,
        alloc: Global,
        entry: &Entry,
        size: Size,
        nos: &[No],
    ) -> Result<Mended, AllocError>
        requires best { spec.IsBestBy entry.now size.rows size.cols nos.now false self }
        requires unsuited { spec.needs_other nos.now self.left.items ≡ true }
        ensures { IfOk result (spec.IsBestMended entry.now size.rows size.cols nos.now) }
    {
        let second = Mended::best(alloc, entry, size, nos, true)?;
        if second.adds_none(nos) {
            Ok(second)
        } else {
            Ok(self)
        }
    }

    /// Whether each fault that is left is about a capability that one of the faults `nos` is about too.
    fn adds_none(&self, nos: &[No]) -> bool
        ensures { result ≡ spec.adds_none nos.now self.now.left.items }
    {
        self.left.iter().all(|no| names(nos, no.cap))
    }

    /// Whether the faults `nos` have one of `sgr0`, and one that is left once it is mended is about a capability that
    /// none of them is about.
    fn needs_other(&self, nos: &[No]) -> bool
        ensures { result ≡ spec.needs_other nos.now self.now.left.items }
    {
        names(nos, Row::Sgr0.cap()) && !self.adds_none(nos)
    }

    /// The entry mended by the best of the choices with the second candidate for `sgr0`, or of those with its first.
    fn best(
        alloc: Global,
        entry: &Entry,
        size: Size,
        nos: &[No],
        second_sgr0: bool,
    ) -> Result<Mended, AllocError>
        ensures { IfOk result (spec.IsBestBy entry.now size.rows size.cols nos.now second_sgr0) }
    {
        let first = mended_by(alloc, entry, size, nos, second_sgr0, 0)?;
        if first.switches_sets() {
            return Ok(first);
        }
        for number in 1..choices(entry, nos) {
            let mended = mended_by(alloc, entry, size, nos, second_sgr0, number)?;
            if mended.switches_sets() {
                return Ok(mended);
            }
        }
        Ok(first)
    }

    /// Whether neither `smacs` nor `rmacs` is at fault.
    fn switches_sets(&self) -> bool
        ensures { result ≡ spec.switches_sets self.now.left.items }
    {
        switch_right(&self.left)
    }
}
