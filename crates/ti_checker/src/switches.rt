//! The character set that the strings of an entry, all of them together, leave active.

ghost use Rattle.std.specs.Prelude.{◌≡◌, [], IfErr, IfOk, OnOk, is_some};
ghost use Rattle.ti_caps.specs.Entry.{string_at};
ghost use Rattle.ti_cert.specs.{Clashes.{AreClashes}, Known.{with_change}, Seen.{IsFound}};
ghost use Rattle.ti_checker.specs.{First.{EachWritten}, No.{GoTogether, IsFaulty, IsNo, IsToldAs}};
ghost use Rattle.ti_checker.specs.Kept as keeping;
ghost use Rattle.ti_checker.specs.Probes.{screen_of};
ghost use Rattle.ti_checker.specs.Switches as spec;
ghost use Rattle.ti_conforms.specs.{Charsets.{reach_of}, Conforms.{Conforms, IsFit}};
ghost use Rattle.ti_conforms.specs.Entries as entries;
ghost use Rattle.ti_conforms.specs.Table as checked;
ghost use Rattle.ti_rows.specs.{Lists.{IsInRange}, Starts.{IsFree}};
ghost use Rattle.ti_rows.specs.declared.rows.Row.TheVariants as rows;
ghost use Rattle.ti_rows.specs.Names.{capabilities};

use crate::causes::{Cause, No};
use crate::judgements::tokens_of;
use crate::kept::{kept_string, out_of_memory};
use crate::probes::Probe;
use crate::resync::escapes;
use crate::sends::sent;
use std::alloc::{AllocError, Global};
use ti_caps::Entry;
use ti_cert::{AllClashes, Clash, Facts, Resync, all_clashes, first_clash};
use ti_conforms::{Reach, acsc, settles};
use ti_rows::{NO_MARKS, Row};
use vt_effects::{Sets, effect_of};
use vt_term::{Charset, Size, Token};

/// The facts seen of strings: the marks of the charsets that their tokens turn on, and the changes of the charsets by
/// whole strings.
#[derive(Drop)]
pub(crate) struct Seen {
    pub reach: Reach,
    changes: Vec<Sets>,
}

impl Seen {
    /// The facts of no strings.
    pub fn new(alloc: Global) -> Seen
        ensures reach { result.reach ≡ reach_of [] }
        ensures changes { result.changes.items ≡ [] }
    {
        Seen {
            reach: Reach::none(),
            changes: Vec::new(alloc),
        }
    }

    /// Adds `change`, the change of the charsets by the string of `row`, if strings of this row leave settled charsets
    /// settled.
    pub fn add_change(&mut self, row: Row, change: Sets) -> Result<(), AllocError>
        ensures reach { self.new.reach ≡ self.old.reach }
        ensures changes { OnOk result (self.new.changes.items
            ≡ with_change (checked.settles row) self.old.changes.items change) }
    {
        if settles(row) {
            self.changes.push(change)?;
        }
        Ok(())
    }
}

/// The tokens of the bytes that a string sends, and the change of the charsets by them.
#[derive(Drop)]
pub(crate) struct Change {
    pub tokens: Vec<Token>,
    pub change: Sets,
}

/// The change of the charsets by the bytes that `string` sends for `row`. The error is the string's fault.
pub(crate) fn change_by(alloc: Global, string: &[u8], row: Row, size: Size) -> Result<Change, Cause>
    ensures change { IfOk result (λ found. spec.IsChange string.now row found.tokens.items found.change) }
    ensures faulty { IfErr result (λ cause. IsFaulty size.rows size.cols string.now row cause) }
{
    let bytes = sent(alloc, string, row)?;
    let tokens = tokens_of(alloc, &bytes)?;
    match effect_of(&tokens, size, &row.start(size)) {
        Some(effect) => Ok(Change {
            tokens,
            change: effect.charset,
        }),
        None => Err(Cause::NotTame),
    }
}

/// The change of the charsets by the entry's string for `row`; `None` if the row isn't checked, or if one of the
/// refusals `left_out` is about its capability. A row that is neither must stand. Fails if memory runs out.
fn change_of(
    alloc: Global,
    entry: &Entry,
    left_out: &[No],
    row: Row,
    size: Size,
) -> Result<Option<Sets>, AllocError>
    requires stand { keeping.KeptStand entry.now size.rows size.cols (keeping.unnamed left_out.now) }
    requires range { IsInRange size.rows size.cols row }
    ensures { IfOk result (spec.RowChanges entry.now size.rows size.cols (keeping.unnamed left_out.now) row) }
{
    match kept_string(entry, left_out, row) {
        Some(string) => match change_by(alloc, string, row, size) {
            Ok(found) => Ok(Some(found.change)),
            Err(cause) => Err(out_of_memory(cause)),
        },
        None => Ok(None),
    }
}

/// The changes of the charsets by those of the entry's strings that lead out of an unknown state and may change them,
/// without those that the refusals `left_out` are about. The others must stand. Fails if memory runs out.
fn resync_sets(
    alloc: Global,
    entry: &Entry,
    left_out: &[No],
    size: Size,
) -> Result<Resync, AllocError>
    requires { keeping.KeptStand entry.now size.rows size.cols (keeping.unnamed left_out.now) }
    ensures smcup { IfOk result (λ r. spec.RowChanges entry.now size.rows size.cols (keeping.unnamed left_out.now)
        rows.Smcup r.smcup) }
    ensures enacs { IfOk result (λ r. spec.RowChanges entry.now size.rows size.cols (keeping.unnamed left_out.now)
        rows.Enacs r.enacs) }
    ensures sgr0 { IfOk result (λ r. spec.RowChanges entry.now size.rows size.cols (keeping.unnamed left_out.now)
        rows.Sgr0 r.sgr0) }
    ensures rmacs { IfOk result (λ r. spec.RowChanges entry.now size.rows size.cols (keeping.unnamed left_out.now)
        rows.Rmacs r.rmacs) }
{
    Ok(Resync {
        smcup: change_of(alloc, entry, left_out, Row::Smcup, size)?,
        enacs: change_of(alloc, entry, left_out, Row::Enacs, size)?,
        sgr0: change_of(alloc, entry, left_out, Row::Sgr0, size)?,
        rmacs: change_of(alloc, entry, left_out, Row::Rmacs, size)?,
    })
}

/// A start of `smacs` and `rmacs` with the charset `charset`.
pub(crate) fn probe_with(charset: Charset, size: Size) -> Probe
    ensures charset { result.charset ≡ charset }
    ensures free { IsFree size.rows size.cols (screen_of size.rows size.cols result) }
{
    Probe {
        row: 0,
        col: 0,
        pending: false,
        top: 0,
        bottom: (size.rows - 1) as u16,
        charset,
        look: NO_MARKS,
        foreground: None,
        background: None,
        visible: true,
        fill: b'x',
    }
}

/// The no that names `clash`.
fn no_of(clash: Clash, size: Size) -> No
    ensures { IsToldAs size.rows size.cols result clash }
{
    match clash {
        Clash::Smacs(charset) => {
            No::at(Row::Smacs, Cause::WrongEffect(probe_with(charset, size)))
        }
        Clash::Rmacs(charset) => {
            No::at(Row::Rmacs, Cause::WrongEffect(probe_with(charset, size)))
        }
        Clash::Acsc => No::of(acsc(), Cause::BadLook),
        Clash::Clear => No::of(Row::Clear.cap(), Cause::NoResync),
    }
}

/// Whether the entry has pairs of alternate characters.
fn has_pairs(entry: &Entry) -> bool
    ensures { result ≡ is_some (string_at entry.now entries.acsc) }
{
    entry.get_string(acsc()).is_some()
}

/// The facts by which the strings of `entry` are judged together, without those that the refusals `left_out` are about.
/// Each of the others must be right by itself, and `seen` must have the facts of all of them. Fails if memory runs out.
fn together_of<'s>(
    alloc: Global,
    entry: &Entry,
    left_out: &[No],
    size: Size,
    seen: &'s Seen,
) -> Result<Facts<'s>, AllocError>
    requires stand { keeping.KeptStand entry.now size.rows size.cols (keeping.unnamed left_out.now) }
    requires seen { spec.IsSeen entry.now size.rows size.cols (keeping.unnamed left_out.now) seen.now.reach
        seen.now.changes.items capabilities 0 }
    ensures found { IfOk result (λ all. keeping.OfAllKept entry.now size.rows size.cols
        (keeping.unnamed left_out.now) (λ t. IsFound t all.reach all.changes.now all.resync all.smacs all.escapes)) }
    ensures pairs { IfOk result (λ all. all.has_acsc ≡ is_some (string_at entry.now entries.acsc)) }
{
    let resync = resync_sets(alloc, entry, left_out, size)?;
    let smacs = change_of(alloc, entry, left_out, Row::Smacs, size)?;
    let begins = escapes(alloc, entry, left_out, size)?;
    Ok(Facts {
        reach: seen.reach,
        changes: &seen.changes,
        resync,
        smacs,
        has_acsc: has_pairs(entry),
        escapes: begins,
    })
}

/// Checks the strings of `entry` against each other, as an audit of their lines does. Each string must be right by
/// itself, and `seen` must have the facts of all of them. The error is the refusal that names the first clash, or out
/// of memory.
#[tactic(auto, using(crate::proofs::Together::memory_no))]
pub(crate) fn check_together(
    alloc: Global,
    entry: &Entry,
    size: Size,
    seen: &Seen,
) -> Result<(), No>
    requires fit { IsFit entry.now }
    requires written { EachWritten entry.now size.rows size.cols }
    requires seen { spec.IsSeen entry.now size.rows size.cols keeping.every seen.now.reach seen.now.changes.items
        capabilities 0 }
    ensures right { OnOk result (GoTogether entry.now size.rows size.cols) }
    ensures conforms { OnOk result (Conforms entry.now size.rows size.cols) }
    ensures refused { IfErr result (IsNo entry.now size.rows size.cols) }
{
    let all = together_of(alloc, entry, &[], size, seen)?;
    match first_clash(all) {
        Ok(_) => Ok(()),
        Err(clash) => Err(no_of(clash, size)),
    }
}

/// The clashes of the strings of `entry`, without those that the refusals `left_out` are about. Each of the others must
/// be right by itself, and `seen` must have the facts of all of them. Fails if memory runs out.
pub(crate) fn clashes_together(
    alloc: Global,
    entry: &Entry,
    left_out: &[No],
    size: Size,
    seen: &Seen,
) -> Result<AllClashes, AllocError>
    requires stand { keeping.KeptStand entry.now size.rows size.cols (keeping.unnamed left_out.now) }
    requires seen { spec.IsSeen entry.now size.rows size.cols (keeping.unnamed left_out.now) seen.now.reach
        seen.now.changes.items capabilities 0 }
    ensures { IfOk result (λ all. keeping.OfAllKept entry.now size.rows size.cols (keeping.unnamed left_out.now)
        (λ t. AreClashes (is_some (string_at entry.now entries.acsc)) t all)) }
{
    let all = together_of(alloc, entry, left_out, size, seen)?;
    Ok(all_clashes(all))
}
