//! Judging a string for a row.

ghost use Rattle.std.specs.Prelude.{◌≡◌, ℕ, List, [], IfErr, IfOk, OnOk, Some};
ghost use Rattle.ti_checker.specs.{First.{SendsAsked}, Limit.{IsLineFor}, Taught.{IsAskedOf, IsTaught}};
ghost use Rattle.ti_checker.specs.No as spec;
ghost use Rattle.ti_conforms.specs.Charsets.{joined, reach_of};
ghost use Rattle.ti_rows.specs.{Asked.{start_of}, Lists.{Follows, IsInRange}};
ghost use Rattle.vt_effects.specs.Record.{IsRecordOf, record_of};
ghost use Rattle.vt_term.specs.{Scanned.{HasFault}, Text.{Splits}};

use crate::causes::Cause;
use crate::mislooks::looks_other;
use crate::sends::sent_into;
use crate::trials::probe_for;
use std::alloc::{AllocError, Global};
use ti_conforms::Reach;
use ti_forms::learn_row;
use ti_rows::{Looks, Row};
use vt_effects::Effect;
use vt_term::{Scanner, Size, TextFault, TextFaultKind, Token, TokenFault, TokenFaultKind, tokens};

/// The fault of `effect`, which must not be the one that is asked for. `taught` has the looks that the rows before
/// teach.
fn misfit(row: Row, taught: Looks, effect: &Effect, size: Size) -> Cause
    requires range { IsInRange size.rows size.cols row }
    requires unasked { IsAskedOf taught row effect.now → ⊥ }
    ensures { spec.IsMisfit size.rows size.cols taught row effect.now result }
{
    if looks_other(row, effect) {
        return Cause::BadLook;
    }
    match probe_for(row, taught, effect, size) {
        Some(probe) => Cause::WrongEffect(probe),
        None => Cause::NotShown,
    }
}

/// The fault of bytes that aren't whole control functions.
fn cause_of(fault: TokenFault) -> Cause
    ensures { result ≡ spec.cause_of fault.kind }
{
    match fault.kind {
        TokenFaultKind::Unfinished => Cause::Unfinished,
        TokenFaultKind::Stuck => Cause::Stuck,
        TokenFaultKind::NoMemory => Cause::NoMemory,
    }
}

/// The tokens of `bytes`, which a string sends.
pub(crate) fn tokens_of(alloc: Global, bytes: &[u8]) -> Result<Vec<Token>, Cause>
    ensures whole { IfOk result (λ found. Splits bytes.now found.items []) }
    ensures fault { IfErr result (λ cause. spec.IsNotWhole bytes.now cause) }
{
    match tokens(alloc, bytes) {
        Ok(found) => Ok(found),
        Err(fault) => Err(cause_of(fault)),
    }
}

/// The fault of a text that isn't whole control functions.
fn not_whole(fault: TextFault) -> Cause
    ensures { (bytes : List ℕ) → HasFault bytes fault → spec.IsNotWhole bytes result }
{
    match fault.kind {
        TextFaultKind::Unfinished => Cause::Unfinished,
        TextFaultKind::Stuck => Cause::Stuck,
    }
}

/// The effect of bytes from the row's start, if they have one.
fn row_effect(
    scanner: &mut Scanner,
    bytes: &[u8],
    row: Row,
    size: Size,
) -> Result<Option<Effect>, Cause>
    ensures record { IfOk result (IsRecordOf size.rows size.cols (start_of size.rows size.cols row) bytes.now) }
    ensures fault { IfErr result (spec.IsNotWhole bytes.now) }
{
    match ti_forms::row_effect(scanner, bytes, row, size) {
        Ok(effect) => Ok(effect),
        Err(fault) => Err(not_whole(fault)),
    }
}

/// Returns the effect `found` if it is the one that `row` asks for. `found` is `None` if the bytes have no single
/// effect; `taught` has the looks from the rows before. The error is the fault of the effect.
#[tactic(auto, using(crate::proofs::Misjudgements::misfit_misjudged))]
fn judged(row: Row, found: Option<Effect>, size: Size, taught: Looks) -> Result<Effect, Cause>
    requires { IsInRange size.rows size.cols row }
    ensures found { IfOk result (λ effect. found ≡ Some effect) }
    ensures asked { IfOk result (IsAskedOf taught row) }
    ensures misjudged { IfErr result (λ cause. (tokens : List (List ℕ))
        → found ≡ record_of size.rows size.cols (start_of size.rows size.cols row) tokens
        → spec.IsMisjudged size.rows size.cols taught row tokens cause) }
{
    let Some(effect) = found else {
        return Err(Cause::NotTame);
    };
    if row.asks_for(taught.learned(row, &effect), &effect) {
        Ok(effect)
    } else {
        Err(misfit(row, taught, &effect, size))
    }
}

/// The memory in which rows are judged, one after another.
#[derive(Drop)]
pub struct Judge {
    /// The bytes that the string of the row judged last sends.
    bytes: Vec<u8>,
    /// Reads those bytes.
    scanner: Scanner,
}

impl Judge {
    /// A judge that has judged no row yet. Fails if memory runs out.
    pub fn new(alloc: Global) -> Result<Judge, AllocError> {
        Ok(Judge {
            bytes: Vec::new(alloc),
            scanner: Scanner::new(alloc)?,
        })
    }

    /// The bytes that the string of the row judged last sends.
    pub fn bytes(&self) -> &[u8]
        ensures { result.now ≡ self.now.bytes.items }
    {
        self.bytes.as_slice()
    }

    /// Adds to `reach` the marks of the sets that the tokens of `row`, the row judged last, turn on.
    pub(crate) fn add_marks(&mut self, row: Row, reach: &mut Reach) -> Result<(), Cause>
        ensures bytes { self.new.bytes.items ≡ self.old.bytes.items }
        ensures learned { OnOk result ((tokens : List (List ℕ)) → Splits self.old.bytes.items tokens []
            → reach.new ≡ joined reach.old (reach_of tokens)) }
        ensures fault { IfErr result (spec.IsNotWhole self.old.bytes.items) }
    {
        match learn_row(reach, &mut self.scanner, &self.bytes, row) {
            Ok(()) => Ok(()),
            Err(fault) => Err(not_whole(fault)),
        }
    }

    /// The effect of the bytes that the entry's `string` sends for `row`. The bytes are kept.
    ///
    /// The rows of a string must be judged one after another, from the first on. `looks` has the looks of attributes
    /// that the rows before this one taught, `NO_LOOKS` at the first; the looks that this one shows are added.
    #[tactic(auto, using(crate::proofs::Misjudgements::taught_next, crate::proofs::Misjudgements::sends_asked))]
    pub fn judge_row(
        &mut self,
        alloc: Global,
        string: &[u8],
        row: Row,
        size: Size,
        looks: &mut Looks,
    ) -> Result<Effect, Cause>
        requires range { IsInRange size.rows size.cols row }
        requires taught { IsTaught size.rows size.cols string.now row looks.now }
        ensures right { IfOk result (λ _. SendsAsked size.rows size.cols string.now row) }
        ensures line { IfOk result (λ effect. IsLineFor size.rows size.cols string.now
            (record { row = row; bytes = self.new.bytes.items; effect = effect })) }
        ensures taught { OnOk result ((next : Row) → Follows size.rows size.cols row next
            → IsTaught size.rows size.cols string.now next looks.new) }
        ensures faulty { IfErr result (λ cause. spec.IsFaulty size.rows size.cols string.now row cause) }
    {
        sent_into(alloc, string, row, &mut self.bytes)?;
        let found = row_effect(&mut self.scanner, &self.bytes, row, size)?;
        let effect = judged(row, found, size, *looks)?;
        *looks = looks.learned(row, &effect);
        Ok(effect)
    }
}
