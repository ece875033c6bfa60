//! Mending files in rounds, each of which takes what it can of what is advised for the files then.

ghost use Rattle.std.specs.Prelude.{◌≡◌, IfOk, IfSome, length, map};
ghost use Rattle.std.specs.List.{AllByRecursion};
ghost use Rattle.ti_fixes.specs.Files.{all_raws, sheets};
ghost use Rattle.ti_steps.specs.Mended as spec;
ghost use Rattle.ti_steps.specs.Reasons.{IsKept, IsReason};
ghost use Rattle.ti_steps.specs.Remedies.{Fits};
ghost use Rattle.ti_steps.specs.Steps.{AreSteps, Takes};
ghost use Rattle.ti_source.specs.Raw.{IsRaw};

use crate::boards::Board;
use crate::choices::choose_together;
use std::alloc::{AllocError, Global};
use ti_fixes::Texts;
use ti_resolve::Index;
use ti_source::RawEntry;
use ti_steps::{
    Adviser, Kept, Reason, Remedy, Step, Wanted, harm_at, remedies_for, take_step, use_of,
};

/// The most rounds.
const ROUNDS: usize = 100;

/// Mended files.
#[derive(Drop)]
pub struct Remedied {
    /// The files, and their entries.
    pub texts: Texts,
    /// The suggestions that are left for them, and why they aren't taken.
    pub kept: Vec<Kept>,
    /// Whether nothing more was found that may be taken; else the limit of rounds was met.
    pub is_ended: bool,
}

/// Files after some rounds.
#[derive(Drop)]
struct Rounds {
    texts: Texts,
    is_ended: bool,
}

/// Takes what may be taken of what is advised for the files, but for what changes one of the entries `left`.
fn round<A: Adviser>(
    alloc: Global,
    adviser: &A,
    texts: &Texts,
    wanted: Wanted,
    left: &[usize],
) -> Result<Step, AllocError>
    requires whole { texts.now.raws.items ≡ all_raws (sheets texts.now.files.items) }
    requires fit { AllByRecursion IsRaw texts.now.raws.items }
    requires there { spec.Fits (length texts.now.raws.items) wanted }
    ensures { IfOk result (Takes (A.finds adviser.now) (sheets texts.now.files.items)) }
{
    let remedies = remedies_for(alloc, adviser, texts.raws.as_slice(), wanted)?;
    let taken = {
        let index = Index::new(alloc, texts.raws.as_slice())?;
        choose_together(alloc, adviser, &index, remedies.as_slice(), left)?
    };
    if taken.is_empty() {
        return Ok(Step::Ended);
    }
    take_step(alloc, adviser, texts, taken.as_slice())
}

/// The files after as many rounds as it takes.
fn after_rounds<A: Adviser>(
    alloc: Global,
    adviser: &A,
    source: Texts,
    wanted: Wanted,
) -> Result<Rounds, AllocError>
    requires whole { source.raws.items ≡ all_raws (sheets source.files.items) }
    requires fit { AllByRecursion IsRaw source.raws.items }
    requires there { spec.Fits (length source.raws.items) wanted }
    ensures steps { IfOk result
        (λ done. AreSteps (A.finds adviser.now) (sheets source.files.items) (sheets done.texts.files.items)) }
    ensures whole { IfOk result (λ done. done.texts.raws.items ≡ all_raws (sheets done.texts.files.items)) }
    ensures fit { IfOk result (λ done. AllByRecursion IsRaw done.texts.raws.items) }
    ensures as_many { IfOk result (λ done. length done.texts.raws.items ≡ length source.raws.items) }
{
    let mut texts = source;
    let mut left: Vec<usize> = Vec::new(alloc);
    for _round in 0..ROUNDS {
        match round(alloc, adviser, &texts, wanted, left.as_slice())? {
            Step::Done(next) => texts = next,
            Step::Unplaced(place) => left.push(place)?,
            Step::Unfair => {
                return Ok(Rounds {
                    texts,
                    is_ended: false,
                });
            }
            Step::Ended => {
                return Ok(Rounds {
                    texts,
                    is_ended: true,
                });
            }
        }
    }
    Ok(Rounds {
        texts,
        is_ended: false,
    })
}

/// The entries that have a value from the field of the remedy at this place of their list.
fn users_of(board: &Board, at: usize) -> &[usize] {
    if at < board.picks.len() {
        let slot = board.picks[at].slot;
        if slot < board.slots.len() {
            return board.slots[slot].users.as_slice();
        }
    }
    &[]
}

/// The entry that another remedy for the field of the remedy at this place of their list harms.
fn harmed_by(board: &Board, at: usize) -> Option<usize> {
    if at < board.picks.len() {
        let slot = board.picks[at].slot;
        if slot < board.slots.len() {
            return board.slots[slot].harmed;
        }
    }
    None
}

/// Whether there is a reason, and it is that an entry would lose its yes.
fn is_loss(found: &Option<Reason>) -> bool {
    match found {
        Some(Reason::Loses(_)) => true,
        Some(Reason::Unplaced) => false,
        Some(Reason::Changes(_)) => false,
        Some(Reason::Faults(_, _)) => false,
        Some(Reason::Refused) => false,
        None => false,
    }
}

/// A reason that may be found.
type Harm = Result<Option<Reason>, AllocError>;

/// Why the remedy isn't taken, if the entry at `place` would lose its yes.
fn loss_at<A: Adviser>(
    alloc: Global,
    adviser: &A,
    index: &Index<'_>,
    one: &Remedy,
    place: usize,
) -> Harm
    requires fit { AllByRecursion IsRaw index.now.raws.now }
    requires fits { Fits one.now }
    ensures { IfOk result (λ found. IfSome found (IsReason (A.finds adviser.now) index.now.raws.now one.now)) }
{
    let found = harm_at(alloc, adviser, index, one, place)?;
    if is_loss(&found) { Ok(found) } else { Ok(None) }
}

/// Why the remedy isn't taken, if one of the entries at these places would lose its yes.
fn first_loss<A: Adviser>(
    alloc: Global,
    adviser: &A,
    index: &Index<'_>,
    one: &Remedy,
    users: &[usize],
) -> Harm
    requires fit { AllByRecursion IsRaw index.now.raws.now }
    requires fits { Fits one.now }
    ensures { IfOk result (λ found. IfSome found (IsReason (A.finds adviser.now) index.now.raws.now one.now)) }
{
    for place in users {
        let found = loss_at(alloc, adviser, index, one, *place)?;
        if found.is_some() {
            return Ok(found);
        }
    }
    Ok(None)
}

/// Why the remedy isn't taken, if it harms one of the entries at these places.
fn first_harm<A: Adviser>(
    alloc: Global,
    adviser: &A,
    index: &Index<'_>,
    one: &Remedy,
    users: &[usize],
) -> Harm
    requires fit { AllByRecursion IsRaw index.now.raws.now }
    requires fits { Fits one.now }
    ensures { IfOk result (λ found. IfSome found (IsReason (A.finds adviser.now) index.now.raws.now one.now)) }
{
    for place in users {
        let found = harm_at(alloc, adviser, index, one, *place)?;
        if found.is_some() {
            return Ok(found);
        }
    }
    Ok(None)
}

/// Why the remedy isn't taken, by the entry that another one for its field harms.
fn known_harm<A: Adviser>(
    alloc: Global,
    adviser: &A,
    index: &Index<'_>,
    one: &Remedy,
    harmed: Option<usize>,
) -> Harm
    requires fit { AllByRecursion IsRaw index.now.raws.now }
    requires fits { Fits one.now }
    ensures { IfOk result (λ found. IfSome found (IsReason (A.finds adviser.now) index.now.raws.now one.now)) }
{
    match harmed {
        Some(place) => harm_at(alloc, adviser, index, one, place),
        None => Ok(None),
    }
}

/// Why the remedy isn't taken: it harms an entry that another one for its field harms, or one of the entries at these
/// places, or is of no use.
fn reason_for<A: Adviser>(
    alloc: Global,
    adviser: &A,
    index: &Index<'_>,
    one: &Remedy,
    harmed: Option<usize>,
    users: &[usize],
) -> Result<Reason, AllocError>
    requires fit { AllByRecursion IsRaw index.now.raws.now }
    requires fits { Fits one.now }
    ensures { IfOk result (IsReason (A.finds adviser.now) index.now.raws.now one.now) }
{
    if let Some(reason) = known_harm(alloc, adviser, index, one, harmed)? {
        return Ok(reason);
    }
    if let Some(reason) = first_loss(alloc, adviser, index, one, users)? {
        return Ok(reason);
    }
    if let Some(reason) = first_harm(alloc, adviser, index, one, users)? {
        return Ok(reason);
    }
    use_of(alloc, adviser, index, one)
}

/// The entry that a reason names.
fn place_in(reason: Reason) -> Option<usize> {
    match reason {
        Reason::Unplaced => None,
        Reason::Changes(place) => Some(place),
        Reason::Faults(place, _) => Some(place),
        Reason::Loses(place) => Some(place),
        Reason::Refused => None,
    }
}

/// Remembers the entry that the remedy at this place of their list harms.
fn remember(board: &mut Board, at: usize, reason: Reason) {
    if at < board.picks.len() {
        let slot = board.picks[at].slot;
        if slot < board.slots.len() {
            if let Some(place) = place_in(reason) {
                board.slots[slot].harmed = Some(place);
            }
        }
    }
}

/// Each of the remedies, and why it isn't taken.
fn all_reasons<A: Adviser>(
    alloc: Global,
    adviser: &A,
    index: &Index<'_>,
    remedies: &[Remedy],
) -> Result<Vec<Kept>, AllocError>
    requires fit { AllByRecursion IsRaw index.now.raws.now }
    requires fits { AllByRecursion Fits remedies.now }
    ensures all { IfOk result (λ kept. map (λ one. one.remedy) kept.items ≡ remedies.now) }
    ensures reasons { IfOk result
        (λ kept. AllByRecursion (IsKept (A.finds adviser.now) index.now.raws.now) kept.items) }
{
    let mut board = Board::new(alloc, index, remedies)?;
    let mut kept = Vec::new(alloc);
    for at in 0..remedies.len() {
        let one = kept_one(alloc, adviser, index, &remedies[at], (&board, at))?;
        remember(&mut board, at, one.reason);
        kept.push(one)?;
    }
    Ok(kept)
}

/// The remedy, and why it isn't taken.
fn kept_one<A: Adviser>(
    alloc: Global,
    adviser: &A,
    index: &Index<'_>,
    one: &Remedy,
    on: (&Board, usize),
) -> Result<Kept, AllocError>
    requires fit { AllByRecursion IsRaw index.now.raws.now }
    requires fits { Fits one.now }
    ensures same { IfOk result (λ kept. kept.remedy ≡ one.now) }
    ensures reason { IfOk result (IsKept (A.finds adviser.now) index.now.raws.now) }
{
    let (board, at) = on;
    let reason = reason_for(
        alloc,
        adviser,
        index,
        one,
        harmed_by(board, at),
        users_of(board, at),
    )?;
    let remedy = one.try_copy()?;
    Ok(Kept { remedy, reason })
}

/// The suggestions that are left for the `wanted` entries, and why they aren't taken.
fn all_kept<A: Adviser>(
    alloc: Global,
    adviser: &A,
    raws: &[RawEntry],
    wanted: Wanted,
) -> Result<Vec<Kept>, AllocError>
    requires fit { AllByRecursion IsRaw raws.now }
    requires there { spec.Fits (length raws.now) wanted }
    ensures advised { IfOk result (λ kept. spec.AreWanted (A.advises adviser.now) raws.now wanted
        (map (λ one. one.remedy) kept.items)) }
    ensures reasons { IfOk result (λ kept. AllByRecursion (IsKept (A.finds adviser.now) raws.now) kept.items) }
{
    let remedies = remedies_for(alloc, adviser, raws, wanted)?;
    let index = Index::new(alloc, raws)?;
    all_reasons(alloc, adviser, &index, remedies.as_slice())
}

/// The files of `source` with what is advised for the `wanted` entries, as far as it may be taken: in steps, each of
/// which is fair to every entry, as no value changes but those at fault and no entry has a fault that it hadn't, and of
/// which each remedy is of use to an entry. The rest is kept, for a reason.
///
/// # Errors
/// Out of memory.
pub fn mend_all<A: Adviser>(
    alloc: Global,
    adviser: &A,
    source: Texts,
    wanted: Wanted,
) -> Result<Remedied, AllocError>
    requires whole { source.raws.items ≡ all_raws (sheets source.files.items) }
    requires fit { AllByRecursion IsRaw source.raws.items }
    requires there { spec.Fits (length source.raws.items) wanted }
    ensures mended { IfOk result (λ done. spec.AreMended (A.finds adviser.now) (A.advises adviser.now)
        (sheets source.files.items) wanted (sheets done.texts.files.items) done.kept.items) }
    ensures whole { IfOk result (λ done. done.texts.raws.items ≡ all_raws (sheets done.texts.files.items)) }
    ensures fit { IfOk result (λ done. AllByRecursion IsRaw done.texts.raws.items) }
    ensures as_many { IfOk result (λ done. length done.texts.raws.items ≡ length source.raws.items) }
{
    let Rounds { texts, is_ended } = after_rounds(alloc, adviser, source, wanted)?;
    let kept = all_kept(alloc, adviser, texts.raws.as_slice(), wanted)?;
    Ok(Remedied {
        texts,
        kept,
        is_ended,
    })
}
