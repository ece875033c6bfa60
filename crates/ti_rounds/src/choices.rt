//! Choosing the remedies that are to be taken together. Nothing is promised about the choice: it is judged when it is
//! taken.

ghost use Rattle.std.specs.List.{AllByRecursion};
ghost use Rattle.std.specs.Prelude.{IfOk};
ghost use Rattle.ti_steps.specs.Remedies.{Fits};
ghost use Rattle.ti_source.specs.Raw.{IsRaw};

use crate::boards::{Board, Pick, find_both};
use std::alloc::{AllocError, Global};
use ti_resolve::Index;
use ti_steps::{Adviser, Finding, Judged, Remedy, allows, is_earned, is_no_worse, is_whole};

/// Something that allocates, unless memory ran out.
type Done = Result<(), AllocError>;

/// How often a list of remedies is made smaller before it is given up.
const TRIES: usize = 200;

/// The findings about an entry before and after.
#[derive(Clone, Copy)]
struct Both<'a> {
    old: &'a [Finding],
    new: &'a [Finding],
}

/// Makes known what is found about the entry at `place`.
fn know<A: Adviser>(alloc: Global, adviser: &A, board: &mut Board, place: usize) -> Done {
    if place < board.cases.len() {
        find_both(
            alloc,
            adviser,
            &mut board.cases[place],
            board.slots.as_slice(),
        )?;
    }
    Ok(())
}

/// The things known of the entry at `place`.
fn known(board: &Board, place: usize) -> Both<'_> {
    if place >= board.cases.len() {
        return Both { old: &[], new: &[] };
    }
    match (&board.cases[place].old, &board.cases[place].new) {
        (Some(old), Some(new)) => Both {
            old: old.as_slice(),
            new: new.as_slice(),
        },
        (None, _) => Both { old: &[], new: &[] },
        (Some(_), None) => Both { old: &[], new: &[] },
    }
}

/// Whether the remedy is of use with all that is chosen.
fn is_of_use<A: Adviser>(alloc: Global, adviser: &A, board: &mut Board, one: &Remedy) -> Judged {
    know(alloc, adviser, board, one.root)?;
    let both = known(board, one.root);
    Ok(is_earned(both.old, both.new, one))
}

/// The remedies that want what is chosen for a field.
fn wanting(board: &Board, slot: usize) -> &[usize] {
    if slot >= board.slots.len() {
        return &[];
    }
    match board.slots[slot].chosen {
        Some(chosen) => match board.slots[slot].choices.get(chosen) {
            Some(choice) => choice.remedies.as_slice(),
            None => &[],
        },
        None => &[],
    }
}

/// The remedy at this place of those that want what is chosen for a field.
fn wanting_at(board: &Board, slot: usize, at: usize) -> usize {
    match wanting(board, slot).get(at) {
        Some(place) => *place,
        None => usize::MAX,
    }
}

/// Whether the entry at `place` may change for a remedy, which is of use.
fn lets<A: Adviser>(
    alloc: Global,
    adviser: &A,
    board: &mut Board,
    one: &Remedy,
    place: usize,
) -> Judged {
    let permitted = {
        let both = known(board, place);
        allows(both.old, is_whole(both.new), one)
    };
    if permitted {
        is_of_use(alloc, adviser, board, one)
    } else {
        Ok(false)
    }
}

/// Whether the entry at `place` may change by what is chosen for a field.
fn may_change<A: Adviser>(
    alloc: Global,
    adviser: &A,
    board: &mut Board,
    remedies: &[Remedy],
    slot: usize,
    place: usize,
) -> Judged {
    for at in 0..wanting(board, slot).len() {
        let own = wanting_at(board, slot, at);
        if own < remedies.len() && lets(alloc, adviser, board, &remedies[own], place)? {
            return Ok(true);
        }
    }
    Ok(false)
}

/// Whether the choice for a field is still tried.
fn is_tried(board: &Board, slot: usize) -> bool {
    slot < board.slots.len() && board.slots[slot].tried
}

/// The field at this place of those that give the entry at `place` values.
fn slot_at(board: &Board, place: usize, at: usize) -> usize {
    if place >= board.cases.len() {
        return usize::MAX;
    }
    match board.cases[place].slots.get(at) {
        Some(slot) => *slot,
        None => usize::MAX,
    }
}

/// How many fields give the entry at `place` values.
fn count_at(board: &Board, place: usize) -> usize {
    if place >= board.cases.len() {
        0
    } else {
        board.cases[place].slots.len()
    }
}

/// Whether the entry at `place` is harmed by what is chosen for a field: it has a fault that it hadn't, or may not
/// change by this field, or by one that isn't tried.
fn is_harmed<A: Adviser>(
    alloc: Global,
    adviser: &A,
    board: &mut Board,
    remedies: &[Remedy],
    slot: usize,
    place: usize,
) -> Judged {
    know(alloc, adviser, board, place)?;
    let worse = {
        let both = known(board, place);
        !is_no_worse(both.old, both.new)
    };
    if worse {
        return Ok(true);
    }
    for at in 0..count_at(board, place) {
        let own = slot_at(board, place, at);
        if (own == slot || !is_tried(board, own))
            && !wanting(board, own).is_empty()
            && !may_change(alloc, adviser, board, remedies, own, place)?
        {
            return Ok(true);
        }
    }
    Ok(false)
}

/// The entry at this place of the users of a field.
fn user_at(board: &Board, slot: usize, at: usize) -> usize {
    if slot >= board.slots.len() {
        return usize::MAX;
    }
    match board.slots[slot].users.get(at) {
        Some(place) => *place,
        None => usize::MAX,
    }
}

/// How many users a field has.
fn users_of(board: &Board, slot: usize) -> usize {
    if slot >= board.slots.len() {
        0
    } else {
        board.slots[slot].users.len()
    }
}

/// Remembers the entry that a field harms.
fn remember(board: &mut Board, slot: usize, place: usize) {
    if slot < board.slots.len() {
        board.slots[slot].harmed = Some(place);
    }
}

/// Whether the entry that the field harmed before is harmed again.
fn harms_again<A: Adviser>(
    alloc: Global,
    adviser: &A,
    board: &mut Board,
    remedies: &[Remedy],
    slot: usize,
) -> Judged {
    if slot >= board.slots.len() {
        return Ok(true);
    }
    match board.slots[slot].harmed {
        Some(place) => is_harmed(alloc, adviser, board, remedies, slot, place),
        None => Ok(false),
    }
}

/// Whether an entry is harmed by what is chosen for a field.
fn harms<A: Adviser>(
    alloc: Global,
    adviser: &A,
    board: &mut Board,
    remedies: &[Remedy],
    slot: usize,
) -> Judged {
    for at in 0..users_of(board, slot) {
        let place = user_at(board, slot, at);
        if is_harmed(alloc, adviser, board, remedies, slot, place)? {
            remember(board, slot, place);
            return Ok(true);
        }
    }
    Ok(false)
}

/// Whether one of the remedies that want what is chosen for a field is of use.
fn has_use<A: Adviser>(
    alloc: Global,
    adviser: &A,
    board: &mut Board,
    remedies: &[Remedy],
    slot: usize,
) -> Judged {
    for at in 0..wanting(board, slot).len() {
        let own = wanting_at(board, slot, at);
        if own < remedies.len() && is_of_use(alloc, adviser, board, &remedies[own])? {
            return Ok(true);
        }
    }
    Ok(false)
}

/// Forgets what was found with another choice about the users of a field.
fn forget(board: &mut Board, slot: usize) {
    for at in 0..users_of(board, slot) {
        let place = user_at(board, slot, at);
        if place < board.cases.len() {
            board.cases[place].new = None;
        }
    }
}

/// Chooses a string for a field, which is tried then, or none.
fn choose(board: &mut Board, slot: usize, chosen: Option<usize>) {
    if slot < board.slots.len() {
        board.slots[slot].chosen = chosen;
        board.slots[slot].tried = chosen.is_some();
        forget(board, slot);
    }
}

/// Which test the fields are put to.
#[derive(Clone, Copy)]
enum Test {
    /// Against the entries that they harmed before.
    Quick,
    /// Against all entries, and for their use.
    Whole,
}

/// Whether what is chosen for a field fails the test.
fn fails<A: Adviser>(
    alloc: Global,
    adviser: &A,
    board: &mut Board,
    remedies: &[Remedy],
    slot: usize,
    test: Test,
) -> Judged {
    match test {
        Test::Quick => harms_again(alloc, adviser, board, remedies, slot),
        Test::Whole => {
            if has_use(alloc, adviser, board, remedies, slot)? {
                harms(alloc, adviser, board, remedies, slot)
            } else {
                Ok(true)
            }
        }
    }
}

/// The fields that pass the test; for the others nothing is chosen any more.
fn passing<A: Adviser>(
    alloc: Global,
    adviser: &A,
    board: &mut Board,
    remedies: &[Remedy],
    picks: &[Pick],
    test: Test,
) -> Result<Vec<Pick>, AllocError> {
    let mut good = Vec::new(alloc);
    let mut bad: Vec<Pick> = Vec::new(alloc);
    for pick in picks {
        if fails(alloc, adviser, board, remedies, pick.slot, test)? {
            bad.push(*pick)?;
        } else {
            good.push(*pick)?;
        }
    }
    for pick in bad.as_slice() {
        choose(board, pick.slot, None);
    }
    Ok(good)
}

/// Strings for those of the fields for which nothing is chosen yet, each field once.
fn chosen_of(alloc: Global, board: &mut Board, picks: &[Pick]) -> Result<Vec<Pick>, AllocError> {
    let mut own = Vec::new(alloc);
    for pick in picks {
        if pick.slot < board.slots.len() && board.slots[pick.slot].chosen.is_none() {
            choose(board, pick.slot, Some(pick.choice));
            own.push(*pick)?;
        }
    }
    Ok(own)
}

/// Ends the trial of these fields: what is chosen for them stays.
fn settle(board: &mut Board, picks: &[Pick]) {
    for pick in picks {
        if pick.slot < board.slots.len() {
            board.slots[pick.slot].tried = false;
        }
    }
}

/// Tries to choose these beside what is chosen, and leaves out those that can't be.
fn attempt<A: Adviser>(
    alloc: Global,
    adviser: &A,
    board: &mut Board,
    remedies: &[Remedy],
    picks: &[Pick],
) -> Done {
    let mut own = chosen_of(alloc, board, picks)?;
    for _round in 0..TRIES {
        if own.is_empty() {
            return Ok(());
        }
        let count = own.len();
        own = passing(alloc, adviser, board, remedies, own.as_slice(), Test::Quick)?;
        if own.len() == count {
            own = passing(alloc, adviser, board, remedies, own.as_slice(), Test::Whole)?;
            if own.len() == count {
                settle(board, own.as_slice());
                return Ok(());
            }
        }
    }
    for pick in own.as_slice() {
        choose(board, pick.slot, None);
    }
    Ok(())
}

/// The picks of the remedies from one place of the list up to another, but for those that change one of the entries
/// `left`.
fn picks_between(
    alloc: Global,
    board: &Board,
    remedies: &[Remedy],
    from: usize,
    to: usize,
    left: &[usize],
) -> Result<Vec<Pick>, AllocError> {
    let mut picks = Vec::new(alloc);
    for at in from..to {
        if at < remedies.len() && at < board.picks.len() {
            let place = remedies[at].change.place;
            if !left.iter().any(|own| *own == place) {
                picks.push(board.picks[at])?;
            }
        }
    }
    Ok(picks)
}

/// Whether the pick was tried by itself, and not chosen.
fn has_failed(board: &Board, pick: Pick) -> bool {
    if pick.slot >= board.slots.len() {
        return true;
    }
    match board.slots[pick.slot].choices.get(pick.choice) {
        Some(choice) => choice.failed,
        None => true,
    }
}

/// Whether a string is chosen for the pick's field.
fn is_chosen(board: &Board, pick: Pick) -> bool {
    pick.slot < board.slots.len() && board.slots[pick.slot].chosen == Some(pick.choice)
}

/// Remembers that the pick isn't chosen by itself.
fn fail(board: &mut Board, pick: Pick) {
    if pick.slot < board.slots.len() && pick.choice < board.slots[pick.slot].choices.len() {
        board.slots[pick.slot].choices[pick.choice].failed = true;
    }
}

/// Tries to choose the pick by itself beside what is chosen, unless that failed before.
fn attempt_one<A: Adviser>(
    alloc: Global,
    adviser: &A,
    board: &mut Board,
    remedies: &[Remedy],
    pick: Pick,
) -> Done {
    if is_chosen(board, pick) || has_failed(board, pick) {
        return Ok(());
    }
    attempt(alloc, adviser, board, remedies, &[pick])?;
    if !is_chosen(board, pick) {
        fail(board, pick);
    }
    Ok(())
}

/// Tries to choose these together beside what is chosen, and then each by itself.
fn attempt_group<A: Adviser>(
    alloc: Global,
    adviser: &A,
    board: &mut Board,
    remedies: &[Remedy],
    picks: &[Pick],
) -> Done {
    if picks.len() > 1 {
        attempt(alloc, adviser, board, remedies, picks)?;
    }
    for pick in picks {
        attempt_one(alloc, adviser, board, remedies, *pick)?;
    }
    Ok(())
}

/// The place behind the last of the remedies that are for one entry, from this place on.
fn end_of_group(remedies: &[Remedy], from: usize) -> usize {
    if from >= remedies.len() {
        return remedies.len();
    }
    let root = remedies[from].root;
    for at in from..remedies.len() {
        if remedies[at].root != root {
            return at;
        }
    }
    remedies.len()
}

/// Tries to choose the remedies of each entry together.
fn attempt_groups<A: Adviser>(
    alloc: Global,
    adviser: &A,
    board: &mut Board,
    remedies: &[Remedy],
    left: &[usize],
) -> Done {
    let mut from = 0;
    for _entry in 0..remedies.len() {
        if from < remedies.len() {
            let to = end_of_group(remedies, from);
            let picks = picks_between(alloc, board, remedies, from, to, left)?;
            attempt_group(alloc, adviser, board, remedies, picks.as_slice())?;
            from = to;
        }
    }
    Ok(())
}

/// Whether the remedy at this place of the list is to be taken.
fn is_wanted<A: Adviser>(
    alloc: Global,
    adviser: &A,
    board: &mut Board,
    one: &Remedy,
    at: usize,
) -> Judged {
    if at >= board.picks.len() || !is_chosen(board, board.picks[at]) {
        return Ok(false);
    }
    is_of_use(alloc, adviser, board, one)
}

/// Copies of the remedies that are chosen and of use.
fn chosen_ones<A: Adviser>(
    alloc: Global,
    adviser: &A,
    board: &mut Board,
    remedies: &[Remedy],
) -> Result<Vec<Remedy>, AllocError>
    requires { AllByRecursion Fits remedies.now }
    ensures { IfOk result (λ taken. AllByRecursion Fits taken.items) }
{
    let mut taken = Vec::new(alloc);
    for at in 0..remedies.len() {
        if is_wanted(alloc, adviser, board, &remedies[at], at)? {
            let own = remedies[at].try_copy()?;
            taken.push(own)?;
        }
    }
    Ok(taken)
}

/// Remedies that may be taken together, of those that change none of the entries `left`: as many as were found.
///
/// # Errors
/// Out of memory.
pub fn choose_together<A: Adviser>(
    alloc: Global,
    adviser: &A,
    index: &Index<'_>,
    remedies: &[Remedy],
    left: &[usize],
) -> Result<Vec<Remedy>, AllocError>
    requires fit { AllByRecursion IsRaw index.now.raws.now }
    requires fits { AllByRecursion Fits remedies.now }
    ensures { IfOk result (λ taken. AllByRecursion Fits taken.items) }
{
    let mut board = Board::new(alloc, index, remedies)?;
    let picks = picks_between(alloc, &board, remedies, 0, remedies.len(), left)?;
    attempt(alloc, adviser, &mut board, remedies, picks.as_slice())?;
    attempt_groups(alloc, adviser, &mut board, remedies, left)?;
    chosen_ones(alloc, adviser, &mut board, remedies)
}
