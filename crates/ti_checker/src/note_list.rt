//! The sequences of an entry's strings that the terminal ignores.

ghost use Rattle.std.specs.Prelude.{◌≡◌, ◌++◌, ◌∷◌, [], IfErr, IfOk, OnOk, true};
ghost use Rattle.ti_checker.specs.No.{HasFaulty};
ghost use Rattle.ti_checker.specs.Notes as spec;
ghost use Rattle.ti_rows.specs.Names.{cap_of};

use crate::causes::{Cause, No};
use crate::judgements::tokens_of;
use crate::sends::sent;
use std::alloc::{AllocError, Global};
use ti_caps::{Bytes, Cap, Entry};
use ti_conforms::checked_string;
use ti_rows::{CAPABILITIES, Row};
use vt_states::is_ignored;
use vt_term::{Size, Token};

/// A sequence that the terminal ignores, wholly or in one of its numbers.
#[derive(Debug, Drop)]
pub struct CheckNote {
    /// The capability whose string sends it.
    pub cap: Cap,
    /// The sequence, from its ESC to its final byte.
    pub bytes: Bytes,
}

/// Adds to `notes` a note about `cap` if `token` is ignored.
fn push_ignored(
    alloc: Global,
    cap: Cap,
    token: &Token,
    notes: &mut Vec<CheckNote>,
) -> Result<(), AllocError>
    ensures { OnOk result (notes.new.items ≡ notes.old.items ++ spec.notes_of cap (token.now ∷ [])) }
{
    if is_ignored(token) {
        let bytes = Bytes::from_slice(alloc, token.bytes())?;
        notes.push(CheckNote { cap, bytes })?;
    }
    Ok(())
}

/// Adds to `notes` a note about `cap` for each of the `tokens` that is ignored.
fn push_all_ignored(
    alloc: Global,
    cap: Cap,
    tokens: &[Token],
    notes: &mut Vec<CheckNote>,
) -> Result<(), AllocError>
    ensures { OnOk result (notes.new.items ≡ notes.old.items ++ spec.notes_of cap tokens.now) }
{
    for token in tokens {
        push_ignored(alloc, cap, token, notes)?;
    }
    Ok(())
}

/// The tokens of the bytes that `string` sends for `row`.
fn tokens_sent(alloc: Global, string: &[u8], row: Row) -> Result<Vec<Token>, Cause>
    ensures sends { IfOk result (λ tokens. spec.SendsTokens string.now row tokens.items) }
    ensures unsent { IfErr result (λ cause. spec.SendsNoTokens string.now row cause) }
{
    let bytes = sent(alloc, string, row)?;
    tokens_of(alloc, &bytes)
}

/// Adds to `notes` the notes on `string` for `row`. The error is the string's fault.
fn push_string_notes(
    alloc: Global,
    string: &[u8],
    row: Row,
    notes: &mut Vec<CheckNote>,
) -> Result<(), Cause>
    ensures noted { OnOk result (spec.AddsStringNotes string.now row notes.old.items notes.new.items) }
    ensures unsent { IfErr result (λ cause. spec.SendsNoTokens string.now row cause) }
{
    let tokens = tokens_sent(alloc, string, row)?;
    match push_all_ignored(alloc, row.cap(), &tokens, notes) {
        Ok(()) => Ok(()),
        Err(_) => Err(Cause::NoMemory),
    }
}

/// Adds to `notes` the notes on the capability at `place` in the order of names. The error names the capability: its
/// string sends no whole tokens, or memory ran out.
fn push_notes_at(
    alloc: Global,
    entry: &Entry,
    place: usize,
    notes: &mut Vec<CheckNote>,
) -> Result<(), No>
    ensures noted { OnOk result (spec.AddsNotesAt entry.now place notes.old.items notes.new.items) }
    ensures unsent { IfErr result (λ refusal. spec.IsUnsentAt entry.now place refusal) }
{
    let Some(row) = Row::first(place) else {
        return Ok(());
    };
    match checked_string(entry, row) {
        Some(string) => match push_string_notes(alloc, string, row, notes) {
            Ok(()) => Ok(()),
            Err(cause) => Err(No::at(row, cause)),
        },
        None => Ok(()),
    }
}

/// The sequences of the strings of `entry` that the terminal ignores: for each checked capability, in the byte order of
/// their names and for its first parameter list, the sequences that name no function, and those that set renditions or
/// modes with an unknown number (ECMA-48 8.3.106, 8.3.117, 8.3.125). The first parameter lists are the same for every
/// size.
///
/// # Errors
/// The first capability whose string sends no whole tokens for its first parameter list, with the
/// fault as `check` names it: `Parm`, `StaticRead`, `Unfinished` or `Stuck`; and `NoMemory`.
pub fn notes(alloc: Global, entry: &Entry, size: Size) -> Result<Vec<CheckNote>, No>
    ensures noted { IfOk result (λ notes. spec.EntryNotes entry.now notes.items) }
    ensures refused { IfErr result (HasFaulty entry.now size.rows size.cols) }
    ensures first { IfErr result (λ refusal. spec.IsFirstUnsent entry.now refusal) }
{
    let mut notes = Vec::new(alloc);
    for place in 0..CAPABILITIES {
        push_notes_at(alloc, entry, place, &mut notes)?;
    }
    Ok(notes)
}
