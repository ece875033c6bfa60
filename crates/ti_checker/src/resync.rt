//! The bytes that lead a terminal out of an unknown state.

ghost use Rattle.std.specs.Prelude.{◌≡◌, ◌∷◌, ℕ, List, IfOk, false, true};
ghost use Rattle.ti_cert.specs.Clashes.{BeginsOpen};
ghost use Rattle.ti_checker.specs.Kept as keeping;
ghost use Rattle.ti_checker.specs.Resync as spec;
ghost use Rattle.ti_rows.specs.Lists.{IsInRange};

use crate::causes::No;
use crate::kept::{kept_string, out_of_memory};
use crate::sends::sent;
use std::alloc::{AllocError, Global};
use ti_caps::Entry;
use ti_conforms::resync_rows;
use ti_rows::Row;
use vt_term::Size;

/// The bytes that `entry` sends for `row`; none if the row isn't checked, or if one of the refusals `left_out` is about
/// its capability. A row that is neither must stand. Fails if memory runs out.
fn sent_for(
    alloc: Global,
    entry: &Entry,
    left_out: &[No],
    row: Row,
    size: Size,
) -> Result<Vec<u8>, AllocError>
    requires stand { keeping.KeptStand entry.now size.rows size.cols (keeping.unnamed left_out.now) }
    requires range { IsInRange size.rows size.cols row }
    ensures { IfOk result (λ bytes. spec.IsPart entry.now (keeping.unnamed left_out.now) row bytes.items) }
{
    match kept_string(entry, left_out, row) {
        Some(string) => match sent(alloc, string, row) {
            Ok(bytes) => Ok(bytes),
            Err(cause) => Err(out_of_memory(cause)),
        },
        None => Ok(Vec::new(alloc)),
    }
}

/// The bytes that `entry` sends for `rows`, one after another, without those of capabilities that the refusals
/// `left_out` are about. The others must stand. Fails if memory runs out.
fn sent_for_all(
    alloc: Global,
    entry: &Entry,
    left_out: &[No],
    rows: &[Row],
    size: Size,
) -> Result<Vec<u8>, AllocError>
    requires stand { keeping.KeptStand entry.now size.rows size.cols (keeping.unnamed left_out.now) }
    requires ranges { spec.AreInRange size.rows size.cols rows.now }
    ensures { IfOk result (λ text. spec.SendsAll entry.now size.rows size.cols (keeping.unnamed left_out.now) rows.now
        text.items) }
{
    let mut text = Vec::new(alloc);
    for row in rows {
        let bytes = sent_for(alloc, entry, left_out, *row, size)?;
        text.extend_from_slice(&bytes)?;
    }
    Ok(text)
}

fn begins_with_escape(text: &[u8]) -> bool
    ensures yes { result ≡ true → (rest : List ℕ) × (text.now ≡ 27 ∷ rest) }
    ensures no { result ≡ false → (rest : List ℕ) → text.now ≡ 27 ∷ rest → ⊥ }
{
    matches!(text, [27, ..])
}

/// Whether the bytes that `entry` sends to lead a terminal out of an unknown state, without those of capabilities that
/// the refusals `left_out` are about, begin with ESC. The others must stand. Fails if memory runs out.
pub(crate) fn escapes(
    alloc: Global,
    entry: &Entry,
    left_out: &[No],
    size: Size,
) -> Result<bool, AllocError>
    requires { keeping.KeptStand entry.now size.rows size.cols (keeping.unnamed left_out.now) }
    ensures yes { IfOk result (λ begins. begins ≡ true → keeping.OfAllKept entry.now size.rows size.cols
        (keeping.unnamed left_out.now) (λ t. BeginsOpen t → ⊥)) }
    ensures no { IfOk result (λ begins. begins ≡ false → keeping.OfAllKept entry.now size.rows size.cols
        (keeping.unnamed left_out.now) (λ t. BeginsOpen t)) }
{
    let text = sent_for_all(alloc, entry, left_out, &resync_rows(size), size)?;
    Ok(begins_with_escape(&text))
}
