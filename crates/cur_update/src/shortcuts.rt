//! Short cuts, which decide by a cell's own numbers how it is printed, without making its ink.
ghost use Rattle.std.specs.Prelude.{◌≡◌, ◌<◌, ◌≤◌, ℕ, false, length, not, slice_index_or, true};
ghost use Rattle.cur_drawing.specs.Cells.{space};
ghost use Rattle.cur_update.specs.declared.inks.Means.{Means};
ghost use Rattle.cur_update.specs.Inks as spec;

use cur_drawing::{Attrs, Cell};

/// Whether `cell` has no attributes, and the `colors` of its pair are the default ones.
#[tactic(auto, using(crate::proofs::Plainly::plain_is))]
pub(crate) fn is_plain(cell: Cell, colors: (Option<u8>, Option<u8>)) -> bool
    ensures { result ≡ true → (means : Means)
        → spec.ink_with means (spec.pair_colors colors) cell ≡ spec.plain_ink cell.byte }
{
    cell.attrs() == Attrs::none() && colors.0.is_none() && colors.1.is_none()
}

/// Whether `cell` is of the plain set and has another character than `byte`. Both are computed, so that there is no
/// branch.
pub(crate) fn is_other(cell: Cell, byte: u8) -> bool
    ensures { result ≡ spec.is_other cell byte }
{
    !(cell.attrs().has(Attrs::ALTCHARSET) | (cell.byte() == byte))
}

/// Sets `shown[n]` unless cell `n` of `line` certainly shows another character than `text[n]`: the cells noted are of
/// the alternate set, or have that character. Returns whether every one of them has no attributes and pair 0.
pub(crate) fn note_alike(line: &[Cell], text: &[u8], shown: &mut [bool]) -> bool
    requires text { length line.now ≤ length text.now }
    requires room { length line.now ≤ length shown.old }
    ensures room { length shown.new ≡ length shown.old }
    ensures alike { (k : ℕ) → k < length line.now → slice_index_or shown.new k false
        ≡ not (spec.is_other (slice_index_or line.now k space) (slice_index_or text.now k 0)) }
    ensures bare { result ≡ true → (k : ℕ) → k < length line.now → slice_index_or shown.new k false ≡ true
        → spec.IsBare (slice_index_or line.now k space) }
{
    let mut are_bare = true;
    for n in 0..line.len() {
        let alike = !is_other(line[n], text[n]);
        shown[n] = alike;
        are_bare = are_bare & (!alike | is_bare(line[n]));
    }
    are_bare
}

/// Whether `cell` has no attributes and pair 0.
fn is_bare(cell: Cell) -> bool
    ensures { result ≡ true → spec.IsBare cell }
{
    cell.is_styled_like(Cell::space())
}

/// Whether `cell` is of the plain set and has the attributes and the pair of `other`.
pub(crate) fn is_plain_like(cell: Cell, other: Cell) -> bool
    ensures { result ≡ true → spec.IsPlainLike cell other cell.byte }
{
    cell.is_styled_like(other) && !other.attrs().has(Attrs::ALTCHARSET)
}
