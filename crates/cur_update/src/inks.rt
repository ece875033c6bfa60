//! How cells of the virtual screen are printed.
//!
//! `Means` has an entry's means for that, looked up once. `ink_of` says how a cell is printed, and `shows_ink` whether
//! it is printed like a given ink. All other functions that ask this are short cuts (`shortcuts.rt`): they decide by
//! the cell's own numbers, and leave the rest to these two.
ghost use Rattle.std.specs.Prelude.{◌≡◌, ℕ, Option};
ghost use Rattle.ti_rows.specs.declared.rows.Row.TheVariants.{Smacs, Op};
ghost use Rattle.cur_steps.specs.Inks.{same, blank_ink};
ghost use Rattle.cur_update.specs.Inks as spec;

use crate::shortcuts::is_plain;
use cur_drawing::{Attrs, Cell};
use cur_steps::{Brush, Ink, has_line, is_same, same_brush};
use ti_conforms::{Certificate, Character, shown};
use ti_rows::{Attributes, Row};
use vt_term::{Color, color_of as color};

/// The number of letters: a cell has a character from 32 to 126.
const LETTERS: usize = 95;

/// An entry's means of printing cells, looked up once.
#[derive(Clone, Copy)]
pub(crate) struct Means {
    /// Whether it has the strings for colors.
    pub colored: bool,
    /// The character that each letter of the alternate set shows, from 32 on.
    pub alternates: [Character; LETTERS],
}

/// The means of printing cells that the entry of `checked` has.
pub(crate) fn means_of<C: Certificate>(checked: &C) -> Means
    ensures { result ≡ spec.means_of (C.table checked.now) (C.partners checked.now) }
{
    Means {
        colored: has_line(checked, Row::Op),
        alternates: alternates_of(checked, has_line(checked, Row::Smacs)),
    }
}

/// The character that each letter of the alternate set shows, from 32 on, if the entry has the strings for the
/// graphic set (`graphic`).
fn alternates_of<C: Certificate>(checked: &C, graphic: bool) -> [Character; LETTERS]
    ensures { result ≡ spec.alternates_of graphic (C.partners checked.now) }
{
    let mut characters = [shown(None, b' '); LETTERS];
    for k in 0..LETTERS {
        let letter = (32 + k) as u8;
        characters[k] = shown(partner_in(graphic, checked.partner(letter)), letter);
    }
    characters
}

/// The attributes `attrs` of a cell, without the alternate set.
fn attributes_of(attrs: Attrs) -> Attributes
    ensures { result ≡ spec.attributes_of attrs.0 }
{
    Attributes {
        standout: attrs.has(Attrs::STANDOUT),
        underline: attrs.has(Attrs::UNDERLINE),
        reverse: attrs.has(Attrs::REVERSE),
        blink: attrs.has(Attrs::BLINK),
        dim: attrs.has(Attrs::DIM),
        bold: attrs.has(Attrs::BOLD),
        invisible: attrs.has(Attrs::INVISIBLE),
    }
}

/// The color `number`, if there is one and the entry has colors (`colored`).
fn color_of(colored: bool, number: Option<u8>) -> Option<Color>
    ensures { result ≡ spec.color_of colored number }
{
    match number {
        Some(number) if colored => Some(color(number as u16)),
        _ => None,
    }
}

/// The `partner` of a letter, if it can be printed and the entry has the strings for the graphic set (`graphic`).
fn partner_in(graphic: bool, partner: Option<u8>) -> Option<u8>
    ensures { result ≡ spec.partner_in graphic partner }
{
    match partner {
        Some(byte) if graphic && (32..=126).contains(&byte) => Some(byte),
        _ => None,
    }
}

/// The character that `cell` shows.
pub(crate) fn character_of(means: &Means, cell: Cell) -> Character
    ensures { result ≡ spec.character_in means.now cell }
{
    let letter = cell.byte();
    if cell.attrs().has(Attrs::ALTCHARSET) {
        return means.alternates[(letter - 32) as usize];
    }
    Character {
        byte: letter,
        graphic: false,
    }
}

/// The character `byte` without attributes, in the default colors.
fn plain_ink(byte: u8) -> Ink
    ensures { result ≡ spec.plain_ink byte }
{
    Ink {
        byte,
        ..Ink::blank()
    }
}

/// The attributes of `cell`, and the `colors` of its pair if the entry has colors (`colored`).
pub(crate) fn brush_of(colored: bool, colors: (Option<u8>, Option<u8>), cell: Cell) -> Brush
    ensures { result ≡ spec.brush_of colored (spec.pair_colors colors) cell }
{
    Brush {
        attributes: attributes_of(cell.attrs()),
        foreground: color_of(colored, colors.0),
        background: color_of(colored, colors.1),
    }
}

/// How `cell` is printed, given the `colors` of its pair.
pub(crate) fn ink_of(means: &Means, colors: (Option<u8>, Option<u8>), cell: Cell) -> Ink
    ensures { result ≡ spec.ink_with means.now (spec.pair_colors colors) cell }
{
    if is_plain(cell, colors) {
        return plain_ink(cell.byte());
    }
    styled_ink(means, colors, cell)
}

/// The ink of any `cell`, given the `colors` of its pair. `ink_of` doesn't call it for a plain one.
#[inline(never)]
fn styled_ink(means: &Means, colors: (Option<u8>, Option<u8>), cell: Cell) -> Ink
    ensures { result ≡ spec.ink_with means.now (spec.pair_colors colors) cell }
{
    let character = character_of(means, cell);
    Ink {
        byte: character.byte,
        graphic: character.graphic,
        brush: brush_of(means.colored, colors, cell),
    }
}

/// Whether `cell` is printed like `ink`, given the `colors` of its pair.
pub(crate) fn shows_ink(
    means: &Means,
    colors: (Option<u8>, Option<u8>),
    cell: Cell,
    ink: Ink,
) -> bool
    ensures { result ≡ same (spec.ink_with means.now (spec.pair_colors colors) cell) ink }
{
    if is_plain(cell, colors) {
        return is_same(plain_ink(cell.byte()), ink);
    }
    let character = character_of(means, cell);
    if character.byte != ink.byte || character.graphic != ink.graphic {
        return false;
    }
    same_brush(brush_of(means.colored, colors, cell), ink.brush)
}

/// Whether `cell` is printed as a blank, given the `colors` of its pair.
#[tactic(auto, using(crate::proofs::Plainly::space_told))]
pub(crate) fn is_blank_ink(means: &Means, colors: (Option<u8>, Option<u8>), cell: Cell) -> bool
    ensures { result ≡ same (spec.ink_with means.now (spec.pair_colors colors) cell) blank_ink }
{
    if is_plain(cell, colors) {
        return cell.byte() == b' ';
    }
    shows_ink(means, colors, cell, Ink::blank())
}
