//! The text of an effect.
ghost use Rattle.std.specs.{Prelude.{◌≡◌, ◌<◌, ◌++◌, OnOk, IfOk, length}, Fmt.{decimal}};
ghost use Rattle.ti_lines.specs.EffectWriter.{with_text, with_texts};
ghost use Rattle.ti_lines.specs.EffectText as spec;

use crate::letters::{are_dots, ink_letter, switch_letter};
use crate::numbers::push_number;
use itoa::Buffer;
use std::alloc::{AllocError, Global};
use vt_effects::{Effect, Erasure, Move, Region, Rendering, Scroll, Sets, Switch};

/// The text of `effect`: its words in a fixed order with a space between each two, without words for what is kept; `-`
/// if there are none.
///
/// The words are `row=k`, `row+k` or `row-k`, and likewise for `col`; `nopend`; `all`, `tail`,
/// `head`, `rest` or `next=n`; `up` or `down`; `look:` and for bold, faint, underline, blink,
/// negative and concealed `1`, `0` or `.`; `ink:` and for the foreground and the background `0` to
/// `7`, `d` for the default, or `.`; `set:` and for G0 and G1 `B` for the plain set, `0` for the
/// graphic one, or `.`, and for the shift `I`, `O` or `.`; `rows:t,b` for margins; `show` or `hide`.
///
/// Fails with `AllocError` if memory runs out.
pub fn effect_text(alloc: Global, effect: &Effect) -> Result<Vec<u8>, AllocError>
    ensures { IfOk result (λ text. text.items ≡ spec.spelled effect.now) }
{
    let mut text = Vec::new(alloc);
    push_effect(effect, &mut text)?;
    Ok(text)
}

/// Replaces the content of `text` by the text of `effect`. Fails if memory runs out.
pub fn push_effect(effect: &Effect, text: &mut Vec<u8>) -> Result<(), AllocError>
    ensures { OnOk result (text.new.items ≡ spec.spelled effect.now) }
{
    text.clear();
    push_words(effect, text)?;
    if text.is_empty() {
        text.push(b'-')?;
    }
    Ok(())
}

fn push_words(effect: &Effect, text: &mut Vec<u8>) -> Result<(), AllocError>
    ensures { OnOk result (text.new.items ≡ with_texts text.old.items (spec.texts effect.now)) }
{
    push_row(effect.row, text)?;
    push_col(effect.col, text)?;
    push_pending(effect.ends_pending, text)?;
    push_erasure(effect.erasure, text)?;
    push_scroll(effect.scroll, text)?;
    push_look(effect.rendition, text)?;
    push_inks(effect.rendition, text)?;
    push_sets(effect.charset, text)?;
    push_rows(effect.margins, text)?;
    push_visible(effect.visible, text)
}

/// Appends the word `name` followed by `rest`, with a space before it unless `text` is empty.
#[tactic(auto, using(crate::proofs::Joins::word_begun))]
fn push_word(name: &[u8], rest: &[u8], text: &mut Vec<u8>) -> Result<(), AllocError>
    requires { 0 < length name.now }
    ensures { OnOk result (text.new.items ≡ with_text text.old.items (name.now ++ rest.now)) }
{
    if !text.is_empty() {
        text.push(b' ')?;
    }
    text.extend_from_slice(name)?;
    text.extend_from_slice(rest)
}

fn push_numbered(name: &[u8], number: u16, text: &mut Vec<u8>) -> Result<(), AllocError>
    requires { 0 < length name.now }
    ensures { OnOk result (text.new.items ≡ with_text text.old.items (name.now ++ decimal number)) }
{
    let mut digits = Buffer::new();
    push_word(name, digits.format(number).as_bytes(), text)
}

/// Appends the word `name` followed by `letters`, unless each of them is a dot.
fn push_lettered(name: &[u8], letters: &[u8], text: &mut Vec<u8>) -> Result<(), AllocError>
    requires { 0 < length name.now }
    ensures { OnOk result (text.new.items ≡ with_text text.old.items (spec.lettered name.now letters.now)) }
{
    if are_dots(letters) {
        Ok(())
    } else {
        push_word(name, letters, text)
    }
}

fn push_row(row: Move, text: &mut Vec<u8>) -> Result<(), AllocError>
    ensures { OnOk result (text.new.items ≡ with_text text.old.items (spec.move_text spec.row_name row)) }
{
    match row {
        Move::Kept => Ok(()),
        Move::To(k) => push_numbered(b"row=", k, text),
        Move::Back(k) => push_numbered(b"row-", k, text),
        Move::Forward(k) => push_numbered(b"row+", k, text),
    }
}

fn push_col(col: Move, text: &mut Vec<u8>) -> Result<(), AllocError>
    ensures { OnOk result (text.new.items ≡ with_text text.old.items (spec.move_text spec.col_name col)) }
{
    match col {
        Move::Kept => Ok(()),
        Move::To(k) => push_numbered(b"col=", k, text),
        Move::Back(k) => push_numbered(b"col-", k, text),
        Move::Forward(k) => push_numbered(b"col+", k, text),
    }
}

fn push_pending(ends: bool, text: &mut Vec<u8>) -> Result<(), AllocError>
    ensures { OnOk result (text.new.items ≡ with_text text.old.items (spec.pending_text ends)) }
{
    if ends {
        push_word(b"nopend", b"", text)
    } else {
        Ok(())
    }
}

fn push_erasure(erasure: Erasure, text: &mut Vec<u8>) -> Result<(), AllocError>
    ensures { OnOk result (text.new.items ≡ with_text text.old.items (spec.erasure_text erasure)) }
{
    match erasure {
        Erasure::Nothing => Ok(()),
        Erasure::Screen => push_word(b"all", b"", text),
        Erasure::Tail => push_word(b"tail", b"", text),
        Erasure::Head => push_word(b"head", b"", text),
        Erasure::Rest => push_word(b"rest", b"", text),
        Erasure::Next(count) => push_numbered(b"next=", count, text),
    }
}

fn push_scroll(scroll: Scroll, text: &mut Vec<u8>) -> Result<(), AllocError>
    ensures { OnOk result (text.new.items ≡ with_text text.old.items (spec.scroll_text scroll)) }
{
    match scroll {
        Scroll::Still => Ok(()),
        Scroll::Up => push_word(b"up", b"", text),
        Scroll::Down => push_word(b"down", b"", text),
    }
}

fn push_look(rendition: Rendering, text: &mut Vec<u8>) -> Result<(), AllocError>
    ensures { OnOk result (text.new.items ≡ with_text text.old.items (spec.look_text rendition)) }
{
    let letters = [
        switch_letter(b'1', b'0', rendition.bold),
        switch_letter(b'1', b'0', rendition.faint),
        switch_letter(b'1', b'0', rendition.underline),
        switch_letter(b'1', b'0', rendition.blink),
        switch_letter(b'1', b'0', rendition.negative),
        switch_letter(b'1', b'0', rendition.concealed),
    ];
    push_lettered(b"look:", &letters, text)
}

fn push_inks(rendition: Rendering, text: &mut Vec<u8>) -> Result<(), AllocError>
    ensures { OnOk result (text.new.items ≡ with_text text.old.items (spec.ink_text rendition)) }
{
    let letters = [
        ink_letter(rendition.foreground),
        ink_letter(rendition.background),
    ];
    push_lettered(b"ink:", &letters, text)
}

fn push_sets(sets: Sets, text: &mut Vec<u8>) -> Result<(), AllocError>
    ensures { OnOk result (text.new.items ≡ with_text text.old.items (spec.set_text sets)) }
{
    let letters = [
        switch_letter(b'0', b'B', sets.g0_graphic),
        switch_letter(b'0', b'B', sets.g1_graphic),
        switch_letter(b'O', b'I', sets.shifted_out),
    ];
    push_lettered(b"set:", &letters, text)
}

#[tactic(auto, using(crate::proofs::Joins::rows_begun))]
fn push_rows(margins: Option<Region>, text: &mut Vec<u8>) -> Result<(), AllocError>
    ensures { OnOk result (text.new.items ≡ with_text text.old.items (spec.rows_text margins)) }
{
    match margins {
        None => Ok(()),
        Some(region) => {
            push_numbered(b"rows:", region.top, text)?;
            text.push(b',')?;
            push_number(region.bottom, text)
        }
    }
}

fn push_visible(visible: Switch, text: &mut Vec<u8>) -> Result<(), AllocError>
    ensures { OnOk result (text.new.items ≡ with_text text.old.items (spec.visible_text visible)) }
{
    match visible {
        Switch::Kept => Ok(()),
        Switch::On => push_word(b"show", b"", text),
        Switch::Off => push_word(b"hide", b"", text),
    }
}
