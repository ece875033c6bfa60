//! Advice about an entry that has a certificate: facts that a certificate allows and users of the entry would want to
//! know.

use crate::trials::push_definition;
use std::alloc::{AllocError, Global};
use ti_caps::{Cap, Entry, by_name};
use ti_conforms::{is_checked, send};
use ti_files::Remarks;
use ti_rows::{NO_ATTRIBUTES, NO_LOOKS, Row};
use vt_effects::{Effect, Rendering, Switch, effect_of};
use vt_term::{Size, tokens};

/// Adds a line for each piece of advice on `entry`, whose strings are right at `size`, as far as there is memory.
pub fn advise(alloc: Global, entry: &Entry, size: Size, remarks: &mut Remarks) {
    if let Ok(advice) = advice_on(alloc, entry, size) {
        for text in &advice {
            let _ = add_advice(alloc, text.as_slice(), remarks);
        }
    }
}

/// Adds the line of the advice `text` to `remarks`.
pub(crate) fn add_advice(
    alloc: Global,
    text: &[u8],
    remarks: &mut Remarks,
) -> Result<(), AllocError> {
    let mut words = Vec::from_slice(alloc, b"advice ")?;
    words.extend_from_slice(text)?;
    remarks.add_words(words.as_slice());
    Ok(())
}

/// The advice on `entry`, whose strings are right at `size`: each attribute whose own string shows it and `sgr` never
/// does, and strings that are never sent since others are missing. Each text begins with the capability that it is
/// about.
pub fn advice_on(alloc: Global, entry: &Entry, size: Size) -> Result<Vec<Vec<u8>>, AllocError> {
    let mut advice = Vec::new(alloc);
    if is_checked(entry, Row::Sgr(NO_ATTRIBUTES)) {
        add_looks(alloc, entry, size, &mut advice)?;
    }
    let colors: [&[u8]; 3] = [b"setaf", b"setab", b"op"];
    if let Some(first) = colors.iter().find(|it| has(entry, it)) {
        let needs = Needs {
            subject: first,
            names: &colors,
            outcome: NO_COLORS,
        };
        add_missing(alloc, entry, needs, &mut advice)?;
    }
    if has(entry, b"acsc") {
        let needs = Needs {
            subject: b"acsc",
            names: &[b"smacs", b"rmacs"],
            outcome: NO_LINES,
        };
        add_missing(alloc, entry, needs, &mut advice)?;
    }
    if has(entry, b"civis") {
        let needs = Needs {
            subject: b"civis",
            names: &[b"cnorm"],
            outcome: NO_HIDING,
        };
        add_missing(alloc, entry, needs, &mut advice)?;
    }
    Ok(advice)
}

const NO_COLORS: &[u8] = b" missing, so colors are never shown";

const NO_LINES: &[u8] = b" missing, so the line drawing set is never used";

const NO_HIDING: &[u8] = b" missing, so the cursor is never hidden";

/// Whether `entry` has the string of this name.
fn has(entry: &Entry, name: &[u8]) -> bool {
    string_of(entry, name).is_some()
}

fn string_of<'a>(entry: &'a Entry, name: &[u8]) -> Option<&'a [u8]> {
    entry.get_string(by_name(name)?)
}

/// The strings that are needed beside another.
#[derive(Clone, Copy)]
struct Needs<'a> {
    /// The name of the string that they serve.
    subject: &'a [u8],
    /// Their names.
    names: &'a [&'a [u8]],
    /// The words for the outcome if any of them is missing.
    outcome: &'a [u8],
}

/// Adds those of the strings that `entry` needs which it doesn't have, and what follows, if there are any.
fn add_missing(
    alloc: Global,
    entry: &Entry,
    needs: Needs<'_>,
    advice: &mut Vec<Vec<u8>>,
) -> Result<(), AllocError> {
    let mut missing = Vec::new(alloc);
    let mut count: usize = 0;
    for name in needs.names {
        if !has(entry, name) {
            missing.extend_from_slice(if count == 0 { b": " } else { b" and " })?;
            missing.extend_from_slice(name)?;
            count = count.saturating_add(1);
        }
    }
    if count == 0 {
        return Ok(());
    }
    let mut text = Vec::from_slice(alloc, needs.subject)?;
    text.extend_from_slice(missing.as_slice())?;
    text.extend_from_slice(if count == 1 { b" is" } else { b" are" })?;
    text.extend_from_slice(needs.outcome)?;
    advice.push(text)?;
    Ok(())
}

/// Adds each attribute whose own string shows it, and that `sgr` never shows.
fn add_looks(
    alloc: Global,
    entry: &Entry,
    size: Size,
    advice: &mut Vec<Vec<u8>>,
) -> Result<(), AllocError> {
    let attributes: [(Row, &[u8]); 7] = [
        (Row::Smso, b"standout"),
        (Row::Smul, b"underline"),
        (Row::Rev, b"reverse"),
        (Row::Blink, b"blink"),
        (Row::Dim, b"dim"),
        (Row::Bold, b"bold"),
        (Row::Invis, b"invisible"),
    ];
    for (place, (own, word)) in attributes.iter().enumerate() {
        let mut params: [u16; 9] = [0; 9];
        params[place] = 1;
        let is_lost = match Row::Sgr(NO_ATTRIBUTES).with_params(&params) {
            Some(alone) => !shows_some(alloc, entry, size, alone),
            None => false,
        };
        if is_lost && shows_itself(alloc, entry, size, *own) {
            advice.push(look_words(alloc, entry, own.cap(), word)?)?;
        }
    }
    Ok(())
}

/// Whether the bytes that `entry` sends for `row`, the string of one attribute, have a wanted end and turn a mark on.
fn shows_itself(alloc: Global, entry: &Entry, size: Size, row: Row) -> bool {
    match effect_for(alloc, entry, size, row) {
        Some(effect) => {
            let looks = NO_LOOKS.learned(row, &effect);
            has_mark(&effect.rendition) && effect == row.asked(looks, &effect)
        }
        None => false,
    }
}

/// Whether the bytes that `entry` sends for `row` turn a mark of the rendition on.
fn shows_some(alloc: Global, entry: &Entry, size: Size, row: Row) -> bool {
    match effect_for(alloc, entry, size, row) {
        Some(effect) => has_mark(&effect.rendition),
        None => false,
    }
}

fn effect_for(alloc: Global, entry: &Entry, size: Size, row: Row) -> Option<Effect> {
    let bytes = sent(alloc, entry, row)?;
    let found = tokens(alloc, bytes.as_slice()).ok()?;
    effect_of(found.as_slice(), size, &row.start(size))
}

/// The bytes that the string of `entry` sends for `row`, whether it is checked or not.
fn sent(alloc: Global, entry: &Entry, row: Row) -> Option<Vec<u8>> {
    send(alloc, entry.get_string(row.cap())?, row).ok()
}

fn has_mark(rendition: &Rendering) -> bool {
    let marks = [
        rendition.bold,
        rendition.faint,
        rendition.underline,
        rendition.blink,
        rendition.negative,
        rendition.concealed,
    ];
    marks.iter().any(|mark| matches!(*mark, Switch::On))
}

/// The advice that `cap` turns on the attribute `word`, and that `sgr` never does.
fn look_words(alloc: Global, entry: &Entry, cap: Cap, word: &[u8]) -> Result<Vec<u8>, AllocError> {
    let mut words = Vec::from_slice(alloc, b"sgr: ")?;
    push_definition(&mut words, entry, cap)?;
    words.extend_from_slice(b" shows ")?;
    words.extend_from_slice(word)?;
    words.extend_from_slice(b", sgr never does")?;
    Ok(words)
}
