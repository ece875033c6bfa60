//! Advice about what a certificate says nothing of: strings that aren't checked, and flags and numbers beside T.

use crate::advice::add_advice;
use crate::trials::{Tried, tried_strings};
use std::alloc::{AllocError, Global};
use ti_caps::{Cap, Entry, by_name, name};
use ti_files::Remarks;

/// Adds a line for each piece of advice on strings of `entry` that aren't checked and on its flags, and then a line
/// with the number of its strings that are checked, of those that were run once, and of those that were not looked at,
/// with their names. Nothing is added if there is too little memory.
pub fn advise_unchecked(alloc: Global, entry: &Entry, remarks: &mut Remarks) {
    let _ = add_unchecked(alloc, entry, remarks);
}

fn add_unchecked(alloc: Global, entry: &Entry, remarks: &mut Remarks) -> Result<(), AllocError> {
    let tried = tried_strings(alloc, entry)?;
    let flags = flag_advice(alloc, entry)?;
    let counts = counts_words(alloc, &tried)?;
    for text in tried.advice.iter().chain(flags.iter()) {
        add_advice(alloc, text.as_slice(), remarks)?;
    }
    remarks.add_words(counts.as_slice());
    Ok(())
}

/// The advice on strings of `entry` that aren't checked, from one run of each on T, and on its flags. Each text begins
/// with the capability that it is about. Fails only when out of memory.
pub fn unchecked_advice(alloc: Global, entry: &Entry) -> Result<Vec<Vec<u8>>, AllocError> {
    let mut advice = tried_strings(alloc, entry)?.advice;
    for text in flag_advice(alloc, entry)? {
        advice.push(text)?;
    }
    Ok(advice)
}

/// The advice on the flags `am` and `xenl` of `entry`, which say how a terminal goes on after the last column, and on
/// its number of colors. An entry without `cols` says nothing of its terminal's lines, so that nothing is missing
/// there. terminfo(5), "Predefined Capabilities".
fn flag_advice(alloc: Global, entry: &Entry) -> Result<Vec<Vec<u8>>, AllocError> {
    let is_whole = has_number(entry, b"cols");
    let wraps = has_flag(entry, b"am");
    let waits = has_flag(entry, b"xenl");
    let has_colors = has_number(entry, b"colors");
    let has_op = has_string(entry, b"op");
    let advice: [(bool, &[u8]); 4] = [
        (!wraps && (is_whole || waits), NO_WRAP),
        (wraps && !waits, NO_WAIT),
        (
            is_whole && has_op && !has_colors,
            b"colors: missing beside op, so programs use no colors",
        ),
        (has_colors && !has_op, b"op: missing beside colors"),
    ];
    let mut texts = Vec::new(alloc);
    for (applies, text) in &advice {
        if *applies {
            texts.push(Vec::from_slice(alloc, text)?)?;
        }
    }
    Ok(texts)
}

const NO_WRAP: &[u8] = b"am: missing, but T goes on in the next line after the last column";

const NO_WAIT: &[u8] =
    b"xenl: missing, but T stays in the last column until the next character comes";

fn has_flag(entry: &Entry, name: &[u8]) -> bool {
    match by_name(name) {
        Some(cap) => entry.get_flag(cap),
        None => false,
    }
}

fn has_number(entry: &Entry, name: &[u8]) -> bool {
    match by_name(name) {
        Some(cap) => entry.get_number(cap).is_some(),
        None => false,
    }
}

fn has_string(entry: &Entry, name: &[u8]) -> bool {
    match by_name(name) {
        Some(cap) => entry.get_string(cap).is_some(),
        None => false,
    }
}

/// The counts of the strings that were `tried`, and the names of those that were not looked at. Strings that keys send
/// are counted alone.
fn counts_words(alloc: Global, tried: &Tried) -> Result<Vec<u8>, AllocError> {
    let checked = tried.checked;
    let right = tried.right;
    let advised = tried.advice.len();
    let keys = tried.unseen.iter().filter(|cap| is_key(**cap)).count();
    let others = tried.unseen.len().saturating_sub(keys);
    let text = format!(in alloc;
        "strings: {checked} checked, {right} others right in one run, {advised} with advice, {keys} of keys, {others} not looked at"
    )?;
    let mut words = text.into_bytes();
    let mut separator: &[u8] = b": ";
    for cap in &tried.unseen {
        if !is_key(*cap) {
            words.extend_from_slice(separator)?;
            words.extend_from_slice(name(*cap))?;
            separator = b" ";
        }
    }
    Ok(words)
}

/// Whether `cap` is a string that a key sends: its name begins with `k`.
fn is_key(cap: Cap) -> bool {
    name(cap).first() == Some(&b'k')
}
