//! Explanations why an entry gets no certificate: the bytes that a checked string sends, the result that is wanted, and
//! the one that is seen.

use crate::escapes::push_spelled;
use crate::numbers::push_numbers;
use crate::strings::parm_words;
use std::alloc::Global;
use ti_caps::{Cap, Entry, name};
use ti_conforms::{is_checked, misfit, send};
use ti_files::{Made, Pushed, Remarks};
use ti_parm::ParmFault;
use ti_rows::{NO_LOOKS, Row};
use vt_effects::effect_of;
use vt_term::{Size, tokens};

/// The words about a string that reads a static variable.
pub const STATIC_READ: &[u8] =
    b" reads a static variable, %gA to %gZ, before it sets it: what it sends depends on what a program has sent \
      before";

/// The words about a string whose bytes no effect describes.
pub const NOT_TAME: &[u8] =
    b"the string may be right: no single effect describes what it sends from every state in which programs send it, \
      so it was not judged (what prints, inserts, deletes, or erases after a change of the background has none, nor \
      have moves that only some edges of the screen cut short)";

/// The words about a certificate that would be too long.
pub const TOO_LONG: &[u8] =
    b"the strings up to this one may be right: a certificate has a line for each list of parameters, with what is \
      sent in hexadecimal, and it may have 67108864 bytes; with this line and the last it would be longer, so a \
      shorter string or a smaller size of the screen is needed";

/// The words about the first string that is sent in an unknown state.
pub const NO_RESYNC: &[u8] =
    b"smcup, enacs, sgr0, rmacs, csr of the whole screen and clear, sent one after another, are to lead a terminal \
      out of any state, so they have to begin with ESC: a sequence that was cut off would take any other first byte \
      as part of it";

/// The words about strings that can leave the line drawing set active.
pub const STAYS_GRAPHIC: &[u8] =
    b"each string is right by itself, but they can leave the line drawing set active, and a program switches sets \
      only where acsc, smacs and rmacs are all there: its letters would show as lines";

/// The words about a string of which nothing wrong was found, and whose effect isn't the wanted one.
pub const NOT_SHOWN: &[u8] =
    b"the string may be right: its effect is not the one that is wanted, but it goes wrong from none of the states \
      that were tried";

/// The words about a state that the string itself doesn't lead to.
pub const LED_THERE: &[u8] = b"the entry's other strings lead to these character sets";

/// The words about strings that are right by themselves, of which nothing wrong was found together.
pub const NOT_TOGETHER: &[u8] =
    b"each string is right by itself, and nothing is wrong with all of them together: smacs and rmacs switch the \
      sets in every state that the other strings leave, and what leads out of an unknown state begins with ESC; but \
      no certificate could be made of them";

/// Explains why no entry with the flag or number `cap` has a certificate.
pub fn explain_flag(cap: Cap, remarks: &mut Remarks) {
    let words: &[u8] = match name(cap) {
        b"xmc" =>
            b" is in the entry: attributes take up cells of the screen, so that a program can't know where its text \
              stands",
        b"hc" => b" is in the entry: on paper nothing can be erased or replaced",
        b"gn" =>
            b" is in the entry: it describes a kind of line, so that a program can't know what the terminal does",
        _ =>
            b" is in the entry: a character is printed over the one before, so that a program can't replace any",
    };
    remarks.add(name(cap), words);
}

/// Explains why no entry without the string `cap` has a certificate.
pub fn explain_absent(cap: Cap, remarks: &mut Remarks) {
    let words: &[u8] = match name(cap) {
        b"clear" =>
            b" is not in the entry: without it a program can't bring the screen into a known state",
        b"cup" => b" is not in the entry: without it a program can't reach a place of the screen",
        _ => b" is not in the entry: without it a program can't turn attributes off",
    };
    remarks.add(name(cap), words);
}

/// Explains to which letter of line drawing `pairs`, the value of `acsc`, give a character that can't be printed. Adds
/// nothing if there is no such letter.
pub fn explain_pairs(alloc: Global, pairs: Option<&[u8]>, remarks: &mut Remarks) -> Pushed {
    let Some(letter) = misfit(pairs.unwrap_or(&[])) else {
        return Ok(());
    };
    let mut words = Vec::from_slice(alloc, b" gives the line drawing letter ")?;
    words.extend_from_slice(&[letter])?;
    words.extend_from_slice(
        b" a character outside 32 to 126: a program that draws lines would send the terminal a control or a byte \
          without meaning",
    )?;
    remarks.add(b"acsc", words.as_slice());
    Ok(())
}

/// The first of the rows that lead a terminal of `size` out of an unknown state for which the entry sends any bytes,
/// and these bytes.
pub fn first_of_resync(alloc: Global, entry: &Entry, size: Size) -> Option<(Row, Vec<u8>)> {
    let csr = Row::Csr(0, (size.rows - 1) as u16);
    for row in [
        Row::Smcup,
        Row::Enacs,
        Row::Sgr0,
        Row::Rmacs,
        csr,
        Row::Clear,
    ] {
        if let Some(bytes) = some_sent(alloc, entry, row) {
            return Some((row, bytes));
        }
    }
    None
}

/// The bytes that the entry sends for `row`; `None` if there are none.
fn some_sent(alloc: Global, entry: &Entry, row: Row) -> Option<Vec<u8>> {
    if !is_checked(entry, row) {
        return None;
    }
    match send(alloc, entry.get_string(row.cap()).unwrap_or(&[]), row) {
        Ok(bytes) if !bytes.is_empty() => Some(bytes),
        Ok(_) | Err(_) => None,
    }
}

/// A string of an entry, for a row.
#[derive(Clone, Copy)]
pub struct Field<'a> {
    /// The entry's names.
    pub names: &'a [u8],
    /// The row.
    pub row: Row,
    /// The string.
    pub string: &'a [u8],
    /// The bytes that the string sends for the row; `None` if it can't be expanded.
    pub sent: &'a Option<Vec<u8>>,
}

/// Adds a line with the `field` and the bytes that it sends, or with the words `unsent` if it sends none.
pub fn explain_field(
    alloc: Global,
    field: &Field<'_>,
    unsent: &[u8],
    remarks: &mut Remarks,
) -> Pushed {
    let own = field_words(alloc, field.row, field.string)?;
    let mut words = place_words(alloc, field.names, field.row)?;
    match field.sent {
        Some(bytes) => {
            words.extend_from_slice(b" sends '")?;
            push_spelled(&mut words, bytes.as_slice())?;
            words.extend_from_slice(b"'")?;
        }
        None => words.extend_from_slice(unsent)?,
    }
    remarks.add(own.as_slice(), words.as_slice());
    Ok(())
}

/// The field of a source text that has `string` for `row`.
fn field_words(alloc: Global, row: Row, string: &[u8]) -> Made {
    let mut words = Vec::from_slice(alloc, row.name())?;
    words.extend_from_slice(b"=")?;
    push_spelled(&mut words, string)?;
    Ok(words)
}

/// The first of the entry's `names`, and the parameters of `row`.
fn place_words(alloc: Global, names: &[u8], row: Row) -> Made {
    let mut words = Vec::from_slice(alloc, b" of ")?;
    words.extend_from_slice(first_name(names))?;
    match row.param_count() {
        0 => {}
        1 => words.extend_from_slice(b" with the parameter")?,
        _ => words.extend_from_slice(b" with the parameters")?,
    }
    push_numbers(alloc, row.params().as_slice(), &mut words)?;
    Ok(words)
}

/// The first of an entry's `names`.
fn first_name(names: &[u8]) -> &[u8] {
    match names.iter().position(|byte| *byte == b'|') {
        Some(end) => &names[..end],
        None => names,
    }
}

/// The reason why a checked string can't be expanded. All its parameters are numbers.
pub fn unsent_words(fault: ParmFault) -> &'static [u8] {
    match fault {
        ParmFault::WrongKind => b" takes a number for a text",
        other => parm_words(other),
    }
}

/// The bytes that a checked string sends for a row, to a terminal of this size.
#[derive(Clone, Copy)]
pub struct Sent<'a> {
    pub size: Size,
    pub row: Row,
    pub bytes: &'a [u8],
}

/// Whether the effect of the bytes that were `sent` is the one that is asked for by their row, if no attribute can be
/// seen. The set that `smacs` and `rmacs` leave active doesn't count.
pub fn has_own_effect(alloc: Global, sent: Sent<'_>) -> bool {
    let Ok(found) = tokens(alloc, sent.bytes) else {
        return false;
    };
    match effect_of(found.as_slice(), sent.size, &sent.row.start(sent.size)) {
        Some(effect) => effect == sent.row.asked(NO_LOOKS, &effect),
        None => false,
    }
}
