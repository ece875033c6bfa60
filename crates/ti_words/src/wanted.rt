//! The results that programs want from each checked string, in words.

ghost use Rattle.std.specs.{Prelude.{◌≡◌, ◌++◌, IfOk, OnOk}, Fmt.{decimal}};
ghost use Rattle.ti_words.specs.Starts.{if_so};
ghost use Rattle.ti_words.specs.Wanted as spec;

use crate::starts::{push_flags, push_if};
use std::alloc::Global;
use ti_files::{Made, Pushed};
use ti_rows::{Attributes, Row};

/// The result that programs want from the string for `row`, in words.
pub fn wanted_words(alloc: Global, row: Row) -> Made
    ensures { IfOk result (λ words. words.items ≡ spec.wanted_text row) }
{
    let mut words = Vec::new(alloc);
    push_numbered(alloc, row, &mut words)?;
    words.extend_from_slice(fixed_words(row))?;
    push_look(alloc, row, &mut words)?;
    Ok(words)
}

const NO_MORE: &[u8] = b", and nothing else changes";

/// Appends the wanted result of a string with parameters, except for `sgr`; nothing for other rows.
fn push_numbered(alloc: Global, row: Row, words: &mut Vec<u8>) -> Pushed
    ensures { OnOk result (words.new.items ≡ words.old.items ++ spec.numbered_text row) }
{
    match row {
        Row::Cup(line, col) => push_cursor(alloc, line, col, words),
        Row::Csr(top, bottom) => push_region(alloc, top, bottom, words),
        Row::Hpa(col) => push_number(alloc, b"the cursor is in column ", col, IN_ROW, words),
        Row::Vpa(line) => push_number(alloc, b"the cursor is in row ", line, IN_COLUMN, words),
        Row::Cub(n) => push_number(alloc, b"the cursor moves left by ", n, NO_MORE, words),
        Row::Cuf(n) => push_number(alloc, b"the cursor moves right by ", n, NO_MORE, words),
        Row::Cuu(n) => push_number(alloc, b"the cursor moves up by ", n, NO_MORE, words),
        Row::Cud(n) => push_number(alloc, b"the cursor moves down by ", n, NO_MORE, words),
        Row::Ech(n) => push_number(alloc, ERASED, n, ARE_BLANK, words),
        Row::Setaf(color) => {
            let number = u16::from(color.number());
            push_number(alloc, b"the foreground is color ", number, NO_MORE, words)
        }
        Row::Setab(color) => {
            let number = u16::from(color.number());
            push_number(alloc, b"the background is color ", number, NO_MORE, words)
        }
        Row::Clear | Row::Home | Row::Cr | Row::Cub1 | Row::Cuf1 | Row::Cuu1 => Ok(()),
        Row::Cud1 | Row::El | Row::El1 | Row::Ed | Row::Ind | Row::Ri | Row::Bel => Ok(()),
        Row::Sgr(_) | Row::Sgr0 | Row::Op | Row::Smul | Row::Rev | Row::Blink => Ok(()),
        Row::Dim | Row::Bold | Row::Invis | Row::Smso | Row::Enacs | Row::Smacs => Ok(()),
        Row::Rmacs | Row::Civis | Row::Cnorm | Row::Cvvis | Row::Smcup | Row::Rmcup => Ok(()),
    }
}

const IN_ROW: &[u8] = b" of its row, and nothing else changes";

const IN_COLUMN: &[u8] = b" of its column, and nothing else changes";

const ERASED: &[u8] = b"the cells from the cursor on, as many as ";

const ARE_BLANK: &[u8] = b" and at most to the end of its row, are blank, and nothing else changes";

/// Appends `front`, `number` in decimal, and `behind`.
fn push_number(
    alloc: Global,
    front: &[u8],
    number: u16,
    behind: &[u8],
    words: &mut Vec<u8>,
) -> Pushed
    ensures { OnOk result (words.new.items ≡ words.old.items ++ spec.number_text front.now number behind.now) }
{
    let digits = format!(in alloc; "{number}")?;
    words.extend_from_slice(front)?;
    words.extend_from_slice(digits.as_bytes())?;
    words.extend_from_slice(behind)
}

fn push_cursor(alloc: Global, row: u16, col: u16, words: &mut Vec<u8>) -> Pushed
    ensures { OnOk result (words.new.items ≡ words.old.items ++ spec.place_text row col) }
{
    let text = format!(in alloc;
        "the cursor is at row {row}, column {col}, and nothing else changes"
    )?;
    words.extend_from_slice(text.as_bytes())
}

fn push_region(alloc: Global, top: u16, bottom: u16, words: &mut Vec<u8>) -> Pushed
    ensures { OnOk result (words.new.items ≡ words.old.items ++ spec.region_text top bottom) }
{
    let text = format!(in alloc;
        "the scrolling region is rows {top} to {bottom}, and nothing else but the cursor changes"
    )?;
    words.extend_from_slice(text.as_bytes())
}

/// The wanted result of moves, erasures, scrolling and the bell without parameters; empty for other rows.
fn fixed_words(row: Row) -> &'static [u8]
    ensures { result.now ≡ spec.fixed_text row }
{
    match row {
        Row::Clear =>
            b"every cell is blank, the cursor is at row 0, column 0, and nothing else changes",
        Row::Home => b"the cursor is at row 0, column 0, and nothing else changes",
        Row::Cr => b"the cursor is in column 0 of its row, and nothing else changes",
        Row::Cub1 => b"the cursor moves left by 1, and nothing else changes",
        Row::Cuf1 => b"the cursor moves right by 1, and nothing else changes",
        Row::Cuu1 => b"the cursor moves up by 1, and nothing else changes",
        Row::Cud1 => b"the cursor moves down by 1, and nothing else changes",
        Row::El =>
            b"the cells from the cursor to the end of its row are blank, and nothing else changes",
        Row::El1 =>
            b"the cells from the start of the row to the cursor are blank, and nothing else changes",
        Row::Ed =>
            b"the cells from the cursor to the end of the screen are blank, and nothing else changes",
        Row::Ind =>
            b"the scrolling region moves up by one line, the last one is blank, and nothing else changes",
        Row::Ri =>
            b"the scrolling region moves down by one line, the first one is blank, and nothing else changes",
        Row::Bel => b"nothing changes",
        Row::Cup(_, _) | Row::Csr(_, _) | Row::Hpa(_) | Row::Vpa(_) | Row::Cub(_) => b"",
        Row::Cuf(_) | Row::Cuu(_) | Row::Cud(_) | Row::Ech(_) | Row::Setaf(_) => b"",
        Row::Setab(_) | Row::Sgr(_) | Row::Sgr0 | Row::Op | Row::Smul | Row::Rev => b"",
        Row::Blink | Row::Dim | Row::Bold | Row::Invis | Row::Smso | Row::Enacs => b"",
        Row::Smacs | Row::Rmacs | Row::Civis | Row::Cnorm | Row::Cvvis | Row::Smcup => b"",
        Row::Rmcup => b"",
    }
}

/// Appends the wanted result of `sgr` and of the rows of `look_words`; nothing for other rows.
fn push_look(alloc: Global, row: Row, words: &mut Vec<u8>) -> Pushed
    ensures { OnOk result (words.new.items ≡ words.old.items ++ spec.look_text row) }
{
    match row {
        Row::Sgr(attributes) => push_attributes(alloc, attributes, words),
        Row::Cup(_, _) | Row::Csr(_, _) => words.extend_from_slice(look_words(row)),
        Row::Hpa(_) | Row::Vpa(_) | Row::Cub(_) => words.extend_from_slice(look_words(row)),
        Row::Cuf(_) | Row::Cuu(_) | Row::Cud(_) => words.extend_from_slice(look_words(row)),
        Row::Ech(_) | Row::Setaf(_) | Row::Setab(_) => words.extend_from_slice(look_words(row)),
        Row::Clear | Row::Home | Row::Cr => words.extend_from_slice(look_words(row)),
        Row::Cub1 | Row::Cuf1 | Row::Cuu1 => words.extend_from_slice(look_words(row)),
        Row::Cud1 | Row::El | Row::El1 | Row::Ed => words.extend_from_slice(look_words(row)),
        Row::Ind | Row::Ri | Row::Bel | Row::Sgr0 => words.extend_from_slice(look_words(row)),
        Row::Op | Row::Smul | Row::Rev | Row::Blink => words.extend_from_slice(look_words(row)),
        Row::Dim | Row::Bold | Row::Invis => words.extend_from_slice(look_words(row)),
        Row::Smso | Row::Enacs | Row::Smacs => words.extend_from_slice(look_words(row)),
        Row::Rmacs | Row::Civis | Row::Cnorm => words.extend_from_slice(look_words(row)),
        Row::Cvvis | Row::Smcup | Row::Rmcup => words.extend_from_slice(look_words(row)),
    }
}

/// Appends the wanted result of `sgr` with these `attributes`.
fn push_attributes(alloc: Global, attributes: Attributes, words: &mut Vec<u8>) -> Pushed
    ensures { OnOk result (words.new.items ≡ words.old.items ++ spec.attributes_text attributes) }
{
    let names = names_or_none(alloc, attributes)?;
    push_listed(names.as_slice(), words)
}

/// Appends the words that only the renditions of the attributes with these `names` are on.
fn push_listed(names: &[u8], words: &mut Vec<u8>) -> Pushed
    ensures { OnOk result (words.new.items ≡ words.old.items ++ spec.listed_text names.now) }
{
    words.extend_from_slice(b"just the renditions of these attributes are on:")?;
    words.extend_from_slice(names)?;
    words.extend_from_slice(b"; both colors stay or become default, and cells and cursor stay")
}

/// The names of `attributes`, or the word for none.
fn names_or_none(alloc: Global, attributes: Attributes) -> Made
    ensures { IfOk result (λ names. names.items ≡ spec.or_none (spec.names_text attributes)) }
{
    let mut names = Vec::new(alloc);
    push_names(attributes, &mut names)?;
    if names.is_empty() {
        names.extend_from_slice(b" none")?;
    }
    Ok(names)
}

#[tactic(auto, unfolding(crate::specs::Wanted::names_text))]
fn push_names(attributes: Attributes, names: &mut Vec<u8>) -> Pushed
    ensures { OnOk result (names.new.items ≡ names.old.items ++ spec.names_text attributes) }
{
    push_flags!(attributes, names;
        standout b" standout", underline b" underline", reverse b" reverse", blink b" blink",
        dim b" dim", bold b" bold", invisible b" invisible"
    );
    Ok(())
}

/// The wanted result of renditions and colors without parameters, of character sets, of the cursor's visibility, and of
/// the strings that begin and end a program's screen; empty for other rows.
fn look_words(row: Row) -> &'static [u8]
    ensures { result.now ≡ spec.fixed_look_text row }
{
    match row {
        Row::Sgr0 => b"no rendition is on, both colors are default, and cells and cursor stay",
        Row::Op => b"both colors are default, and nothing else changes",
        Row::Smul => b"underlined is on, and no other rendition changes",
        Row::Rev => b"reverse is on, and no other rendition changes",
        Row::Blink => b"blinking is on, and no other rendition changes",
        Row::Dim => b"dim is on, and no other rendition changes",
        Row::Bold => b"bold is on, and no other rendition changes",
        Row::Invis => b"invisible is on, and no other rendition changes",
        Row::Smso => b"renditions may go on and none goes off, and colors, cells and cursor stay",
        Row::Enacs => b"nothing but the character sets changes",
        Row::Smacs => b"the line drawing set is active, and nothing but the character sets changes",
        Row::Rmacs => b"the plain set is active, and nothing but the character sets changes",
        Row::Civis => b"the cursor is hidden, and nothing else changes",
        Row::Cnorm => b"the cursor is visible, and nothing else changes",
        Row::Cvvis => b"nothing changes, but that the cursor may become visible",
        Row::Smcup | Row::Rmcup => AROUND,
        Row::Cup(_, _) | Row::Csr(_, _) | Row::Hpa(_) | Row::Vpa(_) | Row::Cub(_) => b"",
        Row::Cuf(_) | Row::Cuu(_) | Row::Cud(_) | Row::Ech(_) | Row::Setaf(_) => b"",
        Row::Setab(_) | Row::Clear | Row::Home | Row::Cr | Row::Cub1 | Row::Cuf1 => b"",
        Row::Cuu1 | Row::Cud1 | Row::El | Row::El1 | Row::Ed | Row::Ind | Row::Ri => b"",
        Row::Bel | Row::Sgr(_) => b"",
    }
}

const AROUND: &[u8] =
    b"cells change by one erasure at most, and the scrolling region and the cursor's visibility stay";
