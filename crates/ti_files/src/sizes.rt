//! Words that several commands take: numbers, and the terminal's size.

ghost use Rattle.std.specs.Prelude.{◌≡◌, ◌↔◌, IfErr, IfOk, IsOk};
ghost use Rattle.vt_term.specs.Size.{IsSize};
ghost use Rattle.ti_files.specs.{Failures.{IsUsageError, WrongNumber, number_usage}, Sizes.{LacksSize, SizeGiven}};
ghost use Rattle.ti_files.specs.Words.{GivesNumber};

use crate::Remarks;
use crate::decimal::decimal_number;
use crate::failure::{CommandRefusal, Failure};
use std::alloc::Global;
use vt_term::Size;

/// The number that `word` gives. Fails if it gives none; `name` is the argument's name for the message.
pub fn number_word(alloc: Global, name: &str, word: &str) -> Result<u32, Failure>
    ensures number { IfOk result (λ n. GivesNumber word.now n) }
    ensures failure { IfErr result (λ e. WrongNumber name.now word.now e) }
{
    match decimal_number(word) {
        Some(number) => Ok(number),
        None => Err(not_a_number(alloc, name, word)),
    }
}

/// The size of a terminal with `rows` and `cols`; refused if no terminal has it.
pub fn size_of(alloc: Global, rows: u32, cols: u32, remarks: &mut Remarks) -> Result<Size, Failure>
    ensures size { IfOk result (λ size. (size.rows ≡ rows) × (size.cols ≡ cols)) }
    ensures within { IsOk result ↔ IsSize rows cols }
    ensures refusal { IfErr result (λ e. e ≡ Failure.Refused CommandRefusal.Size) }
{
    match Size::new(rows as usize, cols as usize) {
        Some(size) => Ok(size),
        None => {
            explain_size(alloc, rows, cols, remarks);
            Err(Failure::Refused(CommandRefusal::Size))
        }
    }
}

/// The terminal's size that `rows` and `cols` give, which are the words ROWS and COLS of the line.
pub fn size_words(
    alloc: Global,
    rows: &str,
    cols: &str,
    remarks: &mut Remarks,
) -> Result<Size, Failure>
    ensures size { IfOk result (λ size. SizeGiven rows.now cols.now size.rows size.cols) }
    ensures failure { IfErr result (λ e. LacksSize rows.now cols.now e) }
{
    let height = number_word(alloc, "ROWS", rows)?;
    let width = number_word(alloc, "COLS", cols)?;
    size_of(alloc, height, width, remarks)
}

/// The failure of `word`, which was given for the number `name`.
fn not_a_number(alloc: Global, name: &str, word: &str) -> Failure
    ensures { IsUsageError (number_usage name.now word.now) result }
{
    let text = format!(in alloc;
        "error: invalid value '{word}' for {name}: a decimal number up to 2147483647 is wanted\n\n\
         For more information, try '--help'.\n"
    );
    match text {
        Ok(text) => Failure::Usage(text),
        Err(_) => Failure::NoMemory,
    }
}

/// Explains the allowed sizes, for `rows` and `cols` that aren't one.
fn explain_size(alloc: Global, rows: u32, cols: u32, remarks: &mut Remarks) {
    if let Ok(size) = format!(in alloc; "{rows} by {cols}") {
        remarks.add(
            size.as_bytes(),
            b": a terminal has 2 to 200 rows and 2 to 500 columns",
        );
    }
}
