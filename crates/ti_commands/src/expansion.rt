//! The command `expand`.

ghost use Rattle.std.specs.{Prelude.{◌≡◌, ◌⊎◌, IfErr, IfNone, IfOk, IfSome}, String.{string_bytes}};
ghost use Rattle.ti_parm.specs.{Meaning.{sent}, Value.{Value, value_of, values_of}};
ghost use Rattle.ti_conforms.specs.CupReach.{IsWhole};
ghost use Rattle.ti_commands.specs.Expansions.{FailsToExpand, IsExpanded, JudgesCup, Shows, ShowsAll, ShowsCursor};
ghost use Rattle.ti_commands.specs.Expansions.{IsParmFailure, cursor_line, escape_failure, hex_line, no_line};
ghost use Rattle.ti_files.specs.Failures.{IsUsageError, WrongParam, param_usage};
ghost use Rattle.ti_files.specs.Words.{GiveParams, GivesParam, texts_of};

use smallvec::SmallVec;
use std::alloc::{AllocError, Global};
use ti_conforms::{MissKind, reach_cup};
use ti_files::{
    CommandRefusal, Failure, Remarks, Replied, Reply, decimal_number, number_word, size_of,
};
use ti_parm::{Param, ParmFault};
use ti_requests::ExpandWords;
use ti_source::{EscapeFault, unescape};
use ti_words::{explain_escape, explain_parm, explain_token};
use vt_term::{Size, Terminal, TokenFaultKind, tokens};

/// The parameters of one string: up to nine take no memory.
type Params<'a> = SmallVec<Param<'a>, 9>;

/// Expands the string of the `words` and shows where it leaves the cursor of a blank terminal. Further lines go to
/// `remarks`.
pub fn expand_string(alloc: Global, words: &ExpandWords<'_>, remarks: &mut Remarks) -> Replied
    ensures reply { IfOk result (λ reply. IsExpanded words.now reply) }
    ensures failure { IfErr result (λ e. FailsToExpand words.now e) }
{
    let rows = number_word(alloc, "ROWS", words.rows)?;
    let cols = number_word(alloc, "COLS", words.cols)?;
    let params = read_params(alloc, words.params.as_slice())?;
    let size = size_of(alloc, rows, cols, remarks)?;
    let string = match unescape(alloc, words.string.as_bytes()) {
        Ok(string) => string,
        Err(fault) => {
            explain_escape(fault, remarks);
            return Err(escape_failure(fault));
        }
    };
    let sent = send(alloc, string.as_slice(), params.as_slice(), remarks)?;
    let shown = show(
        alloc,
        size,
        string.as_slice(),
        sent.as_slice(),
        words.judges_cup,
        remarks,
    )?;
    Ok(shown)
}

/// The reply about the bytes `sent` by `string`.
fn show(
    alloc: Global,
    size: Size,
    string: &[u8],
    sent: &[u8],
    judges_cup: bool,
    remarks: &mut Remarks,
) -> Result<Reply, AllocError>
    ensures { IfOk result (λ reply. Shows judges_cup size.rows size.cols string.now sent.now reply) }
{
    match tokens(alloc, sent) {
        Ok(_) => Ok(Reply::of_text(alloc, whole_text(alloc, size, string, sent, judges_cup)?)),
        Err(fault) => match fault.kind {
            TokenFaultKind::NoMemory => Err(AllocError),
            TokenFaultKind::Unfinished | TokenFaultKind::Stuck => {
                explain_token(alloc, sent, fault, remarks);
                Ok(Reply {
                    notes: Vec::new(alloc),
                    text: hex_line(alloc, sent)?,
                    failure: Some(Failure::Refused(CommandRefusal::Token(fault))),
                })
            }
        },
    }
}

/// The lines about the bytes `sent` by `string`, which must be a whole text; the line about `cup`
/// comes last, if `judges_cup`.
fn whole_text(
    alloc: Global,
    size: Size,
    string: &[u8],
    sent: &[u8],
    judges_cup: bool,
) -> Result<Vec<u8>, AllocError>
    requires { IsWhole sent.now }
    ensures { IfOk result (λ text. ShowsAll judges_cup size.rows size.cols string.now sent.now text.items) }
{
    let mut text = hex_line(alloc, sent)?;
    let cursor = cursor_line(alloc, size, sent)?;
    text.extend_from_slice(cursor.as_bytes())?;
    if judges_cup {
        let cup = cup_line(alloc, string, size)?;
        text.extend_from_slice(cup.as_bytes())?;
    }
    Ok(text)
}

/// The bytes `sent` in hexadecimal, on a line.
fn hex_line(alloc: Global, sent: &[u8]) -> Result<Vec<u8>, AllocError>
    ensures { IfOk result (λ text. text.items ≡ hex_line sent.now) }
{
    let mut text = hex::encode(alloc, sent)?;
    text.push('\n')?;
    Ok(text.into_bytes())
}

/// The bytes that `string` sends: its expansion with `params`, without delays.
fn send(
    alloc: Global,
    string: &[u8],
    params: &[Param<'_>],
    remarks: &mut Remarks,
) -> Result<Vec<u8>, Failure>
    ensures bytes { IfOk result (λ bytes. sent string.now (values_of params.now) ≡ Ok bytes.items) }
    ensures failure { IfErr result (λ e. IsParmFailure string.now (values_of params.now) e) }
{
    let mut bytes = Vec::new(alloc);
    match ti_parm::sent(alloc, string, params, &mut bytes) {
        Ok(()) => Ok(bytes),
        Err(ParmFault::NoMemory) => Err(Failure::NoMemory),
        Err(fault) => {
            explain_parm(fault, remarks);
            Err(Failure::Refused(CommandRefusal::Parm(fault)))
        }
    }
}

/// The line that says where the bytes `sent` leave the cursor.
fn cursor_line(alloc: Global, size: Size, sent: &[u8]) -> Result<String, AllocError>
    requires { IsWhole sent.now }
    ensures { IfOk result (λ line. ShowsCursor size.rows size.cols sent.now (string_bytes line)) }
{
    let mut terminal = Terminal::new(alloc, size)?;
    let _whole = terminal.feed(sent);
    let (row, col) = terminal.cursor();
    place_line(alloc, row, col)
}

fn place_line(alloc: Global, row: usize, col: usize) -> Result<String, AllocError>
    ensures { IfOk result (λ line. string_bytes line ≡ cursor_line row col) }
{
    format!(in alloc; "cursor {row} {col}\n")
}

/// The line that says whether `string` serves as `cup`.
fn cup_line(alloc: Global, string: &[u8], size: Size) -> Result<String, AllocError>
    ensures { IfOk result (λ line. JudgesCup string.now size.rows size.cols (string_bytes line)) }
{
    match reach_cup(alloc, string, size) {
        Ok(()) => String::from_str(alloc, "cup yes\n"),
        Err(miss) => match miss.kind {
            MissKind::NoMemory => Err(AllocError),
            MissKind::Parm | MissKind::Token | MissKind::Misses | MissKind::Undecided => {
                miss_line(alloc, miss.row, miss.col)
            }
        },
    }
}

fn miss_line(alloc: Global, row: usize, col: usize) -> Result<String, AllocError>
    ensures { IfOk result (λ line. string_bytes line ≡ no_line row col) }
{
    format!(in alloc; "cup no {row} {col}\n")
}

fn escape_failure(fault: EscapeFault) -> Failure
    ensures { result ≡ escape_failure fault }
{
    match fault {
        EscapeFault::NoMemory => Failure::NoMemory,
        EscapeFault::BadEscape | EscapeFault::TooLong => {
            Failure::Refused(CommandRefusal::Escape(fault))
        }
    }
}

/// The parameters that the `words` give.
fn read_params<'a>(alloc: Global, words: &[&'a str]) -> Result<Params<'a>, Failure>
    ensures params { IfOk result (λ params. GiveParams (texts_of words.now) (values_of params.items)) }
    ensures failure { IfErr result (λ e. WrongParam (texts_of words.now) e ⊎ (e ≡ Failure.NoMemory)) }
{
    let mut params = SmallVec::new(alloc);
    for word in words {
        match parameter(word) {
            Some(param) => params.push(param)?,
            None => return Err(not_a_parameter(alloc, word)),
        }
    }
    Ok(params)
}

/// The parameter that `word` gives: the text after `s:`, or a decimal number.
fn parameter<'a>(word: &'a str) -> Option<Param<'a>>
    ensures param { IfSome result (λ param. GivesParam word.now (value_of param)) }
    ensures none { IfNone result ((value : Value) → GivesParam word.now value → ⊥) }
{
    match word.strip_prefix("s:") {
        Some(text) => Some(Param::Text(text.as_bytes())),
        None => match decimal_number(word) {
            Some(number) => Some(Param::Number(number as i32)),
            None => None,
        },
    }
}

/// The failure of `word`, which is no parameter.
fn not_a_parameter(alloc: Global, word: &str) -> Failure
    ensures { IsUsageError (param_usage word.now) result }
{
    let text = format!(in alloc;
        "error: invalid value '{word}' for PARAM: a decimal number up to 2147483647, or s: and a text, is wanted\n\n\
         For more information, try '--help'.\n"
    );
    match text {
        Ok(text) => Failure::Usage(text),
        Err(_) => Failure::NoMemory,
    }
}
