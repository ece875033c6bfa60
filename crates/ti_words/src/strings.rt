//! Explanations why a string can't be read, expanded or run.

use std::alloc::{AllocError, Global};
use ti_files::{Pushed, Remarks};
use ti_parm::ParmFault;
use ti_source::EscapeFault;
use vt_term::{TokenFault, TokenFaultKind, tokens};

/// Explains that the terminal has no meaning for the byte `at` of `bytes`, which come from `what`.
pub fn explain_stuck(alloc: Global, what: &[u8], bytes: &[u8], at: usize, remarks: &mut Remarks) {
    let words = match bytes.get(at) {
        Some(byte) if *byte > 127 => {
            format!(in alloc;
                ": byte {at} is {byte}, and the terminal takes 7-bit text, bytes 0 to 127"
            )
        }
        Some(byte) => {
            format!(in alloc;
                ": byte {at} is {byte}, which does not continue the sequence before it"
            )
        }
        None => return,
    };
    if let Ok(words) = words {
        remarks.add(what, words.as_bytes());
    }
}

/// Explains why the bytes `sent` by a string are not whole.
pub fn explain_token(alloc: Global, sent: &[u8], fault: TokenFault, remarks: &mut Remarks) {
    let at = fault.at;
    match fault.kind {
        TokenFaultKind::Stuck => explain_stuck(alloc, b"the bytes sent", sent, at, remarks),
        TokenFaultKind::Unfinished => {
            if let Ok(words) = format!(in alloc;
                ": the sequence that begins at byte {at} is not complete"
            ) {
                remarks.add(b"the bytes sent", words.as_bytes());
            }
        }
        TokenFaultKind::NoMemory => {}
    }
}

/// Explains why the bytes `sent` by a checked string are not whole. Adds nothing if they are.
pub fn explain_whole(alloc: Global, sent: &[u8], remarks: &mut Remarks) -> Pushed {
    let fault = match tokens(alloc, sent) {
        Ok(_) => return Ok(()),
        Err(fault) => fault,
    };
    let text = token_words(alloc, sent, fault)?;
    remarks.add_words(text.as_bytes());
    Ok(())
}

fn token_words(alloc: Global, sent: &[u8], fault: TokenFault) -> Result<String, AllocError> {
    let at = fault.at;
    match (fault.kind, sent.get(at)) {
        (TokenFaultKind::Unfinished, _) => format!(in alloc;
            "the sequence that begins at byte {at}, counted from 0, is not complete: what a program prints next \
             becomes part of it"
        ),
        (TokenFaultKind::Stuck, Some(byte)) => format!(in alloc;
            "byte {at}, counted from 0, is {byte}: it is neither 7-bit text nor part of a sequence, and terminals \
             differ in what they do with it"
        ),
        _ => Err(AllocError),
    }
}

/// Explains why the escapes of STRING can't be read.
pub fn explain_escape(fault: EscapeFault, remarks: &mut Remarks) {
    match fault {
        EscapeFault::BadEscape => remarks.add(
            b"STRING",
            b" ends within an escape, or has a `^` before a comma",
        ),
        EscapeFault::TooLong => remarks.add(b"STRING", b" stands for more than 4095 bytes"),
        EscapeFault::NoMemory => {}
    }
}

/// Explains why STRING can't be expanded.
pub fn explain_parm(fault: ParmFault, remarks: &mut Remarks) {
    if fault != ParmFault::NoMemory {
        remarks.add(b"STRING", parm_words(fault));
    }
}

/// The reason why a string can't be expanded, if its parameters can be numbers and texts.
pub fn parm_words(fault: ParmFault) -> &'static [u8] {
    match fault {
        ParmFault::Underflow => b" has a code that takes a value from the empty stack",
        ParmFault::BadNest => b" has a conditional that does not have the form %? %t %e %;",
        ParmFault::BadCode => b" has a `%` that does not begin a code",
        ParmFault::Overflow => b" has a result that does not fit into 32 bits",
        ParmFault::BadChar => b" writes by %c a number that is not 0 to 255",
        ParmFault::WrongKind => b" takes a text for a number, or a number for a text",
        ParmFault::NoMemory => b" can't be expanded",
    }
}
