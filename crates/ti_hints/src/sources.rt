//! Explanations why a file gives no entry: faults of a source text, of resolving, and of a compiled file.

use crate::fields::{FieldText, faulty_field, line_of};
use std::alloc::Global;
use ti_caps::{Kind, by_name, kind};
use ti_compiled::PackFault;
use ti_files::Remarks;
use ti_resolve::ResolveFault;
use ti_source::{FaultKind, SourceFault};

/// Explains the fault of the source text `text` at `path`, with the field that has it, if it is the fault of one field.
pub fn explain_source(
    alloc: Global,
    path: &str,
    text: &[u8],
    fault: SourceFault,
    remarks: &mut Remarks,
) {
    let line = fault.line;
    let words = fault_words(fault.kind);
    match faulty_field(line_of(text, line), fault.kind) {
        Some(field) => {
            let form = form_words(&field);
            if let Ok(words) = format!(in alloc; " in line {line} of {path}: {words}{form}") {
                remarks.add(field.text, words.as_bytes());
            }
        }
        None => {
            if let Ok(words) = format!(in alloc; ", line {line}: {words}") {
                remarks.add(path.as_bytes(), words.as_bytes());
            }
        }
    }
}

fn fault_words(kind: FaultKind) -> &'static str {
    match kind {
        FaultKind::NoName => {
            "an entry begins in the first column with its names, of bytes 32 and above; its further lines begin \
             with a space or tab"
        }
        FaultKind::WrongKind => "this capability is of another kind; it is written ",
        FaultKind::BadNumber => {
            "the number is neither decimal, nor 0x and hexadecimal digits, nor 0 and octal digits"
        }
        FaultKind::NumberRange => "the number is above 2147483647",
        FaultKind::OpenField => {
            "a field ends with a comma on its own line; ncurses writes source text in this form by `infocmp -1` and \
             `tic -I -1`"
        }
        FaultKind::BadEscape => "a `\\` or `^` ends its field or line",
        FaultKind::TooLong => "the names or a string have more than 4095 bytes",
        FaultKind::NoMemory => "out of memory",
    }
}

/// The form in which the capability of `field` is written, if `field` has the form of another kind.
fn form_words(field: &FieldText<'_>) -> &'static str {
    if field.is_number() {
        return "";
    }
    match by_name(field.name) {
        Some(cap) => match kind(cap) {
            Kind::Flag => "as its name alone",
            Kind::Number => "as NAME#NUMBER",
            Kind::String => "as NAME=STRING",
        },
        None => "",
    }
}

/// Explains why the source text at `path` doesn't give the entry.
pub fn explain_resolving(alloc: Global, path: &str, fault: &ResolveFault, remarks: &mut Remarks) {
    let (name, words) = match fault {
        ResolveFault::NoSuchEntry(name) => (name, " is not the name of an entry in "),
        ResolveFault::Cycle(name) => (name, " uses itself, perhaps through other entries, in "),
        ResolveFault::TooMany(name) => (
            name,
            " is the 65th entry that is used, and 64 are allowed, in ",
        ),
        ResolveFault::NoMemory => return,
    };
    if let Ok(words) = format!(in alloc; "{words}{path}") {
        remarks.add(name.as_slice(), words.as_bytes());
    }
}

/// Explains the fault of the compiled file `file` at `path`.
pub fn explain_packed(path: &str, file: &[u8], fault: PackFault, remarks: &mut Remarks) {
    remarks.add(path.as_bytes(), packed_words(fault, file));
}

fn packed_words(fault: PackFault, file: &[u8]) -> &'static [u8] {
    match fault {
        PackFault::Short => b" ends within the header or a section of a compiled terminfo file",
        PackFault::BadMagic if is_text(file) => {
            b" looks like terminfo source text: one of its entries is named as FILE:NAME"
        }
        PackFault::BadMagic =>
            b" is not a compiled terminfo file: it begins with neither 1a 01 nor 1e 02",
        PackFault::BadCount =>
            b" has a negative size, or more flags, numbers or strings than there are capabilities",
        PackFault::BadFlag => b" has a flag that is neither 0, 1 nor -2",
        PackFault::BadNumber => b" has a negative number other than -1 and -2",
        PackFault::BadOffset => b" has the offset of a string outside the table of strings",
        PackFault::NoNul => b" has names or a string without a 0 at the end",
        PackFault::TooLarge => b" has a string of more than 4095 bytes",
        PackFault::NoMemory => b": out of memory",
        PackFault::BadNames => b" has names that can't stand in a source text",
    }
}

/// Whether `file` has only bytes that source text can have.
fn is_text(file: &[u8]) -> bool {
    !file.is_empty()
        && file.iter().all(|byte| *byte >= 32 || matches!(*byte, b'\t' | b'\n' | b'\r'))
}

/// Explains that the compiled file for `path` would be too large.
pub fn explain_large(path: &str, remarks: &mut Remarks) {
    remarks.add(
        path.as_bytes(),
        b": the compiled file would have more than 4096 bytes, or than 32768 where a number is above 32767",
    );
}
