//! The ENTRY words of a line: an entry of a source file, or a compiled file.

ghost use Rattle.std.specs.Prelude.{◌≡◌, ◌<◌, ◌++◌, [], length, IfErr, IfNone, IfOk, IfSome, Ok, OnOk};
ghost use Rattle.std.specs.List.{AllByRecursion, flat_map};
ghost use Rattle.ti_source.specs.{Raw.{IsRaw}, Source.{source_of}};
ghost use Rattle.ti_files.specs.Contents.{HasBytes, longest_file};
ghost use Rattle.ti_commands.specs.Findings.{FailsInFile, FailsInSource, FailsToFind, Finds, FitsTo, IsOfFile};
ghost use Rattle.ti_commands.specs.Findings.{IsOfSource, IsOfText, IsPath, IsPathAndName, ResolvesAt, ResolvesTo};
ghost use Rattle.ti_commands.specs.Findings.{IsPackFailure, IsSourceFailure, note_line, note_name, notes_text};
ghost use Rattle.ti_commands.specs.Further.{together_in};

use crate::further::{PutTogether, put_together};
use std::alloc::{AllocError, Global};
use ti_caps::Entry;
use ti_compiled::{PackFault, Packed, decode};
use ti_files::{CommandRefusal, Failure, Files, LONGEST_FILE, Remarks, read_whole};
use ti_hints::{explain_packed, explain_resolving, explain_source};
use ti_resolve::{ResolveFault, resolve, resolve_at};
use ti_source::{Note, NoteKind, RawEntry, read};

/// The most bytes of a compiled file.
const COMPILED_LIMIT: u32 = 131_072;

/// The file and the entry that an ENTRY word gives.
#[derive(Drop)]
pub struct Found {
    /// The text of the source file; empty for a compiled file.
    pub text: Vec<u8>,
    /// A line for each note of that text.
    pub notes: Vec<u8>,
    /// All entries of that text as they were read, and those of the files of `--with` behind them; none for a compiled
    /// file.
    pub all: PutTogether,
    /// The entry, or the reason why there is none.
    pub entry: Result<Entry, CommandRefusal>,
}

/// The result of a search for an entry: what it found, or why the files couldn't be read.
type Finding = Result<Found, Failure>;

/// Reads the file that `word` names, and finds or unpacks its entry.
pub fn find_entry<F: Files>(
    alloc: Global,
    files: &mut F,
    word: &str,
    remarks: &mut Remarks,
) -> Finding
    ensures found { IfOk result
        (λ found. Finds (F.holds files.old) word.now found.notes.items found.entry) }
    ensures failure { IfErr result (λ e. FailsToFind (F.holds files.old) word.now e) }
    ensures kept { F.holds files.new ≡ F.holds files.old }
{
    match path_and_name(word) {
        Some((path, name)) => find_in_source(alloc, files, path, name, remarks),
        None => unpack(alloc, files, word, remarks),
    }
}

/// The parts of `word`, as FILE:NAME, split at its last colon.
pub(crate) fn path_and_name(word: &str) -> Option<(&str, &str)>
    ensures parts { IfSome result (λ parts. IsPathAndName word.now parts.0.now parts.1.now) }
    ensures whole { IfNone result (IsPath word.now) }
{
    word.rsplit_once(':')
}

/// Reads the source file at `path` and the files of `--with`, and finds the entry `name` in them.
pub(crate) fn find_in_source<F: Files>(
    alloc: Global,
    files: &mut F,
    path: &str,
    name: &str,
    remarks: &mut Remarks,
) -> Finding
    ensures found { IfOk result (λ found. HasBytes ((F.holds files.old).at path.now) longest_file
        (λ bytes. IsOfSource (F.holds files.old) bytes name.now found.notes.items found.entry)) }
    ensures text { IfOk result (λ found. IsOfText (F.holds files.old) path.now name.now found.text.items
        (together_in found.all) found.entry) }
    ensures fit { IfOk result (λ found. AllByRecursion IsRaw found.all.raws.items) }
    ensures failure { IfErr result (λ e. FailsInSource (F.holds files.old) path.now e) }
    ensures kept { F.holds files.new ≡ F.holds files.old }
{
    let text = read_whole(alloc, files, path, LONGEST_FILE, remarks)?;
    let own = own_entries(alloc, path, text.as_slice(), remarks)?;
    let notes = note_lines(alloc, own.as_slice())?;
    let all = put_together(alloc, files, own, remarks)?;
    let entry = resolved_entry(alloc, all.raws.as_slice(), name.as_bytes())?;
    if let Err(CommandRefusal::Resolve(fault)) = &entry {
        explain_resolving(alloc, path, fault, remarks);
        if all.files.is_empty() {
            hint_with(name.as_bytes(), fault, remarks);
        }
    }
    Ok(Found {
        text,
        notes,
        all,
        entry,
    })
}

/// Says which option would help if an entry that another one uses is in another file; the `asked` entry itself is
/// sought in the file that the line names.
fn hint_with(asked: &[u8], fault: &ResolveFault, remarks: &mut Remarks) {
    if let ResolveFault::NoSuchEntry(name) = fault {
        if name.as_slice() != asked {
            remarks.add_words(
                b"check, infocmp, survey, tic and verify take --with FILE, a file whose entries can be used too",
            );
        }
    }
}

/// The entries of the source text `text` at `path`, whose fault `remarks` explain.
fn own_entries(
    alloc: Global,
    path: &str,
    text: &[u8],
    remarks: &mut Remarks,
) -> Result<Vec<RawEntry>, Failure>
    ensures reads { IfOk result (λ raws. source_of text.now ≡ Ok raws.items) }
    ensures fit { IfOk result (λ raws. AllByRecursion IsRaw raws.items) }
    ensures failure { IfErr result (λ e. IsSourceFailure text.now e) }
{
    let fault = match read(alloc, text) {
        Ok(raws) => return Ok(raws),
        Err(fault) => fault,
    };
    fault.kind.must_claim()?;
    explain_source(alloc, path, text, fault, remarks);
    Err(Failure::Refused(CommandRefusal::Source(fault)))
}

/// The entry named `name` in `raws`, or the reason why there is none.
fn resolved_entry(
    alloc: Global,
    raws: &[RawEntry],
    name: &[u8],
) -> Result<Result<Entry, CommandRefusal>, AllocError>
    requires { AllByRecursion IsRaw raws.now }
    ensures { IfOk result (λ entry. ResolvesTo raws.now name.now entry) }
{
    match resolve(alloc, raws, name) {
        Ok(entry) => Ok(Ok(entry)),
        Err(ResolveFault::NoMemory) => Err(AllocError),
        Err(fault) => Ok(Err(CommandRefusal::Resolve(fault))),
    }
}

/// The entry at `place` in `raws`, or the reason why it can't be resolved. An earlier entry with
/// the same names doesn't matter.
pub fn entry_at(
    alloc: Global,
    raws: &[RawEntry],
    place: usize,
) -> Result<Result<Entry, CommandRefusal>, AllocError>
    requires read { AllByRecursion IsRaw raws.now }
    requires there { place < length raws.now }
    ensures { IfOk result (λ entry. ResolvesAt raws.now place entry) }
{
    match resolve_at(alloc, raws, place) {
        Ok(entry) => Ok(Ok(entry)),
        Err(ResolveFault::NoMemory) => Err(AllocError),
        Err(fault) => Ok(Err(CommandRefusal::Resolve(fault))),
    }
}

/// A line for each note of `raws`, in the order of the file.
pub fn note_lines(alloc: Global, raws: &[RawEntry]) -> Result<Vec<u8>, AllocError>
    ensures { IfOk result (λ lines. lines.items ≡ notes_text raws.now) }
{
    let mut lines = Vec::new(alloc);
    for raw in raws {
        push_notes(alloc, raw.notes.as_slice(), &mut lines)?;
    }
    Ok(lines)
}

/// Appends a line for each of the `notes` to `lines`.
fn push_notes(alloc: Global, notes: &[Note], lines: &mut Vec<u8>) -> Result<(), AllocError>
    ensures { OnOk result (lines.new.items ≡ lines.old.items ++ flat_map note_line notes.now) }
{
    for note in notes {
        push_note(alloc, *note, lines)?;
    }
    Ok(())
}

fn push_note(alloc: Global, note: Note, lines: &mut Vec<u8>) -> Result<(), AllocError>
    ensures { OnOk result (lines.new.items ≡ lines.old.items ++ note_line note) }
{
    let number = note.line;
    let name = note_name(note.kind);
    let line = format!(in alloc; "note line {number}: {name}\n")?;
    lines.extend_from_slice(line.as_bytes())
}

/// The kind's name as notes print it.
fn note_name(kind: NoteKind) -> &'static str
    ensures { result.now ≡ note_name kind }
{
    match kind {
        NoteKind::UnknownName => "UnknownName",
        NoteKind::Duplicate => "Duplicate",
        NoteKind::OddEscape => "OddEscape",
    }
}

/// Reads the compiled file at `path`, and unpacks its entry.
fn unpack<F: Files>(alloc: Global, files: &mut F, path: &str, remarks: &mut Remarks) -> Finding
    ensures found { IfOk result (λ found. HasBytes ((F.holds files.old).at path.now) 131072
        (λ bytes. IsOfFile bytes found.notes.items found.entry)) }
    ensures failure { IfErr result (λ e. FailsInFile (F.holds files.old) path.now e) }
    ensures kept { F.holds files.new ≡ F.holds files.old }
{
    let file = read_whole(alloc, files, path, COMPILED_LIMIT, remarks)?;
    let entry = unpack_file(alloc, file.as_slice());
    if let Some(fault) = pack_fault(&entry) {
        explain_packed(path, file.as_slice(), fault, remarks);
    }
    Ok(Found {
        text: Vec::new(alloc),
        notes: Vec::new(alloc),
        all: PutTogether {
            raws: Vec::new(alloc),
            files: Vec::new(alloc),
            counts: Vec::new(alloc),
        },
        entry: entry?,
    })
}

/// The fault of a compiled file that is in the answer `entry`, if there is one.
fn pack_fault(entry: &Result<Result<Entry, CommandRefusal>, Failure>) -> Option<PackFault> {
    match entry {
        Ok(Ok(_)) => None,
        Ok(Err(refusal)) => fault_in(refusal),
        Err(Failure::Refused(refusal)) => fault_in(refusal),
        Err(Failure::RefusedUnwritten(refusal)) => fault_in(refusal),
        Err(Failure::Usage(_) | Failure::File(_) | Failure::Output | Failure::NoMemory) => None,
    }
}

/// The fault of a compiled file, if the `refusal` is about one.
fn fault_in(refusal: &CommandRefusal) -> Option<PackFault> {
    match refusal {
        CommandRefusal::Pack(fault) => Some(*fault),
        CommandRefusal::Size | CommandRefusal::Escape(_) | CommandRefusal::Parm(_) => None,
        CommandRefusal::Token(_) | CommandRefusal::Stuck(_) | CommandRefusal::Source(_) => None,
        CommandRefusal::Resolve(_) | CommandRefusal::Verdict(_) => None,
    }
}

/// The entry of the compiled file `file`, or the reason why there is none.
fn unpack_file(alloc: Global, file: &[u8]) -> Result<Result<Entry, CommandRefusal>, Failure>
    ensures found { IfOk result (λ entry. IsOfFile file.now [] entry) }
    ensures failure { IfErr result (λ e. IsPackFailure file.now e) }
{
    match decode(file) {
        Ok(packed) => Ok(unpacked_entry(alloc, &packed)?),
        Err(fault) => Err(Failure::Refused(CommandRefusal::Pack(fault))),
    }
}

/// The entry of `packed`, or the reason why there is none.
pub fn unpacked_entry(
    alloc: Global,
    packed: &Packed<'_>,
) -> Result<Result<Entry, CommandRefusal>, AllocError>
    ensures { IfOk result (λ entry. FitsTo packed.now entry) }
{
    match packed.to_entry(alloc) {
        Ok(entry) => Ok(Ok(entry)),
        Err(PackFault::NoMemory) => Err(AllocError),
        Err(fault) => Ok(Err(CommandRefusal::Pack(fault))),
    }
}
