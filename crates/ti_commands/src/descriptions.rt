//! The commands `tic` and `infocmp`.

ghost use Rattle.std.specs.Prelude.{◌≡◌, ◌⊎◌, ◌<◌, ◌++◌, [], IfErr, IfOk, OnErr, OnOk, if◌then◌else◌};
ghost use Rattle.ti_caps.specs.{Entry.{value_at}, Table.{place_of_rank}};
ghost use Rattle.ti_commands.specs.Listings.{comparison_text, is_listed, is_listed_at, kind_lines, name_line};
ghost use Rattle.ti_commands.specs.{Listings.{same_value}, Findings.{FailsToFind, LacksEntry}};
ghost use Rattle.ti_commands.specs.Replies.{GivesEntry, IsCompared, IsCompiled, IsPrinted, LacksSecond, Outcome};
ghost use Rattle.ti_commands.specs.Replies.{Stores};

use crate::entries::{Found, find_entry};
use std::alloc::{AllocError, Global};
use ti_caps::{CAPABILITIES, Cap, Entry, Kind, Value, at_rank, is_kind, name};
use ti_compiled::{PackFault, encode};
use ti_files::{CommandRefusal, Failure, FileFault, Files, Remarks, Replied, Reply, file_fault};
use ti_hints::{explain_large, hint_carets, unknown_names};
use ti_source::print;

/// Reports the notes of the source file that `word` names, and writes the compiled form of the entry that `word` gives
/// to the file at `out`, if there is an `out`. Further lines go to `remarks`.
pub fn compile_entry<F: Files>(
    alloc: Global,
    word: &str,
    out: Option<&str>,
    files: &mut F,
    remarks: &mut Remarks,
) -> Replied
    ensures reply { IfOk result (λ reply. IsCompiled word.now out.entry (F.holds files.old) (F.holds files.new) reply) }
    ensures failure { IfErr result (λ e. FailsToFind (F.holds files.old) word.now e ⊎ (e ≡ Failure.NoMemory)) }
    ensures kept { OnErr result (F.holds files.new ≡ F.holds files.old) }
{
    let Found {
        text,
        notes,
        all: _all,
        entry,
    } = find_entry(alloc, files, word, remarks)?;
    hint_carets(alloc, text.as_slice(), remarks);
    let unknown = unknown_names(alloc, text.as_slice())?;
    let failure = stored(alloc, files, out, entry, remarks)?;
    remarks.add_words(unknown.as_slice());
    Ok(Reply {
        notes,
        text: Vec::new(alloc),
        failure,
    })
}

/// Writes the compiled form of `entry` to the file at `out`, if there is an `out`, or answers the entry's refusal.
fn stored<F: Files>(
    alloc: Global,
    files: &mut F,
    out: Option<&str>,
    entry: Result<Entry, CommandRefusal>,
    remarks: &mut Remarks,
) -> Result<Option<Failure>, AllocError>
    ensures outcome { IfOk result (λ failure. Outcome entry out.entry (F.holds files.old) (F.holds files.new) failure) }
    ensures kept { OnErr result (F.holds files.new ≡ F.holds files.old) }
{
    match (entry, out) {
        (Ok(entry), Some(path)) => store_entry(alloc, files, path, &entry, remarks),
        (Ok(_), None) => Ok(None),
        (Err(refusal), _) => Ok(Some(Failure::Refused(refusal))),
    }
}

/// Writes the compiled form of `entry` to the file at `path`.
fn store_entry<F: Files>(
    alloc: Global,
    files: &mut F,
    path: &str,
    entry: &Entry,
    remarks: &mut Remarks,
) -> Result<Option<Failure>, AllocError>
    ensures outcome { IfOk result
        (λ failure. Stores entry.now path.now (F.holds files.old) (F.holds files.new) failure) }
    ensures kept { OnErr result (F.holds files.new ≡ F.holds files.old) }
{
    let file = match encode(alloc, entry) {
        Ok(file) => file,
        Err(PackFault::NoMemory) => return Err(AllocError),
        Err(fault) => {
            explain_large(path, remarks);
            return Ok(Some(Failure::Refused(CommandRefusal::Pack(fault))));
        }
    };
    match files.store(path, file.as_slice()) {
        Ok(()) => Ok(None),
        Err(FileFault::NoMemory) => Err(AllocError),
        Err(fault) => Ok(Some(file_fault(alloc, path, fault, remarks))),
    }
}

/// Prints the entry that `word` gives.
pub fn print_entry<F: Files>(
    alloc: Global,
    word: &str,
    files: &mut F,
    remarks: &mut Remarks,
) -> Replied
    ensures reply { IfOk result (λ reply. IsPrinted (F.holds files.old) word.now reply) }
    ensures failure { IfErr result (λ e. LacksEntry (F.holds files.old) word.now e ⊎ (e ≡ Failure.NoMemory)) }
    ensures kept { F.holds files.new ≡ F.holds files.old }
{
    let entry = entry_of(alloc, files, word, remarks)?;
    let text = print(alloc, &entry)?;
    Ok(Reply::of_text(alloc, text))
}

/// The capabilities of two entries that are listed.
#[derive(Clone, Copy, Debug, PartialEq, Eq)]
pub enum Comparison {
    /// The capabilities that both have, with equal values.
    Common,
    /// The capabilities that neither has.
    Neither,
}

/// Lists the capabilities of the entries that the words `first` and `second` give, a line for each name that the
/// `comparison` asks for.
pub fn compare_entries<F: Files>(
    alloc: Global,
    first: &str,
    second: &str,
    comparison: Comparison,
    files: &mut F,
    remarks: &mut Remarks,
) -> Replied
    ensures reply { IfOk result (λ reply. IsCompared (F.holds files.old) first.now second.now comparison reply) }
    ensures failure { IfErr result (λ e. LacksEntry (F.holds files.old) first.now e
        ⊎ LacksSecond (F.holds files.old) first.now second.now e ⊎ (e ≡ Failure.NoMemory)) }
    ensures kept { F.holds files.new ≡ F.holds files.old }
{
    let one = entry_of(alloc, files, first, remarks)?;
    let other = entry_of(alloc, files, second, remarks)?;
    let text = compare(alloc, &one, &other, comparison)?;
    Ok(Reply::of_text(alloc, text))
}

/// The entry that `word` gives.
pub fn entry_of<F: Files>(
    alloc: Global,
    files: &mut F,
    word: &str,
    remarks: &mut Remarks,
) -> Result<Entry, Failure>
    ensures entry { IfOk result (λ entry. GivesEntry (F.holds files.old) word.now entry) }
    ensures failure { IfErr result (λ e. LacksEntry (F.holds files.old) word.now e) }
    ensures kept { F.holds files.new ≡ F.holds files.old }
{
    let Found {
        text,
        notes: _notes,
        all: _all,
        entry,
    } = find_entry(alloc, files, word, remarks)?;
    hint_carets(alloc, text.as_slice(), remarks);
    match entry {
        Ok(entry) => Ok(entry),
        Err(refusal) => Err(Failure::Refused(refusal)),
    }
}

/// The names of the capabilities of `first` and `second` that the `comparison` asks for: the flags, the numbers and the
/// strings, each kind in the order of names.
fn compare(
    alloc: Global,
    first: &Entry,
    second: &Entry,
    comparison: Comparison,
) -> Result<Vec<u8>, AllocError>
    ensures { IfOk result (λ lines. lines.items ≡ comparison_text comparison first.now second.now) }
{
    let mut lines = Vec::new(alloc);
    push_kind(first, second, comparison, Kind::Flag, &mut lines)?;
    push_kind(first, second, comparison, Kind::Number, &mut lines)?;
    push_kind(first, second, comparison, Kind::String, &mut lines)?;
    Ok(lines)
}

/// Appends the names of the `wanted` kind to `lines`.
fn push_kind(
    first: &Entry,
    second: &Entry,
    comparison: Comparison,
    wanted: Kind,
    lines: &mut Vec<u8>,
) -> Result<(), AllocError>
    ensures { OnOk result (lines.new.items ≡ lines.old.items ++ kind_lines comparison first.now second.now wanted) }
{
    for rank in 0..CAPABILITIES {
        push_rank(first, second, comparison, wanted, rank, lines)?;
    }
    Ok(())
}

/// Appends the name of the rank `rank` to `lines`, if its capability is of the `wanted` kind and listed.
#[tactic(auto, unfolding(ti_caps::specs::Table::place_ranked))]
fn push_rank(
    first: &Entry,
    second: &Entry,
    comparison: Comparison,
    wanted: Kind,
    rank: usize,
    lines: &mut Vec<u8>,
) -> Result<(), AllocError>
    requires { rank < 497 }
    ensures { let cap = place_of_rank rank in OnOk result (lines.new.items ≡ lines.old.items
        ++ (if is_listed_at comparison first.now second.now wanted cap then name_line cap else [])) }
{
    match at_rank(rank) {
        Some(cap) if is_kind(cap, wanted) && is_listed(first, second, comparison, cap) => {
            push_name(cap, lines)
        }
        _ => Ok(()),
    }
}

/// Appends the name of `cap` and an LF to `lines`.
fn push_name(cap: Cap, lines: &mut Vec<u8>) -> Result<(), AllocError>
    ensures { OnOk result (lines.new.items ≡ lines.old.items ++ name_line cap) }
{
    lines.extend_from_slice(name(cap))?;
    lines.push(b'\n')?;
    Ok(())
}

/// Whether `first` and `second` both have `cap` with equal values, or neither has it, as the `comparison` asks.
fn is_listed(first: &Entry, second: &Entry, comparison: Comparison, cap: Cap) -> bool
    ensures { result ≡ is_listed comparison (value_at first.now cap) (value_at second.now cap) }
{
    match (first.value(cap), second.value(cap)) {
        (Some(one), Some(other)) => comparison == Comparison::Common && are_equal(one, other),
        (None, None) => comparison == Comparison::Neither,
        _ => false,
    }
}

fn are_equal(one: &Value, other: &Value) -> bool
    ensures { result ≡ same_value one.now other.now }
{
    match (one, other) {
        (Value::Flag, Value::Flag) => true,
        (Value::Number(one), Value::Number(other)) => one == other,
        (Value::String(one), Value::String(other)) => one.as_slice() == other.as_slice(),
        _ => false,
    }
}
