//! The statements about the entries of a file, one after another.

ghost use Rattle.std.specs.Prelude.{◌≡◌, ◌≢◌, ◌<◌, ◌≤◌, ◌⊎◌, IfErr, IfOk, IfSome, OnOk, Some, false, length, List};
ghost use Rattle.std.specs.{Prelude.{None, option_map, slice_get, true}, List.{AllByRecursion, range_with_len}};
ghost use Rattle.ti_sources.specs.declared.files.FurtherFile.{FurtherFile};
ghost use Rattle.ti_source.specs.Fitting.{FieldsFit, NamesFit};
ghost use Rattle.ti_surveys.specs.{Heard.{Hears}, Together.{FailsApartly, all_in}};
ghost use Rattle.ti_surveys.specs.Lines as spec;
ghost use Rattle.ti_surveys.specs.Told.{IsToldOfEach, told_of};
ghost use Rattle.ti_verdicts.specs.Locations.{place_if};
ghost use Rattle.ti_sources.specs.LinedFiles.{put_files};

use crate::said::Said;
use crate::speakers::{FileEntry, Lacking, Speaker};
use crate::together::{ApartTogether, all_apart};
use crate::watchers::{Watcher, pass_on};
use std::alloc::{AllocError, Global};
use ti_caps::Entry;
use ti_commands::unpacked_entry;
use ti_compiled::{Packed, decode};
use ti_files::{CommandRefusal, Failure, Remarks};
use ti_hints::hint_entries;
use ti_resolve::{Index, ResolveFault, entered_from};
use ti_source::{RawEntry, SourceFault, read_apart};
use ti_sources::{ApartFault, FurtherFile, LinedFiles, lined_files, resolve_apart};
use ti_verdicts::{SourcePlace, first_name};

/// The statements that a function makes, or that memory ran out.
type Made = Result<Said, AllocError>;

/// A survey: the speaker that reports, and the files of `--with`.
#[derive(Drop)]
pub(crate) struct Surveying<'a, S> {
    /// The speaker.
    pub(crate) speaker: &'a S,
    /// The files whose entries may be used too.
    pub(crate) further: &'a [FurtherFile],
}

/// The statements of the survey's speaker about the file at `path` with these `bytes`: a compiled one, as its first two
/// bytes show, or a source, whose entries may use those of the survey's further files. The `watcher` hears the lines of
/// each entry once they are known. Hints about a source go to `remarks`, if the speaker gives them.
pub(crate) fn file_lines<S: Speaker, W: Watcher>(
    alloc: Global,
    survey: &Surveying<'_, S>,
    path: &str,
    bytes: &[u8],
    watcher: &mut W,
    remarks: &mut Remarks,
) -> Result<Said, Failure>
    ensures told { IfOk result (λ said. spec.AreLines (S.says survey.now.speaker.now) (S.refuses survey.now.speaker.now)
        survey.now.further.now path.now bytes.now (told_of said)) }
    ensures heard { IfOk result (λ said. Hears W.heard W.has_failed watcher.old watcher.new said.lines.items) }
    ensures failure { IfErr result (λ e. FailsApartly survey.now.further.now e ⊎ (e ≡ Failure.NoMemory)) }
{
    if is_compiled(bytes) {
        Ok(compiled_lines(alloc, survey.speaker, path, bytes, watcher)?)
    } else {
        text_lines(alloc, survey, path, bytes, watcher, remarks)
    }
}

/// Whether `bytes` begin as a compiled file does.
fn is_compiled(bytes: &[u8]) -> bool
    ensures { result ≡ spec.is_compiled bytes.now }
{
    match bytes {
        [0x1a, 0x01, ..] | [0x1e, 0x02, ..] => true,
        _ => false,
    }
}

/// The statement about the compiled file at `path` with these `bytes`, which the `watcher` hears.
fn compiled_lines<S: Speaker, W: Watcher>(
    alloc: Global,
    speaker: &S,
    path: &str,
    bytes: &[u8],
    watcher: &mut W,
) -> Made
    ensures told { (others : List FurtherFile) → IfOk result (λ said. spec.AreLinesBy true (S.says speaker.now)
        (S.refuses speaker.now) others path.now bytes.now (told_of said)) }
    ensures heard { IfOk result (λ said. Hears W.heard W.has_failed watcher.old watcher.new said.lines.items) }
{
    let said = compiled_said(alloc, speaker, path, bytes)?;
    pass_on(watcher, &said);
    Ok(said)
}

/// The statement about the compiled file at `path` with these `bytes`.
fn compiled_said<S: Speaker>(alloc: Global, speaker: &S, path: &str, bytes: &[u8]) -> Made
    ensures { (others : List FurtherFile) → IfOk result (λ said. spec.AreLinesBy true (S.says speaker.now)
        (S.refuses speaker.now) others path.now bytes.now (told_of said)) }
{
    match decode(bytes) {
        Ok(packed) => packed_lines(alloc, speaker, path, &packed),
        Err(fault) => file_lack(alloc, speaker, path, &CommandRefusal::Pack(fault)),
    }
}

/// The statement about the entry of `packed`, the file at `path`.
fn packed_lines<S: Speaker>(alloc: Global, speaker: &S, path: &str, packed: &Packed<'_>) -> Made
    ensures { IfOk result (λ said. spec.IsFilePart (S.says speaker.now) (S.refuses speaker.now)
        path.now packed.now (told_of said)) }
{
    let entry = unpacked_entry(alloc, packed)?;
    let name = first_name(packed.names());
    entry_lines(alloc, speaker, path, &None, name, &entry)
}

/// The statements about the source text at `path` with these `bytes`.
fn text_lines<S: Speaker, W: Watcher>(
    alloc: Global,
    survey: &Surveying<'_, S>,
    path: &str,
    bytes: &[u8],
    watcher: &mut W,
    remarks: &mut Remarks,
) -> Result<Said, Failure>
    ensures told { IfOk result (λ said. spec.AreLinesBy false (S.says survey.now.speaker.now)
        (S.refuses survey.now.speaker.now) survey.now.further.now path.now bytes.now (told_of said)) }
    ensures heard { IfOk result (λ said. Hears W.heard W.has_failed watcher.old watcher.new said.lines.items) }
    ensures failure { IfErr result (λ e. FailsApartly survey.now.further.now e ⊎ (e ≡ Failure.NoMemory)) }
{
    match all_read(alloc, survey, path, bytes, remarks)? {
        Ok(all) => Ok(apart_lines(alloc, survey, path, bytes, &all, watcher)?),
        Err(fault) => {
            let refusal = CommandRefusal::Source(fault);
            Ok(unread_lines(alloc, survey.speaker, path, &refusal, watcher)?)
        }
    }
}

/// The entries of the source text at `path` with these `bytes`, each read by itself, and behind them those of the
/// survey's further files; or the fault that hides all entries of the text. Hints go to `remarks`, if the speaker gives
/// them.
#[tactic(auto, using(crate::proofs::SaidFacts::faults_beside))]
fn all_read<S: Speaker>(
    alloc: Global,
    survey: &Surveying<'_, S>,
    path: &str,
    bytes: &[u8],
    remarks: &mut Remarks,
) -> Result<Result<ApartTogether, SourceFault>, Failure>
    ensures read { IfOk result (λ read. spec.AreAllRead bytes.now survey.now.further.now read) }
    ensures failure { IfErr result (λ e. FailsApartly survey.now.further.now e ⊎ (e ≡ Failure.NoMemory)) }
{
    match read_apart(alloc, bytes) {
        Ok(apart) => {
            if survey.speaker.hints() {
                hint_entries(alloc, path, bytes, apart.raws.as_slice(), remarks);
            }
            Ok(Ok(all_apart(alloc, apart, survey.further, remarks)?))
        }
        Err(fault) => {
            fault.kind.must_claim()?;
            Ok(Err(fault))
        }
    }
}

/// The statement that the file at `path` has no entries, with the `refusal` that says why. The `watcher` hears it.
fn unread_lines<S: Speaker, W: Watcher>(
    alloc: Global,
    speaker: &S,
    path: &str,
    refusal: &CommandRefusal,
    watcher: &mut W,
) -> Made
    ensures told { IfOk result (λ said. S.refuses speaker.now path.now None None refusal.now (told_of said)) }
    ensures heard { IfOk result (λ said. Hears W.heard W.has_failed watcher.old watcher.new said.lines.items) }
{
    let said = file_lack(alloc, speaker, path, refusal)?;
    pass_on(watcher, &said);
    Ok(said)
}

/// A source text whose entries were read one by one, with those of further files behind them.
#[derive(Drop)]
struct SourceEntries<'a, 'b> {
    path: &'a str,
    /// How many entries the source itself has.
    own: usize,
    /// All entries by their names and places.
    index: &'a Index<'b>,
    /// For each entry the reason why it can't be read, if it can't.
    faults: &'a [Option<SourceFault>],
    /// The files, with the lines of all fields.
    files: LinedFiles<'a, 'b>,
}

/// The lines of the entries of the source `text` at `path`, in order; `all` has them first, and then those of the
/// survey's further files. The `watcher` hears the lines of each entry.
fn apart_lines<'b, S: Speaker, W: Watcher>(
    alloc: Global,
    survey: &Surveying<'b, S>,
    path: &'b str,
    text: &'b [u8],
    all: &'b ApartTogether,
    watcher: &mut W,
) -> Made
    requires { spec.IsAllRead text.now survey.now.further.now (all_in all.now) }
    ensures told { IfOk result (λ said. spec.HasEntries
        (S.says survey.now.speaker.now) (S.refuses survey.now.speaker.now) survey.now.further.now
        path.now text.now (told_of said)) }
    ensures heard { IfOk result (λ said. Hears W.heard W.has_failed watcher.old watcher.new said.lines.items) }
{
    let index = Index::new(alloc, all.raws.as_slice())?;
    let files = lined_files(alloc, path, text, survey.further)?;
    let source = SourceEntries {
        path,
        own: first_count(all.counts.as_slice()),
        index: &index,
        faults: all.faults.as_slice(),
        files: LinedFiles {
            files: files.as_slice(),
            counts: all.counts.as_slice(),
        },
    };
    source_lines(alloc, survey.speaker, &source, watcher)
}

/// How many entries the first file has.
fn first_count(counts: &[usize]) -> usize
    ensures { result ≡ spec.first_count counts.now }
{
    match counts {
        [first, ..] => *first,
        [] => 0,
    }
}

/// The lines of the entries of `source`, in order. The `watcher` hears those of each entry once they are known.
fn source_lines<S: Speaker, W: Watcher>(
    alloc: Global,
    speaker: &S,
    source: &SourceEntries<'_, '_>,
    watcher: &mut W,
) -> Made
    requires fit { AllByRecursion FieldsFit source.now.index.now.raws.now }
    requires names { NamesFit source.now.index.now.raws.now source.now.faults.now }
    requires beside { length source.now.faults.now ≡ length source.now.index.now.raws.now }
    requires own { source.now.own ≤ length source.now.index.now.raws.now }
    ensures told { IfOk result (λ said. IsToldOfEach
        (spec.IsSourcePart (S.says speaker.now) (S.refuses speaker.now) source.now.path.now
        (put_files source.now.files) source.now.index.now.raws.now source.now.faults.now)
        (range_with_len 0 source.now.own) (told_of said)) }
    ensures heard { IfOk result (λ said. Hears W.heard W.has_failed watcher.old watcher.new said.lines.items) }
{
    let raws = source.index.raws;
    let mut said = Said::new(alloc);
    for place in 0..source.own {
        let name = first_name(raw_at(raws, place).names.as_slice());
        watcher.begins(place, source.own, name);
        let own = source_part(alloc, speaker, source, place)?;
        pass_on(watcher, &own);
        said.add(own)?;
    }
    Ok(said)
}

/// The lines of the entry at `place` of `source`.
fn source_part<S: Speaker>(
    alloc: Global,
    speaker: &S,
    source: &SourceEntries<'_, '_>,
    place: usize,
) -> Made
    requires fit { AllByRecursion FieldsFit source.now.index.now.raws.now }
    requires names { NamesFit source.now.index.now.raws.now source.now.faults.now }
    requires beside { length source.now.faults.now ≡ length source.now.index.now.raws.now }
    requires there { place < length source.now.index.now.raws.now }
    ensures { IfOk result (λ said. spec.IsSourcePart (S.says speaker.now) (S.refuses speaker.now)
        source.now.path.now (put_files source.now.files) source.now.index.now.raws.now source.now.faults.now place
        (told_of said)) }
{
    let raws = source.index.raws;
    let raw = raw_at(raws, place);
    let entry = entry_apart(alloc, source.index, source.faults, place)?;
    let name = first_name(raw.names.as_slice());
    let stands = Some(SourcePlace {
        files: source.files,
        raws,
        place: stands_at(alloc, source, place, &entry)?,
        index: source.index,
    });
    entry_lines(alloc, speaker, source.path, &stands, name, &entry)
}

/// The place at which the statement about the `entry` at `place` stands: there, or at the entry that hides it.
fn stands_at(
    alloc: Global,
    source: &SourceEntries<'_, '_>,
    place: usize,
    entry: &Result<Entry, CommandRefusal>,
) -> Result<usize, AllocError>
    requires beside { length source.now.faults.now ≡ length source.now.index.now.raws.now }
    requires there { place < length source.now.index.now.raws.now }
    ensures stands { IfOk result (λ at. spec.StandsAt source.now.index.now.raws.now source.now.faults.now place
        entry.now at) }
    ensures range { IfOk result (λ at. at < length source.now.index.now.raws.now) }
{
    match entry {
        Ok(_) => Ok(place),
        Err(CommandRefusal::Source(_)) => hiding(alloc, source, place),
        Err(CommandRefusal::Size | CommandRefusal::Escape(_) | CommandRefusal::Parm(_)) => Ok(
            place,
        ),
        Err(CommandRefusal::Token(_) | CommandRefusal::Stuck(_) | CommandRefusal::Resolve(_)) => {
            Ok(place)
        }
        Err(CommandRefusal::Pack(_) | CommandRefusal::Verdict(_)) => Ok(place),
    }
}

/// The place of the entry that hides the one at `place`.
fn hiding(alloc: Global, source: &SourceEntries<'_, '_>, place: usize) -> Result<usize, AllocError>
    requires beside { length source.now.faults.now ≡ length source.now.index.now.raws.now }
    requires there { place < length source.now.index.now.raws.now }
    ensures hides { IfOk result (λ at. spec.IsHiding source.now.index.now.raws.now source.now.faults.now place at) }
    ensures range { IfOk result (λ at. at < length source.now.index.now.raws.now) }
{
    match entered_from(alloc, source.index, place) {
        Ok(entered) => match first_unread(source.faults, entered.as_slice()) {
            Some(at) => Ok(at),
            // the entry was refused for one of these, so there is one
            None => Err(AllocError),
        },
        // they were entered before, so memory ran out
        Err(_) => Err(AllocError),
    }
}

/// The first entry among these `places` that can't be read.
#[tactic(auto, using(ti_resolve::proofs::OriginFacts::first_more, ti_resolve::proofs::OriginFacts::first_found))]
fn first_unread(faults: &[Option<SourceFault>], places: &[usize]) -> Option<usize>
    ensures first { result ≡ spec.first_unread faults.now places.now }
    ensures range { IfSome result (λ at. at < length faults.now) }
{
    for place in places {
        if let Some(at) = unread_in(faults, *place) {
            return Some(at);
        }
    }
    None
}

/// The entry at `place`, if it can't be read.
fn unread_in(faults: &[Option<SourceFault>], place: usize) -> Option<usize>
    ensures found { result ≡ spec.unread_in faults.now place }
    ensures range { IfSome result (λ at. at < length faults.now) }
{
    match faults.get(place) {
        Some(Some(_)) => Some(place),
        Some(None) | None => None,
    }
}

/// The entry at `place`, or the reason why it can't be read or resolved.
fn entry_apart(
    alloc: Global,
    index: &Index<'_>,
    faults: &[Option<SourceFault>],
    place: usize,
) -> Result<Result<Entry, CommandRefusal>, AllocError>
    requires fit { AllByRecursion FieldsFit index.now.raws.now }
    requires names { NamesFit index.now.raws.now faults.now }
    requires there { place < length index.now.raws.now }
    requires beside { length faults.now ≡ length index.now.raws.now }
    ensures { IfOk result (λ entry. spec.ResolvesApart index.now.raws.now faults.now place entry) }
{
    match resolve_apart(alloc, index, faults, place) {
        Ok(entry) => Ok(Ok(entry)),
        Err(ApartFault::Unread(fault)) => Ok(Err(CommandRefusal::Source(fault))),
        Err(ApartFault::Unresolved(fault)) => match fault {
            ResolveFault::NoMemory => Err(AllocError),
            other => Ok(Err(CommandRefusal::Resolve(other))),
        },
    }
}

/// The entry at `place` in `raws`, as it was read.
#[tactic(auto, using(std::proofs::lemmas::Option::slice_get_read))]
fn raw_at(raws: &[RawEntry], place: usize) -> &RawEntry
    requires { place < length raws.now }
    ensures { slice_get raws.now place ≡ Some result.now }
{
    &raws[place]
}

/// The statement about the `entry` of the file at `path` under its `name`, whether it is there, at the place `stands`,
/// or can't be read.
fn entry_lines<S: Speaker>(
    alloc: Global,
    speaker: &S,
    path: &str,
    stands: &Option<SourcePlace<'_, '_>>,
    name: &[u8],
    entry: &Result<Entry, CommandRefusal>,
) -> Made
    ensures { IfOk result (λ said. spec.IsTold (S.says speaker.now) (S.refuses speaker.now) entry.now path.now
        (place_if stands.now) name.now (told_of said)) }
{
    match entry {
        Ok(entry) => {
            let found = FileEntry {
                path,
                stands,
                name,
                entry,
            };
            speaker.say(alloc, &found)
        }
        Err(refusal) => lack(alloc, speaker, path, stands, Some(name), refusal),
    }
}

/// The statement that the file at `path` has no entries, with the `refusal` that says why.
fn file_lack<S: Speaker>(alloc: Global, speaker: &S, path: &str, refusal: &CommandRefusal) -> Made
    ensures { IfOk result (λ said. S.refuses speaker.now path.now None None refusal.now (told_of said)) }
{
    lack(alloc, speaker, path, &None, None, refusal)
}

/// The statement about the entry of this `name` that can't be obtained from the file at `path`, at the place `stands`,
/// or about a file that has no entries if there is no name; the `refusal` says why.
fn lack<S: Speaker>(
    alloc: Global,
    speaker: &S,
    path: &str,
    stands: &Option<SourcePlace<'_, '_>>,
    name: Option<&[u8]>,
    refusal: &CommandRefusal,
) -> Made
    ensures { IfOk result (λ said. S.refuses speaker.now path.now (place_if stands.now)
        (option_map (λ n. n.now) name.entry) refusal.now (told_of said)) }
{
    let lacking = Lacking {
        path,
        stands,
        name,
        refusal,
    };
    speaker.refuse(alloc, &lacking)
}
