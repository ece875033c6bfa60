//! An entry together with its source text.

ghost use Rattle.std.specs.{Prelude.{◌≡◌, IfErr, IfOk, IfSome}, List.{AllByRecursion}};
ghost use Rattle.ti_commands.specs.{Findings.{LacksEntry}, Replies.{GivesEntry}, Sources.{IsSourced}};
ghost use Rattle.ti_source.specs.Raw.{IsRaw};

use crate::descriptions::entry_of;
use crate::entries::{Found, find_in_source, path_and_name};
use crate::further::{PutTogether, own_raws};
use std::alloc::Global;
use ti_caps::Entry;
use ti_files::{Failure, Files, Remarks};
use ti_hints::hint_entry;
use ti_source::RawEntry;
use ti_sources::FurtherFile;

/// A source file, and the name of an entry in it.
#[derive(Debug, Drop)]
pub struct SourceText<'a> {
    /// The file's path.
    pub path: &'a str,
    /// The entry's name.
    pub name: &'a str,
    /// The file's text.
    pub text: Vec<u8>,
    /// All entries of the text as they were read, and those of the files of `--with` behind them.
    pub raws: Vec<RawEntry>,
    /// The files of `--with`.
    pub further: Vec<FurtherFile>,
    /// How many of the entries each file has, the source first.
    pub counts: Vec<usize>,
}

/// An entry, and its source.
#[derive(Debug, Drop)]
pub struct Sourced<'a> {
    /// The entry.
    pub entry: Entry,
    /// The source; `None` for an entry of a compiled file.
    pub source: Option<SourceText<'a>>,
}

/// The entry that `word` gives, with its source. Hints about its fields, and about those of the
/// entries that it uses, go to `remarks`.
pub fn sourced_entry<'a, F: Files>(
    alloc: Global,
    files: &mut F,
    word: &'a str,
    remarks: &mut Remarks,
) -> Result<Sourced<'a>, Failure>
    ensures entry { IfOk result (λ found. IsSourced (F.holds files.old) word.entry.now found.entry found.source) }
    ensures gives { IfOk result (λ found. GivesEntry (F.holds files.old) word.entry.now found.entry) }
    ensures fit { IfOk result (λ found. IfSome found.source (λ source. AllByRecursion IsRaw source.raws.items)) }
    ensures failure { IfErr result (λ e. LacksEntry (F.holds files.old) word.entry.now e) }
    ensures kept { F.holds files.new ≡ F.holds files.old }
{
    let Some((path, name)) = path_and_name(word) else {
        let entry = entry_of(alloc, files, word, remarks)?;
        return Ok(Sourced {
            entry,
            source: None,
        });
    };
    let Found {
        text,
        notes: _notes,
        all,
        entry,
    } = find_in_source(alloc, files, path, name, remarks)?;
    let PutTogether {
        raws,
        files: further,
        counts,
    } = all;
    hint_entry(
        alloc,
        text.as_slice(),
        own_raws(raws.as_slice(), counts.as_slice()),
        name.as_bytes(),
        remarks,
    );
    match entry {
        Ok(entry) => Ok(Sourced {
            entry,
            source: Some(SourceText {
                path,
                name,
                text,
                raws,
                further,
                counts,
            }),
        }),
        Err(refusal) => Err(Failure::Refused(refusal)),
    }
}
