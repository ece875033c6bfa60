//! Reading a whole source text.

ghost use Rattle.std.specs.{Prelude.{◌≡◌, ◌<◌, ◌+◌, ◌++◌, Ok, None, IfOk, IfErr, OnOk}, List.{AllByRecursion}};
ghost use Rattle.ti_source.specs.Source.{Progress, all_of, is_comment, is_passed, begins_white, continued, begun};
ghost use Rattle.ti_source.specs.{Source.{read_line, source_of, fault_at, Gives, FailsBy}, Raw.{IsRaw}};
ghost use Rattle.ti_source.specs.Related.{FaultHasNone, FaultIsFirst, ReadIsRelated, RelatedIsRead};
ghost use Rattle.ti_source.specs.Views.{progress_view};

use crate::draft::{Draft, entry_on};
use crate::layout::{cut_line, is_blank, is_white};
use crate::types::{FaultKind, RawEntry, SourceFault};
use std::alloc::{AllocError, Global};

/// The greatest size of a source text in bytes.
pub(crate) const MAX_SOURCE: usize = 16_777_216;

/// The entries that are whole, and the one that further lines may continue.
#[derive(Drop)]
struct Reader {
    done: Vec<RawEntry>,
    current: Option<Draft>,
}

/// Whether `line` is a comment: it begins with `#` in its first column, terminfo(5).
pub fn is_comment(line: &[u8]) -> bool
    ensures { result ≡ is_comment line.now }
{
    match line {
        [] => false,
        [first, ..] => *first == b'#',
    }
}

/// Whether `line` has no field: it is blank, or a comment.
pub fn is_passed(line: &[u8]) -> bool
    ensures { result ≡ is_passed line.now }
{
    is_blank(line) || is_comment(line)
}

/// Whether `line` begins with white space.
pub fn begins_white(line: &[u8]) -> bool
    ensures { result ≡ begins_white line.now }
{
    match line {
        [] => false,
        [first, ..] => is_white(*first),
    }
}

impl Reader {
    /// Closes the open entry, if there is one.
    fn close(&mut self) -> Result<(), AllocError>
        ensures done { OnOk result (self.new.done.items ≡ all_of (progress_view self.old)) }
        ensures current { OnOk result (self.new.current ≡ None) }
    {
        if let Some(draft) = self.current.take() {
            self.done.push(draft.into_entry())?;
        }
        Ok(())
    }

    /// Adds a further line to the open entry.
    fn go_on(&mut self, alloc: Global, number: u32, line: &[u8]) -> Result<(), FaultKind>
        ensures { Gives (λ _. progress_view self.new) result
            (continued number line.now (progress_view self.old) self.old.current) }
    {
        match &mut self.current {
            None => Err(FaultKind::NoName),
            Some(draft) => draft.add_parts(alloc, number, line),
        }
    }

    /// Begins an entry with its first line.
    fn begin(&mut self, alloc: Global, number: u32, line: &[u8]) -> Result<(), FaultKind>
        ensures { Gives (λ _. progress_view self.new) result (begun number line.now (progress_view self.old)) }
    {
        let draft = entry_on(alloc, number, line)?;
        self.close().map_err(|_| FaultKind::NoMemory)?;
        self.current = Some(draft);
        Ok(())
    }

    #[tactic(auto, unfolding(crate::specs::Source::read_line))]
    fn take_line(&mut self, alloc: Global, number: u32, line: &[u8]) -> Result<(), FaultKind>
        ensures { Gives (λ _. progress_view self.new) result (read_line number line.now (progress_view self.old)) }
    {
        if is_passed(line) {
            Ok(())
        } else if begins_white(line) {
            self.go_on(alloc, number, line)
        } else {
            self.begin(alloc, number, line)
        }
    }
}

impl Reader {
    /// Reads a line; a fault gets its number.
    fn take_numbered(&mut self, alloc: Global, number: u32, line: &[u8]) -> Result<(), SourceFault>
        ensures ok { OnOk result (read_line number line.now (progress_view self.old) ≡ Ok (progress_view self.new)) }
        ensures line { IfErr result (λ e. e.line ≡ number) }
        ensures kind { IfErr result (λ e. FailsBy e.kind e.kind (read_line number line.now (progress_view self.old))) }
    {
        match self.take_line(alloc, number, line) {
            Ok(()) => Ok(()),
            Err(kind) => Err(SourceFault { line: number, kind }),
        }
    }
}

/// The entries of a source text of terminfo(5), each with notes on its oddities.
///
/// The error is the first fault of `text`. `TooLong` for line 0 means that the text has more than 16777216 bytes;
/// `NoMemory` can be reported for any line.
#[tactic(auto, using(crate::proofs::Fitness::entries_fit), unfolding(crate::specs::Source::source_of))]
pub fn read(alloc: Global, text: &[u8]) -> Result<Vec<RawEntry>, SourceFault>
    ensures entries { IfOk result (λ v. source_of text.now ≡ Ok v.items) }
    ensures fault { IfErr result (λ e. FailsBy e.kind e (source_of text.now)) }
    ensures fit { IfOk result (λ v. AllByRecursion IsRaw v.items) }
{
    if text.len() > MAX_SOURCE {
        return Err(SourceFault {
            line: 0,
            kind: FaultKind::TooLong,
        });
    }
    let mut reader = Reader {
        done: Vec::new(alloc),
        current: None,
    };
    let mut rest = text;
    let mut number = 1;
    while let Some((line, behind)) = cut_line(rest) {
        reader.take_numbered(alloc, number, line)?;
        rest = behind;
        number += 1;
    }
    match reader.close() {
        Err(_) => Err(SourceFault {
            line: number,
            kind: FaultKind::NoMemory,
        }),
        Ok(()) => {
            let Reader { done, current: _ } = reader;
            Ok(done)
        }
    }
}

/// Law: reading returns exactly the entries that the relation between texts and entries allows; a fault is reported
/// for the first line up to which there are no such entries.
pub fn reading_is_the_relation()
    ensures read { ReadIsRelated }
    ensures related { RelatedIsRead }
    ensures fault { FaultHasNone }
    ensures first { FaultIsFirst }
{}
