//! A table of an entry's strings, made without the text of a certificate.

ghost use Rattle.std.specs.Prelude.{◌≡◌, ◌+◌, ◌<◌, IfOk, OnOk};
ghost use Rattle.ti_caps.specs.Entry.{string_at};
ghost use Rattle.ti_conforms.specs.{Conforms.{Conforms, IsFit}, Judged.{IsJudged}};
ghost use Rattle.ti_conforms.specs.Entries as entries;
ghost use Rattle.ti_conforms.specs.Looks.{LooksStand};
ghost use Rattle.ti_forms.specs.Forms.{IsOfForm};
ghost use Rattle.ti_rows.specs.{Lists.{IsFirst}, Names.{capabilities, order}};
ghost use Rattle.ti_cert.specs.{Certificates.{limit}, Strings.{row_string, total}};
ghost use Rattle.ti_cert.specs.Certification as spec;
ghost use Rattle.ti_cert.specs.{Table.{table_of}, Verified.{Resyncs}};

use crate::audits::Progress;
use crate::faults::CertFaultKind;
use crate::table::Table;
use crate::tokens::row_effect;
use crate::verification::Checked;
use std::alloc::{AllocError, Global};
use std::mem;
use ti_caps::{Bytes, Entry};
use ti_conforms::{SendFault, acsc, first_unfit, is_checked};
use ti_forms::{push_row_line, send_into, standard_into};
use ti_lines::RowLine;
use ti_rows::{CAPABILITIES, Row};
use vt_effects::Effect;
use vt_term::{Scanner, Size};

/// The reason why an entry isn't certified.
#[derive(Clone, Copy, Debug, PartialEq, Eq)]
pub enum CertifyFault {
    /// The entry has no certificate for the size, or one that is nearly as long as a certificate may be.
    Refused,
    /// Out of memory.
    NoMemory,
}

impl From<AllocError> for CertifyFault {
    fn from(_: AllocError) -> CertifyFault {
        CertifyFault::NoMemory
    }
}

impl From<CertFaultKind> for CertifyFault {
    fn from(kind: CertFaultKind) -> CertifyFault {
        match kind {
            CertFaultKind::NoMemory => CertifyFault::NoMemory,
            CertFaultKind::BadLine
            | CertFaultKind::Missing(_, _)
            | CertFaultKind::OutOfOrder
            | CertFaultKind::NotWhole
            | CertFaultKind::NotTame
            | CertFaultKind::NotShown
            | CertFaultKind::NoResync
            | CertFaultKind::BadLook
            | CertFaultKind::ReadFailed => CertifyFault::Refused,
        }
    }
}

impl From<SendFault> for CertifyFault {
    fn from(fault: SendFault) -> CertifyFault {
        match fault {
            SendFault::NoMemory => CertifyFault::NoMemory,
            SendFault::Fault(_) | SendFault::StaticRead => CertifyFault::Refused,
        }
    }
}

/// The most bytes that the text of the lines about capabilities may have.
const MOST: usize = 60_000_000;

/// The most bytes that the line about a row with a standard string has, with its LF.
const LONGEST: usize = 65;

/// The most bytes that the pairs of alternate characters may have.
const MOST_PAIRS: usize = 1_000_000;

/// The lines that were judged so far, and the memory in which they are made.
#[derive(Drop)]
struct Draft {
    progress: Progress,
    /// The number of bytes that the text of further lines may have.
    room: usize,
    /// The bytes of the standard's string judged last.
    bytes: Vec<u8>,
    /// Reads the bytes of strings.
    scanner: Scanner,
    /// The text of the line before, and of its effect.
    text: Vec<u8>,
    words: Vec<u8>,
}

/// Refuses an entry that can have no certificate.
fn check_fit(entry: &Entry) -> Result<(), CertifyFault>
    ensures { OnOk result (IsFit entry.now) }
{
    match first_unfit(entry) {
        None => Ok(()),
        Some(_) => Err(CertifyFault::Refused),
    }
}

/// The entry's pairs of alternate characters. Refuses more than [`MOST_PAIRS`] bytes.
fn pairs_of(alloc: Global, entry: &Entry) -> Result<Option<Bytes>, CertifyFault>
    ensures same { IfOk result (λ pairs. pairs ≡ string_at entry.now entries.acsc) }
    ensures short { IfOk result (λ pairs. spec.ArePairsShort pairs) }
{
    match entry.get_string(acsc()) {
        None => Ok(None),
        Some(pairs) if pairs.len() <= MOST_PAIRS => Ok(Some(Bytes::from_slice(alloc, pairs)?)),
        Some(_) => Err(CertifyFault::Refused),
    }
}

impl Draft {
    /// No lines about capabilities yet, for `entry`. Refuses pairs of alternate characters that are too long.
    fn new(alloc: Global, entry: &Entry, size: Size) -> Result<Draft, CertifyFault>
        ensures { IfOk result (spec.IsDraft size.rows size.cols entry.now 0) }
    {
        let mut progress = Progress::new(alloc, size)?;
        progress.acsc = pairs_of(alloc, entry)?;
        Ok(Draft {
            progress,
            room: MOST,
            bytes: Vec::new(alloc),
            scanner: Scanner::new(alloc)?,
            text: Vec::new(alloc),
            words: Vec::new(alloc),
        })
    }

    /// Takes the room of the line of `row` with these `bytes` and this `effect`. Refuses it if there is too little.
    fn take_room(&mut self, row: Row, bytes: &[u8], effect: &Effect) -> Result<(), CertifyFault>
        ensures { OnOk result (spec.TakesRoom (record { row = row; bytes = bytes.now; effect = effect.now })
            self.old self.new) }
    {
        self.text.clear();
        push_row_line(row, bytes, effect, &mut self.words, &mut self.text)?;
        let length = self.text.len();
        if length < self.room {
            self.room -= length + 1;
            Ok(())
        } else {
            Err(CertifyFault::Refused)
        }
    }

    /// Adds the line of `row` with the draft's `bytes`, which must be those of its standard string.
    fn push_standard(&mut self, row: Row) -> Result<(), CertifyFault>
        requires { IsOfForm row self.old.bytes.items }
        ensures { OnOk result (spec.AddsLine row self.old.bytes.items self.old self.new) }
    {
        let room = self.room;
        if room < LONGEST {
            return Err(CertifyFault::Refused);
        }
        self.progress.add_standard(row, &self.bytes)?;
        self.room = room - LONGEST;
        Ok(())
    }

    /// Judges the bytes that `string` sends for `row`, and adds their line.
    fn push_judged(&mut self, alloc: Global, string: &[u8], row: Row) -> Result<(), CertifyFault>
        ensures { OnOk result (spec.AddsSent string.now row self.old self.new) }
    {
        let room = mem::replace(&mut self.progress.room, Bytes::from_vec(Vec::new(alloc)));
        let mut bytes = room.into_vec();
        send_into(alloc, string, row, &mut bytes)?;
        let Some(effect) = row_effect(&mut self.scanner, &bytes, row, self.progress.size)? else {
            return Err(CertifyFault::Refused);
        };
        self.take_room(row, &bytes, &effect)?;
        self.progress.judge_row(RowLine {
            row,
            bytes: Bytes::from_vec(bytes),
            effect,
        })?;
        Ok(())
    }

    /// Adds the line of `row`, for which `string` sends the bytes. Nothing of the standard's strings has to be judged.
    fn push_row(&mut self, alloc: Global, string: &[u8], row: Row) -> Result<(), CertifyFault>
        ensures { OnOk result (spec.AddsSent string.now row self.old self.new) }
    {
        let standard = standard_into(string, row, &mut self.bytes)?;
        if standard {
            self.push_standard(row)
        } else {
            self.push_judged(alloc, string, row)
        }
    }

    /// Adds the lines of `string`, that of the capability whose first row is `first`.
    fn push_string(
        &mut self,
        alloc: Global,
        string: &[u8],
        first: Row,
        size: Size,
    ) -> Result<(), CertifyFault>
        requires { IsFirst size.rows size.cols first }
        ensures { OnOk result (spec.AddsSent string.now first self.old self.new) }
    {
        let mut row = first;
        loop {
            self.push_row(alloc, string, row)?;
            match row.next(size) {
                Some(next) => row = next,
                None => return Ok(()),
            }
        }
    }

    /// Adds the lines of the capability whose first row is `first`, if the entry has it and it is checked.
    fn push_cap(
        &mut self,
        alloc: Global,
        entry: &Entry,
        first: Row,
        size: Size,
    ) -> Result<(), CertifyFault>
        requires { IsFirst size.rows size.cols first }
        ensures { OnOk result (spec.AddsCaps entry.now (order first) (order first + 1) self.old self.new) }
    {
        if !is_checked(entry, first) {
            return Ok(());
        }
        match entry.get_string(first.cap()) {
            Some(string) => self.push_string(alloc, string, first, size),
            None => Ok(()),
        }
    }

    /// Adds the lines of the capability at `place` in the order of names.
    fn push_at(
        &mut self,
        alloc: Global,
        entry: &Entry,
        place: usize,
        size: Size,
    ) -> Result<(), CertifyFault>
        requires { place < capabilities }
        ensures { OnOk result (spec.AddsCaps entry.now place (place + 1) self.old self.new) }
    {
        match Row::first(place) {
            Some(first) => self.push_cap(alloc, entry, first, size),
            None => Ok(()),
        }
    }

    /// Adds the lines of all checked capabilities of the entry.
    fn push_caps(&mut self, alloc: Global, entry: &Entry, size: Size) -> Result<(), CertifyFault>
        ensures { OnOk result (spec.AddsCaps entry.now 0 capabilities self.old self.new) }
    {
        for place in 0..CAPABILITIES {
            self.push_at(alloc, entry, place, size)?;
        }
        Ok(())
    }
}

/// The table of the strings of `entry`, each of which is judged, and then all together.
fn judged_table(alloc: Global, entry: &Entry, size: Size) -> Result<Table, CertifyFault>
    ensures judged { IfOk result (λ table. IsJudged (table_of table)) }
    ensures looks { IfOk result (λ table. LooksStand (table_of table)) }
    ensures rows { IfOk result (λ table. table.known.strings.rows ≡ size.rows) }
    ensures cols { IfOk result (λ table. table.known.strings.cols ≡ size.cols) }
    ensures few { IfOk result (λ table. total table.known.strings < limit) }
    ensures text { IfOk result (spec.HasText size.rows size.cols) }
    ensures acsc { IfOk result (λ table. table.acsc ≡ string_at entry.now entries.acsc) }
    ensures lines { IfOk result (λ table. entries.EntryAgrees
        table.known.strings.rows table.known.strings.cols entry.now (λ row. row_string table.known.strings row)) }
{
    // only this call's contract says that the entry's strings fit
    let _ = entry.names();
    let mut draft = Draft::new(alloc, entry, size)?;
    draft.push_caps(alloc, entry, size)?;
    draft.progress.judge_end(alloc)?;
    Ok(draft.progress.into_table())
}

/// The strings of `entry` for `size`, if the entry has a certificate: those that `verify` returns for the text that
/// `check` of `ti_checker` writes, with no text made. Each string is judged once, and all strings together at the end.
/// A program that keeps a certificate has it from `check`, and gives it to [`verify`](crate::verify).
///
/// # Errors
/// `Refused` if the entry has no certificate, if the lines about its capabilities may have more than 60,000,000 bytes,
/// or if its pairs of alternate characters have more than 1,000,000; `check` says why.
/// `NoMemory` if memory runs out.
pub fn certify(alloc: Global, entry: &Entry, size: Size) -> Result<Checked, CertifyFault>
    ensures text { IfOk result (spec.HasText size.rows size.cols) }
    ensures conforms { IfOk result (λ _. Conforms entry.now size.rows size.cols) }
    ensures rows { IfOk result (λ checked. checked.known.strings.rows ≡ size.rows) }
    ensures cols { IfOk result (λ checked. checked.known.strings.cols ≡ size.cols) }
    ensures sends { IfOk result (λ checked. entries.EntryAgrees size.rows size.cols entry.now
        (table_of checked).line_of) }
    ensures acsc { IfOk result (λ checked. checked.acsc ≡ string_at entry.now entries.acsc) }
    ensures resyncs { IfOk result (λ checked. Resyncs (table_of checked)) }
{
    check_fit(entry)?;
    let table = judged_table(alloc, entry, size)?;
    Ok(Checked::new(alloc, table)?)
}
