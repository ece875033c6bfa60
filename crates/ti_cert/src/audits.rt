//! Judging a certificate line by line as a reader gives it.

ghost use Rattle.std.specs.Prelude.{◌≡◌, ◌<◌, ℕ, Bool, List, true, false, IfOk, IfErr, OnOk, Ok};
ghost use Rattle.ti_conforms.specs.{Holds.{TableHolds}, Judged.{IsJudged}, Looks.{LooksStand}};
ghost use Rattle.ti_forms.specs.Forms.{IsOfForm, standard_line};
ghost use Rattle.ti_lines.specs.{Heads.{IsSizeText}, Reader.{Rose}};
ghost use Rattle.ti_cert.specs.{Basic.{IsStopped, basic_text}, Certificates.{limit}, Strings.{total}};
ghost use Rattle.ti_cert.specs.Audits as spec;
ghost use Rattle.ti_cert.specs.{Table.{table_of}, Texts.{IsTableOf, IsRefused, IsLineRead, Takes}};

use crate::endings::conclude;
use crate::faults::{CertFault, CertFaultKind};
use crate::known::Known;
use crate::places::Place;
use crate::table::Table;
use crate::tokens::row_effect;
use std::alloc::{AllocError, Global};
use std::mem;
use ti_caps::Bytes;
use ti_conforms::Charsets;
use ti_forms::read_row_line;
use ti_lines::{
    Judge, LineFault, Reader, RowLine, is_end_line, judge_lines, read_acsc_line, read_size_line,
};
use ti_rows::{CAPABILITIES, Row};
use vt_term::{Scanner, Size};

/// The most bytes that a certificate has.
const LIMIT: u32 = 67_108_864;

/// The line that comes next.
#[derive(Clone, Copy)]
pub(crate) enum Awaited {
    /// The first line, with the size.
    First,
    /// The line of alternate characters, if there is one.
    Acsc,
    /// A line about a capability, or the last line.
    Rows,
    /// No line. These charsets are settled.
    Ended(Charsets),
}

impl Awaited {
    /// The settled charsets, once the last line was read.
    fn settled(self) -> Option<Charsets>
        ensures { result ≡ spec.settled_of self }
    {
        match self {
            Awaited::Ended(settled) => Some(settled),
            Awaited::First | Awaited::Acsc | Awaited::Rows => None,
        }
    }
}

/// The result of a certificate's lines so far.
#[derive(Drop)]
pub(crate) struct Progress {
    pub size: Size,
    known: Known,
    pub acsc: Option<Bytes>,
    place: Place,
    awaited: Awaited,
    /// Reads the bytes of lines.
    scanner: Scanner,
    /// The bytes of the line before, whose memory is used again for the next line.
    pub room: Bytes,
}

/// Whether `text` is the first line of a certificate for `size`.
fn is_size_line(text: &[u8], size: Size) -> bool
    ensures yes { result ≡ true → IsSizeText text.now size.rows size.cols }
    ensures no { result ≡ false → IsSizeText text.now size.rows size.cols → ⊥ }
{
    match read_size_line(text) {
        Some((rows, cols)) => usize::from(rows) == size.rows && usize::from(cols) == size.cols,
        None => false,
    }
}

/// The fault of `text`, a line that isn't about a capability: `OutOfOrder` for a line of alternate characters, else
/// `BadLine`; or out of memory.
fn misplaced(alloc: Global, text: &[u8]) -> CertFaultKind
    ensures { spec.IsMisplacedBy text.now result }
{
    match read_acsc_line(alloc, text) {
        Ok(Some(_)) => CertFaultKind::OutOfOrder,
        Ok(None) => CertFaultKind::BadLine,
        Err(_) => CertFaultKind::NoMemory,
    }
}

impl Progress {
    #[tactic(auto, using(crate::proofs::AuditSteps::starts_so))]
    pub fn new(alloc: Global, size: Size) -> Result<Progress, AllocError>
        ensures { IfOk result (spec.Starts size.rows size.cols) }
    {
        Ok(Progress {
            size,
            known: Known::new(alloc, size)?,
            acsc: None,
            place: Place::new(),
            awaited: Awaited::First,
            scanner: Scanner::new(alloc)?,
            room: Bytes::from_vec(Vec::new(alloc)),
        })
    }

    #[tactic(auto, using(crate::proofs::AuditSteps::first_ok, crate::proofs::AuditSteps::first_wrong))]
    fn judge_size(&mut self, text: &[u8]) -> Result<(), CertFaultKind>
        requires { self.old.awaited ≡ Awaited.First }
        ensures ok { OnOk result (spec.AnswersLine self.old text.now (Ok self.new)) }
        ensures err { IfErr result (λ kind. spec.OrNoMemory kind (spec.AnswersLine self.old text.now)) }
    {
        if is_size_line(text, self.size) {
            self.awaited = Awaited::Acsc;
            Ok(())
        } else {
            Err(CertFaultKind::BadLine)
        }
    }

    #[tactic(auto, using(crate::proofs::AuditSteps::second_pairs, crate::proofs::AuditSteps::second_later, crate::proofs::AuditSteps::second_refused))]
    fn judge_acsc(&mut self, alloc: Global, text: &[u8]) -> Result<(), CertFaultKind>
        requires { self.old.awaited ≡ Awaited.Acsc }
        ensures ok { OnOk result (spec.AnswersLine self.old text.now (Ok self.new)) }
        ensures err { IfErr result (λ kind. spec.OrNoMemory kind (spec.AnswersLine self.old text.now)) }
    {
        let pairs = read_acsc_line(alloc, text)?;
        self.awaited = Awaited::Rows;
        match pairs {
            Some(bytes) => {
                self.acsc = Some(Bytes::from_vec(bytes));
                Ok(())
            }
            None => self.judge_later(alloc, text),
        }
    }

    #[tactic(auto, using(crate::proofs::AuditSteps::later_last, crate::proofs::AuditSteps::last_refused, crate::proofs::AuditSteps::later_row, crate::proofs::AuditSteps::row_refused, crate::proofs::AuditSteps::later_none))]
    fn judge_later(&mut self, alloc: Global, text: &[u8]) -> Result<(), CertFaultKind>
        ensures ok { OnOk result (spec.AnswersLater self.old text.now (Ok self.new)) }
        ensures err { IfErr result (λ kind. spec.OrNoMemory kind (spec.AnswersLater self.old text.now)) }
    {
        if is_end_line(text) {
            return self.judge_end(alloc);
        }
        let expected = self.place.next(self.size);
        let room = mem::replace(&mut self.room, Bytes::from_vec(Vec::new(alloc)));
        match read_row_line(text, room.into_vec(), expected)? {
            Some(line) => self.judge_row(line),
            None => Err(misplaced(alloc, text)),
        }
    }

    #[tactic(auto, using(crate::proofs::AuditSteps::row_misplaced, crate::proofs::AuditSteps::row_cut, crate::proofs::AuditSteps::row_misshows, crate::proofs::AuditSteps::row_stands))]
    pub fn judge_row(&mut self, line: RowLine) -> Result<(), CertFaultKind>
        ensures ok { OnOk result (spec.AnswersRow self.old line (Ok self.new)) }
        ensures err { IfErr result (λ kind. spec.OrNoMemory kind (spec.AnswersRow self.old line)) }
    {
        let row = line.row;
        self.place.check(row, &self.known.strings)?;
        let bytes = line.bytes.as_slice();
        let found = row_effect(&mut self.scanner, bytes, row, self.known.strings.size())?;
        let (effect, looks) = self.known.judge_effect(row, &line.effect, found)?;
        self.known
            .add(&mut self.scanner, row, bytes, &effect, looks)?;
        self.place = Place::after(row);
        self.awaited = Awaited::Rows;
        self.room = line.bytes;
        Ok(())
    }

    /// Adds the line of `row` with the `bytes` that its standard string sends, if it may come in this place. Nothing
    /// else of it has to be judged.
    pub fn add_standard(&mut self, row: Row, bytes: &[u8]) -> Result<(), CertFaultKind>
        requires { IsOfForm row bytes.now }
        ensures { OnOk result (spec.AnswersRow self.old (standard_line row) (Ok self.new)) }
    {
        self.place.check(row, &self.known.strings)?;
        self.known.add_standard(row, bytes)?;
        self.place = Place::after(row);
        self.awaited = Awaited::Rows;
        Ok(())
    }

    #[tactic(auto, using(crate::proofs::AuditSteps::last_lacks, crate::proofs::AuditSteps::last_clashes, crate::proofs::AuditSteps::last_closes))]
    pub fn judge_end(&mut self, alloc: Global) -> Result<(), CertFaultKind>
        ensures ok { OnOk result (spec.AnswersLast self.old (Ok self.new)) }
        ensures err { IfErr result (λ kind. spec.OrNoMemory kind (spec.AnswersLast self.old)) }
    {
        match self.place.missing(self.size, CAPABILITIES) {
            Some(missing) => Err(CertFaultKind::missing(missing)),
            None => {
                let settled = conclude(alloc, &self.known, self.acsc.is_some())?;
                self.awaited = Awaited::Ended(settled);
                Ok(())
            }
        }
    }

    /// The table of a text that was read to its end.
    pub fn into_table(self) -> Table
        requires { spec.IsWholeRead self }
        ensures made { spec.IsTableMade self result }
        ensures judged { IsJudged (table_of result) }
    {
        let settled = self.awaited.settled().unwrap();
        Table::new(self.known, self.acsc, settled)
    }
}

impl Judge for Progress {
    ghost use Rattle.ti_cert.specs.Audits.{progress_rules};

    type Fault = CertFaultKind;

    ghost rules = { progress_rules };

    fn judge(&mut self, alloc: Global, line: &[u8]) -> Result<(), CertFaultKind> {
        match self.awaited {
            Awaited::First => self.judge_size(line),
            Awaited::Acsc => self.judge_acsc(alloc, line),
            Awaited::Rows => self.judge_later(alloc, line),
            Awaited::Ended(_) => Err(CertFaultKind::BadLine),
        }
    }

    fn finish(&mut self, _: Global) -> Result<(), CertFaultKind> {
        match self.awaited {
            Awaited::Ended(_) => Ok(()),
            Awaited::First | Awaited::Acsc | Awaited::Rows => Err(CertFaultKind::BadLine),
        }
    }

    fn no_line() -> CertFaultKind {
        CertFaultKind::BadLine
    }

    fn no_memory() -> CertFaultKind {
        CertFaultKind::NoMemory
    }

    fn read_failed() -> CertFaultKind {
        CertFaultKind::ReadFailed
    }
}

fn started(alloc: Global, size: Size) -> Result<Progress, CertFault>
    ensures ok { IfOk result (spec.Starts size.rows size.cols) }
    ensures err { IfErr result (λ fault. fault.kind ≡ CertFaultKind.NoMemory) }
    ensures line { IfErr result (λ fault. fault.line ≡ 1) }
{
    match Progress::new(alloc, size) {
        Ok(progress) => Ok(progress),
        Err(_) => Err(LineFault {
            line: 1,
            kind: CertFaultKind::NoMemory,
        }),
    }
}

/// Judges the certificate for `size` that `reader` has left, line by line as it arrives. Only the table is kept, never
/// the text. At most 67,108,865 bytes are read, and the reader isn't called once the line with the fault is whole.
///
/// # Errors
/// The first fault of the text with its line; `ReadFailed` if the reader failed in this call; `NoMemory`.
pub fn audit_from<R: Reader>(alloc: Global, reader: &mut R, size: Size) -> Result<Table, CertFault>
    ensures judged { IfOk result (λ table. IsJudged (table_of table)) }
    ensures looks { IfOk result (λ table. LooksStand (table_of table)) }
    ensures holds { IfOk result (λ table. TableHolds (table_of table)) }
    ensures rows { IfOk result (λ table. table.known.strings.rows ≡ size.rows) }
    ensures cols { IfOk result (λ table. table.known.strings.cols ≡ size.cols) }
    ensures few { IfOk result (λ table. total table.known.strings < limit) }
    ensures accepted { (text : List ℕ) → R.left reader.old text → IfOk result (IsTableOf size.rows size.cols text) }
    ensures refused { (text : List ℕ) → R.left reader.old text
        → IfErr result (IsRefused size.rows size.cols text (Rose (R.failures reader.old) (R.failures reader.new))) }
    ensures basic { (home el : Bool) → R.left reader.old (basic_text size.rows size.cols home el)
        → IfErr result (IsStopped (Rose (R.failures reader.old) (R.failures reader.new))) }
    ensures takes { Takes R.left R.failures reader.old reader.new (λ given. IfErr result (IsLineRead given)) }
{
    let mut progress = started(alloc, size)?;
    match judge_lines(alloc, LIMIT, reader, &mut progress) {
        Ok(()) => Ok(progress.into_table()),
        Err(fault) => Err(fault),
    }
}

/// Judges the certificate `text` for `size` by itself, without its entry.
///
/// # Errors
/// The first fault of the text with its line, and `NoMemory`.
pub fn audit(alloc: Global, text: &[u8], size: Size) -> Result<Table, CertFault>
    ensures judged { IfOk result (λ table. IsJudged (table_of table)) }
    ensures looks { IfOk result (λ table. LooksStand (table_of table)) }
    ensures holds { IfOk result (λ table. TableHolds (table_of table)) }
    ensures rows { IfOk result (λ table. table.known.strings.rows ≡ size.rows) }
    ensures cols { IfOk result (λ table. table.known.strings.cols ≡ size.cols) }
    ensures few { IfOk result (λ table. total table.known.strings < limit) }
    ensures accepted { IfOk result (IsTableOf size.rows size.cols text.now) }
    ensures refused { IfErr result (IsRefused size.rows size.cols text.now ⊥) }
    ensures basic { (home el : Bool) → text.now ≡ basic_text size.rows size.cols home el
        → IfErr result (λ fault. fault.kind ≡ CertFaultKind.NoMemory) }
{
    let mut reader = text;
    audit_from(alloc, &mut reader, size)
}
