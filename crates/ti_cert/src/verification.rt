//! Verifying an entry by its certificate.

ghost use Rattle.std.specs.Prelude.{◌≡◌, ◌++◌, ℕ, List, IfOk, IfErr, IfSome, IfNone, OnOk, option_copied};
ghost use Rattle.ti_lines.specs.Reader.{Rose};
ghost use Rattle.ti_cert.specs.Texts.{IsCertLineRead, IsCertRefused, IsTableOf, Takes};
ghost use Rattle.ti_cert.specs.{Basic.{IsBasic, IsVerifyStopped, basic_text_of}, Disagreements.{IsAgreeRefused}};
ghost use Rattle.ti_cert.specs.Table.{certified, table_of};
ghost use Rattle.ti_cert.specs.Verified as spec;
ghost use Rattle.ti_caps.specs.Entry.{string_at};
ghost use Rattle.ti_conforms.specs.Certified.{cell_limit};
ghost use Rattle.ti_conforms.specs.{Holds.{LineHolds}, Resync.{texts_of}, Table.{text_of, resync}, Conforms.{Conforms}};
ghost use Rattle.ti_conforms.specs.Entries.{EntryAgrees, acsc};

use crate::agreement::agrees;
use crate::audits::audit_from;
use crate::faults::{AgreeFault, VerifyFault};
use crate::limits::cell_limit;
use crate::table::Table;
use std::alloc::{AllocError, Global};
use std::marker::Model;
use ti_caps::{Bytes, Cap, Entry, name};
use ti_conforms::{partner, resync_rows};
use ti_lines::Reader;
use ti_rows::Row;
use vt_term::Size;

/// The strings of an entry that conforms, for a size.
#[derive(Drop)]
pub struct Checked {
    table: Table,
    resync: Bytes,
    switches: bool,
    /// The most bytes that a cell takes.
    most_in_cell: usize,
}

impl Model for Checked {
    ghost use Rattle.ti_conforms.specs.Certified.{cell_limit};
    ghost use Rattle.ti_cert.specs.{Table.{CheckedTable, certified}, Verified.{IsVerified, IsResync, can_switch}};
    ghost use Rattle.std.specs.Prelude.{◌≡◌};

    ghost Value = { CheckedTable };

    ghost view = { λ c. c.table };

    ghost invariant = { λ c. IsVerified c.table × IsResync c.table c.resync × (c.switches ≡ can_switch c.table)
        × (c.most_in_cell ≡ cell_limit (certified c.table)) };
}

/// The row of `cap` with `params`, `None` if the capability isn't checked or doesn't take them.
fn row_of(cap: Cap, params: &[u16]) -> Option<Row>
    ensures found { IfSome result (spec.IsRowOf cap params.now) }
    ensures none { IfNone result ((row : Row) → spec.IsRowOf cap params.now row → ⊥) }
{
    Row::named(name(cap))?.with_params(params)
}

/// Adds the bytes of the row's line to `text`, if there is one.
fn add(text: &mut Vec<u8>, table: &Table, row: Row) -> Result<(), AllocError>
    ensures { OnOk result (text.new.items ≡ text.old.items ++ text_of (table_of table.now) row) }
{
    match table.bytes(row) {
        Some(bytes) => text.extend_from_slice(bytes),
        None => Ok(()),
    }
}

/// Adds the bytes of the lines of `rows` to `text`, for each row that has one.
fn add_all(text: &mut Vec<u8>, table: &Table, rows: &[Row]) -> Result<(), AllocError>
    ensures { OnOk result (text.new.items ≡ text.old.items ++ texts_of (table_of table.now).line_of rows.now) }
{
    for row in rows {
        add(text, table, *row)?;
    }
    Ok(())
}

/// The bytes that lead a terminal out of any state to a blank screen at rest.
fn resync_of(alloc: Global, table: &Table) -> Result<Bytes, AllocError>
    ensures { IfOk result (λ text. text ≡ resync (table_of table.now)) }
{
    let mut text = Vec::new(alloc);
    add_all(&mut text, table, &resync_rows(table.size()))?;
    Ok(Bytes::from_vec(text))
}

/// Whether the strings that switch to the graphic set and back are both there.
fn can_switch(table: &Table) -> bool
    ensures { result ≡ spec.can_switch table.now }
{
    table.bytes(Row::Smacs).is_some() && table.bytes(Row::Rmacs).is_some()
}

impl Checked {
    pub(crate) fn new(alloc: Global, table: Table) -> Result<Checked, AllocError>
        requires { spec.IsVerified table }
        ensures { IfOk result (λ checked. checked ≡ table) }
    {
        let resync = resync_of(alloc, &table)?;
        let switches = can_switch(&table);
        let most_in_cell = cell_limit(&table);
        Ok(Checked {
            table,
            resync,
            switches,
            most_in_cell,
        })
    }

    /// The size that the strings are for. The contract states everything else that may be relied on.
    pub fn size(&self) -> Size
        ensures rows { result.rows ≡ self.now.known.strings.rows }
        ensures cols { result.cols ≡ self.now.known.strings.cols }
        ensures verified { spec.IsVerified self.now }
    {
        // a look at a field brings in the invariant: the lines are verified
        let _ = &self.resync;
        self.table.size()
    }

    /// The bytes that the entry sends for `cap` with `params`, `None` if the certificate has no such line. From every
    /// start of the row their run ends as wanted, and cut off anywhere they leave a lost state.
    pub fn bytes(&self, cap: Cap, params: &[u16]) -> Option<&[u8]>
        ensures line { (row : Row) → spec.IsRowOf cap params.now row
            → option_copied result ≡ (table_of self.now).line_of row }
        ensures right { IfSome result (λ bytes. spec.IsLineOf (table_of self.now) cap params.now bytes.now) }
    {
        match row_of(cap, params) {
            Some(row) => self.row_bytes(row),
            None => None,
        }
    }

    /// The bytes that the entry sends for `row`, `None` if the certificate has no such line. From every start of the
    /// row their run ends as wanted, and cut off anywhere they leave a lost state.
    pub fn row_bytes(&self, row: Row) -> Option<&[u8]>
        ensures line { option_copied result ≡ (table_of self.now).line_of row }
        ensures right { IfSome result (λ bytes. LineHolds (table_of self.now) row bytes.now) }
    {
        self.table.bytes(row)
    }

    /// The byte that a letter of the alternate set is sent as, `None` if the entry can't switch sets or doesn't list
    /// the letter.
    pub fn partner(&self, letter: u8) -> Option<u8>
        ensures { result ≡ spec.partner_in self.now letter }
    {
        if !self.switches {
            return None;
        }
        match self.table.acsc() {
            Some(pairs) => partner(pairs, letter),
            None => None,
        }
    }

    /// The most bytes that a cell takes, with its move and all changes of its look: the lengths of the longest line of
    /// each group of capabilities, added up, and one more for the character. No refresh sends more than this for each
    /// cell that differs, and once more.
    pub fn cell_limit(&self) -> usize
        ensures { result ≡ cell_limit (certified self.now) }
    {
        self.most_in_cell
    }

    /// The bytes that lead to a blank screen at rest from every state that output cut off anywhere may leave, whatever
    /// sequence is open.
    pub fn resync(&self) -> &[u8]
        ensures text { result.now ≡ resync (table_of self.now) }
        ensures leads { spec.Resyncs (table_of self.now) }
    {
        self.resync.as_slice()
    }
}

/// The strings of a table that agrees with an entry.
fn handed_out(alloc: Global, table: Table) -> Result<Checked, VerifyFault>
    requires { spec.IsVerified table }
    ensures same { IfOk result (λ checked. checked ≡ table) }
    ensures fails { IfErr result (λ fault. fault ≡ VerifyFault.Agree AgreeFault.NoMemory) }
{
    match Checked::new(alloc, table) {
        Ok(checked) => Ok(checked),
        Err(_) => Err(VerifyFault::Agree(AgreeFault::NoMemory)),
    }
}

/// Judges the certificate that `reader` has left, and compares it with `entry`.
///
/// # Errors
/// `Cert` with the certificate's first fault, `Agree` if it is that of another entry or memory runs
/// out.
pub fn verify_from<R: Reader>(
    alloc: Global,
    entry: &Entry,
    size: Size,
    reader: &mut R,
) -> Result<Checked, VerifyFault>
    ensures accepted { (text : List ℕ) → R.left reader.old text → IfOk result (IsTableOf size.rows size.cols text) }
    ensures refused { (text : List ℕ) → R.left reader.old text
        → IfErr result (IsCertRefused size.rows size.cols text (Rose (R.failures reader.old) (R.failures reader.new))) }
    ensures disagrees { (text : List ℕ) → R.left reader.old text
        → IfErr result (IsAgreeRefused size.rows size.cols text entry.now) }
    ensures basic { IsBasic entry.now size.rows size.cols
        → R.left reader.old (basic_text_of entry.now size.rows size.cols)
        → IfErr result (IsVerifyStopped (Rose (R.failures reader.old) (R.failures reader.new))) }
    ensures takes { Takes R.left R.failures reader.old reader.new (λ given. IfErr result (IsCertLineRead given)) }
    ensures conforms { IfOk result (λ _. Conforms entry.now size.rows size.cols) }
    ensures rows { IfOk result (λ checked. checked.known.strings.rows ≡ size.rows) }
    ensures cols { IfOk result (λ checked. checked.known.strings.cols ≡ size.cols) }
    ensures sends { IfOk result (λ checked. EntryAgrees size.rows size.cols entry.now (table_of checked).line_of) }
    ensures acsc { IfOk result (λ checked. checked.acsc ≡ string_at entry.now acsc) }
    ensures resyncs { IfOk result (λ checked. spec.Resyncs (table_of checked)) }
{
    let table = match audit_from(alloc, reader, size) {
        Ok(table) => table,
        Err(fault) => return Err(VerifyFault::Cert(fault)),
    };
    match agrees(alloc, &table, entry) {
        Ok(()) => handed_out(alloc, table),
        Err(fault) => Err(VerifyFault::Agree(fault)),
    }
}

/// Judges the certificate `text`, and compares it with `entry`.
///
/// # Errors
/// `Cert` with the certificate's first fault, `Agree` if it is that of another entry or memory runs
/// out.
pub fn verify(alloc: Global, entry: &Entry, size: Size, text: &[u8]) -> Result<Checked, VerifyFault>
    ensures accepted { IfOk result (IsTableOf size.rows size.cols text.now) }
    ensures refused { IfErr result (IsCertRefused size.rows size.cols text.now ⊥) }
    ensures disagrees { IfErr result (IsAgreeRefused size.rows size.cols text.now entry.now) }
    ensures basic { IsBasic entry.now size.rows size.cols → text.now ≡ basic_text_of entry.now size.rows size.cols
        → IfErr result (IsVerifyStopped ⊥) }
    ensures conforms { IfOk result (λ _. Conforms entry.now size.rows size.cols) }
    ensures rows { IfOk result (λ checked. checked.known.strings.rows ≡ size.rows) }
    ensures cols { IfOk result (λ checked. checked.known.strings.cols ≡ size.cols) }
    ensures sends { IfOk result (λ checked. EntryAgrees size.rows size.cols entry.now (table_of checked).line_of) }
    ensures acsc { IfOk result (λ checked. checked.acsc ≡ string_at entry.now acsc) }
    ensures resyncs { IfOk result (λ checked. spec.Resyncs (table_of checked)) }
{
    let mut reader = text;
    verify_from(alloc, entry, size, &mut reader)
}
