//! Whether a certificate is that of an entry.

ghost use Rattle.std.specs.Prelude.{◌≡◌, OnOk, IfErr, true, false};
ghost use Rattle.ti_caps.specs.Entry.{string_at};
ghost use Rattle.ti_conforms.specs.Conforms as conforms;
ghost use Rattle.ti_conforms.specs.Entries as entries;
ghost use Rattle.ti_cert.specs.{Basic.{IsBasicTable}, Strings.{row_string}};
ghost use Rattle.ti_cert.specs.Disagreements as spec;

use crate::faults::AgreeFault;
use crate::table::Table;
use std::alloc::Global;
use ti_caps::{Cap, Entry};
use ti_conforms::{Disagreement, acsc, first_unfit};
use ti_forms::entry_agrees;
use ti_rows::{Params, Row};

/// Whether the table has the pairs of alternate characters that the entry has.
fn has_pairs(table: &Table, entry: &Entry) -> bool
    ensures same { result ≡ true → table.now.acsc ≡ string_at entry.now entries.acsc }
    ensures differs { result ≡ false → table.now.acsc ≡ string_at entry.now entries.acsc → ⊥ }
{
    match (table.acsc(), entry.get_string(acsc())) {
        (Some(pairs), Some(own)) => pairs == own,
        (None, None) => true,
        _ => false,
    }
}

/// Whether the lines of `table` are those of `entry`, which can have a certificate and has the table's pairs.
fn lines_agree(alloc: Global, table: &Table, entry: &Entry) -> Result<(), AgreeFault>
    requires fit { conforms.IsFit entry.now }
    requires pairs { table.now.acsc ≡ string_at entry.now entries.acsc }
    ensures lines { OnOk result (entries.EntryAgrees table.now.known.strings.rows table.now.known.strings.cols entry.now
        (λ row. row_string table.now.known.strings row)) }
    ensures disagrees { IfErr result (spec.IsDisagreeing table.now entry.now) }
{
    match entry_agrees(alloc, table.size(), entry, table) {
        Ok(()) => Ok(()),
        Err(Disagreement::Disagree(row)) => Err(at_row(row)),
        Err(Disagreement::Unwanted(row)) => Err(at_row(row)),
        Err(Disagreement::NoMemory) => Err(AgreeFault::NoMemory),
    }
}

fn at_row(row: Row) -> AgreeFault
    ensures { spec.IsAtRow row result }
{
    AgreeFault::Disagree {
        cap: row.cap(),
        params: row.params(),
    }
}

/// A disagreement about a capability as a whole.
fn at_cap(cap: Cap) -> AgreeFault
    ensures { spec.IsAtCap cap result }
{
    AgreeFault::Disagree {
        cap,
        params: Params::new(),
    }
}

/// Whether a certificate is that of an entry: for each checked capability of `entry` and each parameter list that the
/// size allows, `table` has a line with the bytes that the string sends, and it has no other lines.
///
/// # Errors
/// `Disagree`, without parameters, with the capability of the first reason why the entry can have no certificate
/// (`first_unfit` of `ti_conforms`), or else `acsc` if the pairs differ; or else with a capability and parameters whose
/// line isn't what the entry sends. `NoMemory` if memory runs out.
pub fn agrees(alloc: Global, table: &Table, entry: &Entry) -> Result<(), AgreeFault>
    ensures fit { OnOk result (conforms.IsFit entry.now) }
    ensures acsc { OnOk result (table.now.acsc ≡ string_at entry.now entries.acsc) }
    ensures lines { OnOk result (entries.EntryAgrees table.now.known.strings.rows table.now.known.strings.cols entry.now
        (λ row. row_string table.now.known.strings row)) }
    ensures disagrees { IfErr result (spec.IsDisagreeing table.now entry.now) }
    ensures basic { IsBasicTable entry.now table.now → IfErr result (λ fault. fault ≡ AgreeFault.NoMemory) }
{
    if let Some(why) = first_unfit(entry) {
        return Err(at_cap(why.cap()));
    }
    if !has_pairs(table, entry) {
        return Err(at_cap(acsc()));
    }
    lines_agree(alloc, table, entry)
}
