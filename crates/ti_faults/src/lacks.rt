//! Capabilities that an entry lacks, or may not have.

ghost use Rattle.std.specs.Prelude.{◌≡◌, IfOk, OnOk, false, map, true};
ghost use Rattle.ti_conforms.specs.Unfit.{HasMisfit};
ghost use Rattle.ti_faults.specs.Lacks as spec;

use std::alloc::{AllocError, Global};
use ti_caps::{Cap, Entry, Kind, at};
use ti_checker::{Cause, No};
use ti_conforms::{acsc, misfit};
use ti_rows::Row;

/// Adds to `nos` a refusal about `cap` as a whole, with `cause`, if `is_so`.
fn push_if(is_so: bool, cap: Cap, cause: Cause, nos: &mut Vec<No>) -> Result<(), AllocError>
    ensures { OnOk result (spec.Adds (spec.if_so is_so (spec.said_of cap cause)) nos.old.items nos.new.items) }
{
    if is_so {
        nos.push(No::of(cap, cause))?;
    }
    Ok(())
}

/// The refusals for the flags and numbers that the entry has and may not have.
#[tactic(auto, unfolding(ti_caps::specs::Table::kind_of, ti_caps::specs::Table::position_of, ti_caps::specs::Table::place_from))]
fn flags_out(alloc: Global, entry: &Entry) -> Result<Vec<No>, AllocError>
    ensures { IfOk result (λ nos. map (λ no. spec.said_by no) nos.items ≡ spec.flags_out entry.now) }
{
    let xmc = at(Kind::Number, 4).unwrap();
    let hc = at(Kind::Flag, 7).unwrap();
    let gn = at(Kind::Flag, 6).unwrap();
    let os = at(Kind::Flag, 15).unwrap();
    let mut nos = Vec::new(alloc);
    push_if(
        entry.get_number(xmc).is_some(),
        xmc,
        Cause::FlagOut,
        &mut nos,
    )?;
    push_if(entry.get_flag(hc), hc, Cause::FlagOut, &mut nos)?;
    push_if(entry.get_flag(gn), gn, Cause::FlagOut, &mut nos)?;
    push_if(entry.get_flag(os), os, Cause::FlagOut, &mut nos)?;
    Ok(nos)
}

/// The refusals of `flags_out`, and one for each required string that the entry lacks.
fn lacking(alloc: Global, entry: &Entry) -> Result<Vec<No>, AllocError>
    ensures { IfOk result (λ nos. map (λ no. spec.said_by no) nos.items ≡ spec.lacking entry.now) }
{
    let mut nos = flags_out(alloc, entry)?;
    let [clear, cup, sgr0] = [Row::Clear.cap(), Row::Cup(0, 0).cap(), Row::Sgr0.cap()];
    push_if(
        entry.get_string(clear).is_none(),
        clear,
        Cause::Absent,
        &mut nos,
    )?;
    push_if(
        entry.get_string(cup).is_none(),
        cup,
        Cause::Absent,
        &mut nos,
    )?;
    push_if(
        entry.get_string(sgr0).is_none(),
        sgr0,
        Cause::Absent,
        &mut nos,
    )?;
    Ok(nos)
}

/// Whether `acsc` lists a letter of line graphics with a partner that can't be printed.
fn has_misfit(entry: &Entry) -> bool
    ensures some { result ≡ true → HasMisfit entry.now }
    ensures none { result ≡ false → spec.HasNoMisfit entry.now }
{
    match entry.get_string(acsc()) {
        Some(pairs) => misfit(pairs).is_some(),
        None => false,
    }
}

/// Adds the faults of `acsc`.
fn push_pairs(entry: &Entry, nos: &mut Vec<No>) -> Result<(), AllocError>
    ensures { OnOk result (spec.AddsPairs entry.now nos.old.items nos.new.items) }
{
    push_if(has_misfit(entry), acsc(), Cause::AcsByte, nos)
}

/// All faults of the entry as a whole, whatever its strings send.
#[tactic(auto, using(crate::proofs::Whole::lacks_more))]
pub(crate) fn lacks(alloc: Global, entry: &Entry) -> Result<Vec<No>, AllocError>
    ensures { IfOk result (λ nos. spec.Lacks entry.now nos.items) }
{
    let mut nos = lacking(alloc, entry)?;
    push_pairs(entry, &mut nos)?;
    Ok(nos)
}
