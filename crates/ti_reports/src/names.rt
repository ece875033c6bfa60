//! The names of an entry.

ghost use Rattle.std.specs.Prelude.{◌≡◌, IfOk, OnOk, option_map};
ghost use Rattle.ti_caps.specs.Fits.{names_in};
ghost use Rattle.ti_reports.specs.Names as spec;
ghost use Rattle.ti_verdicts.specs.Locations.{first_name};

use crate::texts::text_of;
use crate::written::Written;
use std::alloc::{AllocError, Global};
use ti_caps::Entry;
use ti_resolve::cut_name;
use ti_verdicts::first_name;

/// The first name of `entry`.
pub fn entry_name(alloc: Global, entry: &Entry) -> Result<Written, AllocError>
    ensures { IfOk result (λ written. spec.IsNameOf (first_name entry.now.names) written) }
{
    name_of(alloc, first_name(entry.names()))
}

/// The `name`, if there is one.
pub fn name_if(alloc: Global, name: Option<&[u8]>) -> Result<Option<Written>, AllocError>
    ensures { IfOk result (λ written. spec.IsNameIf (option_map (λ n. n.now) name.entry) written) }
{
    match name {
        Some(name) => Ok(Some(name_of(alloc, name)?)),
        None => Ok(None),
    }
}

/// The `name` in two forms.
pub fn name_of(alloc: Global, name: &[u8]) -> Result<Written, AllocError>
    ensures { IfOk result (λ written. spec.IsNameOf name.now written) }
{
    let text = text_of(alloc, name)?;
    let hex = hex::encode(alloc, name)?;
    Ok(Written { text, hex })
}

/// The names of `entry` but the first one.
#[tactic(auto, using(crate::proofs::NameFacts::aliases_after, crate::proofs::NameFacts::no_aliases))]
pub fn entry_aliases(alloc: Global, entry: &Entry) -> Result<Vec<Written>, AllocError>
    ensures { IfOk result (λ aliases. spec.AreAliases entry.now.names aliases.items) }
{
    match cut_name(entry.names()) {
        Some((_, others)) => Ok(names_of(alloc, others)?),
        None => Ok(Vec::new(alloc)),
    }
}

/// Each of the names in the field `names`.
#[tactic(auto, using(crate::proofs::NameFacts::none_before, crate::proofs::NameFacts::one_before, crate::proofs::NameFacts::all_before))]
fn names_of(alloc: Global, names: &[u8]) -> Result<Vec<Written>, AllocError>
    ensures { IfOk result (λ all. spec.AreNamesOf (names_in names.now) all.items) }
{
    let mut all = Vec::new(alloc);
    let mut rest = names;
    while let Some((own, behind)) = cut_name(rest) {
        push_name(alloc, &mut all, own)?;
        rest = behind;
    }
    push_name(alloc, &mut all, rest)?;
    Ok(all)
}

/// Appends `name` to `all`.
#[tactic(auto, using(crate::proofs::NameFacts::pushed))]
fn push_name(alloc: Global, all: &mut Vec<Written>, name: &[u8]) -> Result<(), AllocError>
    ensures { OnOk result (spec.HasOneMore all.old.items name.now all.new.items) }
{
    let written = name_of(alloc, name)?;
    all.push(written)?;
    Ok(())
}
