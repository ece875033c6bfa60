//! The facts known from the lines of a certificate that were read so far.

ghost use Rattle.std.specs.Prelude.{◌≡◌, [], length, replicate, IfOk, IfErr, OnOk, IsTrue, true, List, ℕ};
ghost use Rattle.ti_forms.specs.Forms.{IsOfForm};
ghost use Rattle.ti_rows.specs.{Lists.{rank}, Names.{order, capabilities}};
ghost use Rattle.ti_conforms.specs.{Table.{settles}, Looks.{no_looks}};
ghost use Rattle.ti_cert.specs.Strings.{Adds, allows, group_at};
ghost use Rattle.ti_cert.specs.Certificates as certificates;
ghost use Rattle.ti_cert.specs.Audits.{IsTokenFault, Misshows};
ghost use Rattle.ti_cert.specs.Known as spec;

use crate::faults::CertFaultKind;
use crate::strings::Strings;
use crate::tokens::not_whole;
use std::alloc::{AllocError, Global};
use std::marker::Model;
use ti_conforms::{Reach, is_alone, is_some_look, settles};
use ti_forms::learn_row;
use ti_rows::{Looks, NO_ATTRIBUTES, NO_LOOKS, Row};
use vt_effects::{Effect, Sets};
use vt_term::{Scanner, Size};

/// The strings so far, the looks of attributes, and the changes of the charsets by tokens and strings.
#[derive(Drop)]
pub(crate) struct Known {
    pub strings: Strings,
    pub looks: Looks,
    pub reach: Reach,
    pub changes: Vec<Sets>,
}

impl Model for Known {
    ghost use Rattle.ti_cert.specs.Known.{Known, Holds};

    ghost Value = { Known };

    ghost view = { λ k. record { strings = k.strings; looks = k.looks; reach = k.reach; changes = k.changes.items } };
}

/// The capability that shows the same attributes in another way.
fn rival(row: Row) -> Row
    ensures { result ≡ certificates.rival row }
{
    match row {
        Row::Sgr(_) => Row::Smso,
        _ => Row::Sgr(NO_ATTRIBUTES),
    }
}

/// Adds `change`, the change of the charsets by a string of `row`, if the row counts for the settled charsets.
fn push_change(changes: &mut Vec<Sets>, row: Row, change: Sets) -> Result<(), AllocError>
    ensures { OnOk result (changes.new.items ≡ spec.with_change (settles row) changes.old.items change) }
{
    if settles(row) {
        changes.push(change)?;
    }
    Ok(())
}

/// The fault of an effect that isn't the one asked for: an attribute that looks like another, or any other fault.
fn misfit(row: Row, effect: &Effect) -> CertFaultKind
    ensures { certificates.IsMisfit row effect.now result }
{
    if is_alone(row) {
        if is_some_look(effect) {
            CertFaultKind::BadLook
        } else {
            CertFaultKind::NotShown
        }
    } else {
        CertFaultKind::NotShown
    }
}

impl Known {
    pub fn new(alloc: Global, size: Size) -> Result<Known, AllocError>
        ensures holds { IfOk result (λ known. spec.Holds known) }
        ensures strings { IfOk result (λ known. known.strings
            ≡ record { rows = size.rows; cols = size.cols; groups = replicate capabilities [] }) }
        ensures looks { IfOk result (λ known. known.looks ≡ no_looks) }
    {
        Ok(Known {
            strings: Strings::new(alloc, size)?,
            looks: NO_LOOKS,
            reach: Reach::none(),
            changes: Vec::new(alloc),
        })
    }

    /// The looks, with those added that a line of `row` with this `effect` teaches. If the row's rival capability has
    /// lines, nothing is added.
    fn looks_with(&self, row: Row, effect: &Effect) -> Looks
        ensures { result ≡ spec.looks_with self.now row effect.now }
    {
        if self.strings.has(rival(row)) {
            self.looks
        } else {
            self.looks.learned(row, effect)
        }
    }

    /// Checks that `found`, the effect of a line's bytes or `None`, equals `stated`, the effect in the line, and is the
    /// one that is asked for. Returns it, and the looks with those that the line teaches.
    pub fn judge_effect(
        &self,
        row: Row,
        stated: &Effect,
        found: Option<Effect>,
    ) -> Result<(Effect, Looks), CertFaultKind>
        ensures looks { IfOk result (λ r. r.1 ≡ spec.looks_with self.now row r.0) }
        ensures record { IfOk result (λ r. (tokens : List (List ℕ)) → spec.IsRecord self.now row tokens found
            → spec.HasRecord self.now.strings.rows self.now.strings.cols r.1 row tokens r.0) }
        ensures stated { IfOk result (λ r. r.0 ≡ stated.now) }
        ensures fails { IfErr result (λ kind. (tokens : List (List ℕ)) → spec.IsRecord self.now row tokens found
            → Misshows self.now row stated.now tokens kind) }
    {
        let Some(effect) = found else {
            return Err(CertFaultKind::NotTame);
        };
        if !effect.equals(stated) {
            return Err(CertFaultKind::NotShown);
        }
        let looks = self.looks_with(row, &effect);
        if row.asks_for(looks, &effect) {
            Ok((effect, looks))
        } else {
            Err(misfit(row, &effect))
        }
    }

    /// Adds a line about `row` that was judged, with its `bytes` and its `effect`. `looks` must have the looks after
    /// it.
    pub fn add(
        &mut self,
        scanner: &mut Scanner,
        row: Row,
        bytes: &[u8],
        effect: &Effect,
        looks: Looks,
    ) -> Result<(), CertFaultKind>
        requires range { allows self.old.strings.rows self.old.strings.cols row ≡ true }
        requires place { rank self.old.strings.rows self.old.strings.cols row
            ≡ length (group_at self.old.strings (order row)) }
        requires looks { looks ≡ spec.looks_with self.old row effect.now }
        requires record { spec.TellsRecord self.old.strings.rows self.old.strings.cols looks row bytes.now effect.now }
        ensures holds { OnOk result (spec.Holds self.old → spec.Holds self.new) }
        ensures strings { OnOk result (Adds self.old.strings self.new.strings row bytes.now) }
        ensures looks { OnOk result (self.new.looks ≡ looks) }
        ensures fails { IfErr result (IsTokenFault bytes.now) }
    {
        self.strings.push(row, bytes)?;
        push_change(&mut self.changes, row, effect.charset)?;
        match learn_row(&mut self.reach, scanner, bytes, row) {
            Ok(()) => {
                self.looks = looks;
                Ok(())
            }
            Err(fault) => Err(not_whole(fault)),
        }
    }

    /// Adds a line about `row` with the `bytes` that its standard string sends: it teaches no look, and changes no
    /// charset.
    pub fn add_standard(&mut self, row: Row, bytes: &[u8]) -> Result<(), AllocError>
        requires range { allows self.old.strings.rows self.old.strings.cols row ≡ true }
        requires place { rank self.old.strings.rows self.old.strings.cols row
            ≡ length (group_at self.old.strings (order row)) }
        requires form { IsOfForm row bytes.now }
        ensures holds { OnOk result (spec.Holds self.old → spec.Holds self.new) }
        ensures strings { OnOk result (Adds self.old.strings self.new.strings row bytes.now) }
        ensures looks { OnOk result (self.new.looks ≡ self.old.looks) }
    {
        self.strings.push(row, bytes)?;
        push_change(&mut self.changes, row, Effect::unchanged().charset)?;
        Ok(())
    }
}
