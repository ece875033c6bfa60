//! Kinds of entries, which a list of all faults treats apart.

ghost use Rattle.std.specs.Prelude.{◌≡◌, IfOk};
ghost use Rattle.ti_surveys.specs.Kinds as spec;

use crate::parts::is_part;
use std::alloc::{AllocError, Global};
use ti_caps::Entry;
use ti_checker::No;
use ti_faults::is_of_another_kind;
use ti_verdicts::{Answer, fault_answers};

/// The kind of an entry, where all its faults are listed.
#[derive(Clone, Copy, Debug, PartialEq, Eq)]
pub enum EntryKind {
    /// The entry is only there to be used by others.
    Part,
    /// The entry is for a terminal of another kind.
    Other,
    /// Any other entry.
    Usual,
}

/// The kind of `entry`. If `lists_all`, `nos` must be all of its faults; else each entry is a usual one.
pub fn kind_of(lists_all: bool, entry: &Entry, nos: &[No]) -> EntryKind
    ensures { result ≡ spec.kind_of lists_all entry.now nos.now }
{
    if lists_all {
        listed_kind(entry, nos)
    } else {
        EntryKind::Usual
    }
}

/// The kind of `entry`, which has the faults `nos` and no others.
fn listed_kind(entry: &Entry, nos: &[No]) -> EntryKind
    ensures { result ≡ spec.listed_kind entry.now nos.now }
{
    if is_part(entry) {
        EntryKind::Part
    } else if is_of_another_kind(nos) {
        EntryKind::Other
    } else {
        EntryKind::Usual
    }
}

/// The answers about an entry of this `kind` that has the faults `nos`: one for each fault, or yes; or one alone for an
/// entry that is only there to be used, or is for a terminal of another kind. Fails only when out of memory.
pub fn answers_of(alloc: Global, kind: EntryKind, nos: &[No]) -> Result<Vec<Answer>, AllocError>
    ensures { IfOk result (λ answers. answers.items ≡ spec.kind_answers kind nos.now) }
{
    match kind {
        EntryKind::Part => Ok(vec![in alloc; Answer::Part]?),
        EntryKind::Other => Ok(vec![in alloc; Answer::OtherKind]?),
        EntryKind::Usual => usual_answers(alloc, nos),
    }
}

/// The answers about an entry with the faults `nos`: one for each, or yes if there are none.
fn usual_answers(alloc: Global, nos: &[No]) -> Result<Vec<Answer>, AllocError>
    ensures { IfOk result (λ answers. answers.items ≡ spec.usual_answers nos.now) }
{
    match nos {
        [] => Ok(vec![in alloc; Answer::Yes]?),
        [_, ..] => fault_answers(alloc, nos),
    }
}
