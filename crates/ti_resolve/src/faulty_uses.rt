//! The use for which an entry can't be resolved.

ghost use Rattle.std.specs.Prelude.{◌≡◌, ◌<◌, ℕ, Some, IfNone, IfOk, IfSome, IsOk, length, option_map};
ghost use Rattle.std.specs.{Prelude.{IsSomeAnd}, List.{position}};
ghost use Rattle.ti_source.specs.declared.types.Field.TheVariants.{Include};
ghost use Rattle.ti_resolve.specs.FaultyUses as spec;
ghost use Rattle.ti_resolve.specs.{Origins.{field_there, origin_at}, Faults.{Reaches}};
ghost use Rattle.ti_resolve.specs.{Uses.{fields_at}, Walk.{walk_at}};

use crate::faults::ResolveFault;
use crate::origins::Origin;
use crate::search::{Index, fields_of, names_of};
use crate::walk::{Destination, MOST_USED, Trail, enter};
use std::alloc::{AllocError, Global};
use ti_caps::Bytes;
use ti_source::{Field, RawEntry};

/// The name that `fault` is about.
fn name_in(fault: ResolveFault) -> Result<Bytes, AllocError>
    ensures { IfOk result (λ name. spec.IsAbout name fault) }
{
    match fault {
        ResolveFault::NoSuchEntry(name) => Ok(name),
        ResolveFault::Cycle(name) => Ok(name),
        ResolveFault::TooMany(name) => Ok(name),
        ResolveFault::NoMemory => Err(AllocError),
    }
}

/// Whether `field` is a use of `name`.
fn is_use_of(field: &Field, name: &[u8]) -> bool
    ensures { result ≡ spec.is_use_of name.now field.now }
{
    match field {
        Field::Set(_, _) | Field::Cancel(_) => false,
        Field::Include(used) => used.as_slice() == name,
    }
}

/// The place of the first of these `fields` that is a use of `name`.
fn first_use(fields: &[Field], name: &[u8]) -> Option<usize>
    ensures { result ≡ position (spec.is_use_of name.now) fields.now }
{
    fields.iter().position(|field| is_use_of(field, name))
}

/// The first use of `name` in the entry at the place `user`.
fn use_in(raws: &[RawEntry], user: usize, name: &[u8]) -> Option<Origin>
    ensures { result ≡ option_map (origin_at user) (position (spec.is_use_of name.now) (fields_at raws.now user)) }
{
    match first_use(fields_of(raws, user), name) {
        Some(field) => Some(Origin { entry: user, field }),
        None => None,
    }
}

/// The first use of `name` in the last entry of the `chain`.
fn use_at_end(raws: &[RawEntry], chain: &[usize], name: &[u8]) -> Option<Origin>
    ensures { (root : ℕ) → spec.EndsAtUse raws.now root chain.now name.now → IsSomeAnd result
        (λ origin. Reaches raws.now root origin.entry × (field_there raws.now origin ≡ Some (Include name.now))) }
{
    match chain {
        [_front @ .., user] => use_in(raws, *user, name),
        [] => None,
    }
}

/// The use at which the walk from the entry at `root` fails: it has the name that the fault is about, and it is one of
/// that entry or of one that is reached from it. `None` if the entry can be resolved.
///
/// # Errors
/// Out of memory.
pub fn faulty_use(
    alloc: Global,
    index: &Index<'_>,
    root: usize,
) -> Result<Option<Origin>, AllocError>
    requires { root < length index.now.raws.now }
    ensures none { IfOk result (λ found. IfNone found (IsOk (walk_at index.now.raws.now root))) }
    ensures found { IfOk result (λ found. IfSome found (spec.IsFaultyUse index.now.raws.now root)) }
{
    let mut trail = Trail {
        chain: Vec::new(alloc),
        entered: Vec::new(alloc),
    };
    let to = Destination {
        name: names_of(index.raws, root),
        place: root,
    };
    match enter(alloc, index, MOST_USED + 1, to, &mut trail) {
        Ok(()) => Ok(None),
        Err(fault) => {
            let name = name_in(fault)?;
            Ok(use_at_end(index.raws, trail.chain.as_slice(), name.as_slice()))
        }
    }
}
