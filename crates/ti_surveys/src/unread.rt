//! The paths of a survey that can't be read: how they are named.

ghost use Rattle.std.specs.Prelude.{◌≡◌, ◌∷◌, ◌++◌, [], IfOk, OnOk, map};
ghost use Rattle.ti_files.specs.Words.{texts_of};
ghost use Rattle.ti_surveys.specs.Surveys as spec;

use std::alloc::{AllocError, Global};
use ti_files::{Failure, Remarks};

/// The failure of the first of the `unread` paths, if there is one. The last `remarks` name the others.
pub fn named(
    alloc: Global,
    unread: &[&str],
    remarks: &mut Remarks,
) -> Result<Option<Failure>, AllocError>
    ensures { IfOk result (λ failure. spec.AreNamed (texts_of unread.now) failure remarks.new) }
{
    match unread {
        [] => Ok(None),
        [first, others @ ..] => {
            name_others(others, remarks)?;
            let path = String::from_str(alloc, first)?;
            Ok(Some(Failure::File(path)))
        }
    }
}

/// Adds a remark about each of the `others`, the further paths that can't be read.
fn name_others(others: &[&str], remarks: &mut Remarks) -> Result<(), AllocError>
    ensures { OnOk result (remarks.new ≡ remarks.old ++ map spec.further (texts_of others.now)) }
{
    for path in others {
        name_further(path, remarks)?;
    }
    Ok(())
}

/// Adds the remark that the further `path` can't be read.
fn name_further(path: &str, remarks: &mut Remarks) -> Result<(), AllocError>
    ensures { OnOk result (remarks.new ≡ remarks.old ++ spec.further path.now ∷ []) }
{
    let count = remarks.lines().len();
    remarks.add(path.as_bytes(), b" could not be read either");
    if remarks.lines().len() > count {
        Ok(())
    } else {
        Err(AllocError)
    }
}
