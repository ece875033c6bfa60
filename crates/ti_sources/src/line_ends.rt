//! The ends of lines.

ghost use Rattle.std.specs.Prelude.{◌≡◌, ◌++◌, OnOk};
ghost use Rattle.ti_sources.specs.Joins.{ended, ends_in_return};

use std::alloc::AllocError;

#[tactic(auto, using(crate::proofs::Ends::last_return, crate::proofs::Ends::no_return))]
fn ends_in_return(line: &[u8]) -> bool
    ensures { result ≡ ends_in_return line.now }
{
    match line {
        [.., last] => *last == b'\r',
        [] => false,
    }
}

/// Appends `line` and its end to `text`.
pub(crate) fn push_ended(text: &mut Vec<u8>, line: &[u8]) -> Result<(), AllocError>
    ensures { OnOk result (text.new.items ≡ text.old.items ++ ended line.now) }
{
    text.extend_from_slice(line)?;
    if ends_in_return(line) {
        text.extend_from_slice(b"\r\n")
    } else {
        text.extend_from_slice(b"\n")
    }
}
