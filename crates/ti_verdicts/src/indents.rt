//! Indented lines, which are printed below another one.

ghost use Rattle.std.specs.{Prelude.{◌≡◌, ◌++◌, IfOk, OnOk, map}, List.{flat_map}};
ghost use Rattle.ti_verdicts.specs.FaultLists as spec;

use std::alloc::{AllocError, Global};

/// The `lines`, each after two spaces.
pub fn indented(alloc: Global, lines: &[Vec<u8>]) -> Result<Vec<u8>, AllocError>
    ensures { IfOk result (λ text. text.items ≡ flat_map spec.indented (map (λ line. line.items) lines.now)) }
{
    let mut text = Vec::new(alloc);
    for line in lines {
        push_indented(line.as_slice(), &mut text)?;
    }
    Ok(text)
}

/// Appends the `line` to `text`, after two spaces.
fn push_indented(line: &[u8], text: &mut Vec<u8>) -> Result<(), AllocError>
    ensures { OnOk result (text.new.items ≡ text.old.items ++ spec.indented line.now) }
{
    text.extend_from_slice(b"  ")?;
    text.extend_from_slice(line)?;
    text.push(b'\n')?;
    Ok(())
}
