//! The fields of a line of source text, each with its place there.

ghost use Rattle.std.specs.Prelude.{◌≡◌, ◌≤◌, ◌+◌, IfSome, length};
ghost use Rattle.ti_sources.specs.Columns.{columns_of_part};
ghost use Rattle.ti_hints.specs.Places as spec;

use crate::fields::{FieldText, cut_comma, split};
use ti_sources::{Columns, columns_of_part};

/// A field of a line, and its place there.
#[derive(Clone, Copy)]
pub(crate) struct PlacedField<'a> {
    /// The field.
    pub(crate) field: FieldText<'a>,
    /// Its columns.
    pub(crate) columns: Columns,
}

/// The part of `line` that has fields, and the number of bytes before it; `None` if there is no such part.
pub(crate) fn first_rest(line: &[u8], begins: bool) -> Option<(usize, &[u8])>
    ensures { IfSome result (λ x. spec.IsRest line.now x.0 x.1.now) }
{
    match line {
        [] | [b'#', ..] => None,
        [_, ..] if begins => rest_behind_names(line),
        [_, ..] => Some((0, line)),
    }
}

/// The part of `line` behind the names, and the number of bytes before it; `None` if no comma ends the names.
fn rest_behind_names(line: &[u8]) -> Option<(usize, &[u8])>
    ensures { IfSome result (λ x. spec.IsRest line.now x.0 x.1.now) }
{
    let (names, rest) = cut_comma(line)?;
    Some((names.len() + 1, rest))
}

/// The field `part`, where the line has this number of bytes `before` it.
pub(crate) fn placed(before: usize, part: &[u8]) -> PlacedField<'_>
    requires { before + length part.now + 1 ≤ 18446744073709551615 }
    ensures { result.columns ≡ columns_of_part before part.now }
{
    PlacedField {
        field: split(part),
        columns: columns_of_part(before, part),
    }
}
