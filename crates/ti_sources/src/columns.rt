//! The columns of a field in its line.

ghost use Rattle.std.specs.Prelude.{◌≡◌, ◌≤◌, ◌<◌, ◌+◌, [], drop, length, slice_index, take, IfNone, IfSome};
ghost use Rattle.std.specs.List.{list_all};
ghost use Rattle.ti_sources.specs.Columns as spec;
ghost use Rattle.ti_source.specs.Layout.{cut_of, is_white, skip_white};

use ti_caps::{Cap, name};
use ti_source::{begins_entry, cut_field, is_white, skip_white};

/// The columns of a field, in bytes from 1.
#[derive(Clone, Copy, Debug, PartialEq, Eq)]
pub struct Columns {
    /// The column of the field's first byte.
    pub start: usize,
    /// The column behind its last byte, which is that of the comma.
    pub end: usize,
}

/// Whether all bytes are white space.
fn is_blank(bytes: &[u8]) -> bool
    ensures { result ≡ list_all is_white bytes.now }
{
    bytes.iter().all(|byte| is_white(*byte))
}

fn is_mark(byte: u8) -> bool
    ensures { result ≡ spec.is_mark byte }
{
    byte == b'@' || byte == b'#' || byte == b'='
}

/// Whether a field's name may end before `rest`.
fn ends_name(rest: &[u8]) -> bool
    ensures { result ≡ spec.ends_name rest.now }
{
    match rest {
        [] => true,
        [first, ..] => is_mark(*first) || is_blank(rest),
    }
}

/// Whether `field` has this `name`.
#[tactic(auto, unfolding(crate::specs::Columns::is_named))]
fn is_named(name: &[u8], field: &[u8]) -> bool
    ensures { result ≡ spec.is_named name.now field.now }
{
    match field.strip_prefix(name) {
        Some(rest) => ends_name(rest),
        None => false,
    }
}

/// The columns of `part`, which a comma or the line ends, without the white space before it, where the line has this
/// number of bytes `before` it.
#[tactic(auto, using(crate::proofs::FirstColumns::skipped_shorter))]
pub fn columns_of_part(before: usize, part: &[u8]) -> Columns
    requires { before + length part.now + 1 ≤ 18446744073709551615 }
    ensures { result ≡ spec.columns_of_part before part.now }
{
    let white = part.len() - skip_white(part).len();
    Columns {
        start: before + white + 1,
        end: before + part.len() + 1,
    }
}

/// The columns of the first field about `cap` of `rest`, the part of a line behind this number of bytes `before` it.
#[tactic(auto, using(crate::proofs::FirstColumns::found, crate::proofs::FirstColumns::passed_over, crate::proofs::FirstColumns::none_left))]
fn columns_behind(before: usize, rest: &[u8], cap: Cap) -> Option<Columns>
    requires { before + length rest.now ≤ 18446744073709551615 }
    ensures { result ≡ spec.first_columns cap before (cut_of rest.now).ended }
{
    let mut passed = before;
    let mut left = rest;
    while let Some((part, behind)) = cut_field(left) {
        if is_named(name(cap), skip_white(part)) {
            return Some(columns_of_part(passed, part));
        }
        passed = passed + part.len() + 1;
        left = behind;
    }
    None
}

/// The columns of the first field about `cap` behind the names on `line`, the first line of an entry.
#[tactic(auto, using(crate::proofs::FirstColumns::behind_first, crate::proofs::FirstColumns::no_names))]
fn columns_behind_names(line: &[u8], cap: Cap) -> Option<Columns>
    ensures { result ≡ spec.behind_names cap (cut_of line.now).ended }
{
    match cut_field(line) {
        None => None,
        Some((names, behind)) => columns_behind(names.len() + 1, behind, cap),
    }
}

/// The columns of the first field about `cap` on `line`, a line of a source text; `None` if it has no such field.
#[tactic(auto, unfolding(crate::specs::Columns::columns_on))]
pub(crate) fn columns_on(line: &[u8], cap: Cap) -> Option<Columns>
    ensures { result ≡ spec.columns_on line.now cap }
{
    if begins_entry(line) {
        columns_behind_names(line, cap)
    } else {
        columns_behind(0, line, cap)
    }
}

/// The `bytes` behind the first `count`.
fn behind(bytes: &[u8], count: usize) -> &[u8]
    ensures { result.now ≡ drop count bytes.now }
{
    if count < bytes.len() {
        &bytes[count..]
    } else {
        &[]
    }
}

/// The first `count` of the `bytes`, or all if there are fewer.
fn first(bytes: &[u8], count: usize) -> &[u8]
    ensures { result.now ≡ take count bytes.now }
{
    if count < bytes.len() {
        &bytes[..count]
    } else {
        bytes
    }
}

/// The bytes of `line` between these `columns`, as far as it has them.
#[tactic(auto, unfolding(crate::specs::Columns::piece_on))]
pub(crate) fn piece_on(line: &[u8], columns: Columns) -> &[u8]
    ensures { result.now ≡ spec.piece_on line.now columns }
{
    let rest = behind(line, columns.start.saturating_sub(1));
    first(rest, columns.end.saturating_sub(columns.start))
}
