//! The order of the lines about capabilities.

ghost use Rattle.std.specs.Prelude.{◌≡◌, ◌<◌, OnOk, IfErr, None, Some, length, option_and_then, true};
ghost use Rattle.ti_cert.specs.Strings.{allows, group_at};
ghost use Rattle.ti_cert.specs.Places as spec;
ghost use Rattle.ti_rows.specs.{Lists.{rank}, Names.{order, capabilities}};

use crate::faults::CertFaultKind;
use crate::strings::{Strings, allows};
use ti_rows::Row;
use vt_term::Size;

/// How far the lines about capabilities have come.
#[derive(Clone, Copy)]
pub(crate) struct Place {
    last: Option<Row>,
}

/// The row that follows `row` among its capability's lines.
#[tactic(auto, using(crate::proofs::Ranges::in_range))]
fn next_of(row: Row, size: Size) -> Option<Row>
    ensures { result ≡ spec.next_within size.rows size.cols row }
{
    if allows(size, row) {
        row.next(size)
    } else {
        None
    }
}

fn is_between(from: usize, order: usize, to: usize) -> bool
    ensures { result ≡ spec.is_between from order to }
{
    from <= order && order < to
}

/// The first line of a required capability between two places.
fn required(from: usize, to: usize) -> Option<Row>
    ensures { result ≡ spec.required from to }
{
    if is_between(from, 4, to) {
        Row::first(4)
    } else if is_between(from, 14, to) {
        Row::first(14)
    } else if is_between(from, 36, to) {
        Row::first(36)
    } else {
        None
    }
}

/// The first row that is missing before the capability at `order`: `next`, the row after the last line, whose
/// capability is at `last`; or else the first of a required capability between them.
fn missing_behind(next: Option<Row>, last: usize, order: usize) -> Option<Row>
    requires { last < capabilities }
    ensures { result ≡ spec.missing_behind next last order }
{
    match next {
        Some(next) if last < order => Some(next),
        Some(_) | None => required(last + 1, order),
    }
}

impl Place {
    /// The place before the first line.
    pub fn new() -> Place
        ensures { result.last ≡ None }
    {
        Place { last: None }
    }

    /// The row that follows the last line among the lines of its capability.
    pub fn next(&self, size: Size) -> Option<Row>
        ensures { result ≡ option_and_then (λ row. spec.next_within size.rows size.cols row) self.now.last }
    {
        match self.last {
            Some(last) => next_of(last, size),
            None => None,
        }
    }

    /// The place after the line of `row`.
    pub fn after(row: Row) -> Place
        ensures { result.last ≡ Some row }
    {
        Place { last: Some(row) }
    }

    /// Whether a line of the row's capability comes too late.
    fn is_late(&self, row: Row) -> bool
        ensures { result ≡ spec.is_late self.now.last row }
    {
        match self.last {
            None => false,
            Some(last) => row.order() < last.order(),
        }
    }

    /// The first missing line that must come before those of the capability at the place `order`; `CAPABILITIES` is the
    /// place of the end.
    pub fn missing(&self, size: Size, order: usize) -> Option<Row>
        ensures { result ≡ spec.missing size.rows size.cols self.now.last order }
    {
        match self.last {
            None => required(0, order),
            Some(last) => missing_behind(next_of(last, size), last.order(), order),
        }
    }

    /// The line that must come next among those of the row's capability.
    fn expected(&self, size: Size, row: Row) -> Option<Row>
        ensures { result ≡ spec.expected size.rows size.cols self.now.last row }
    {
        match self.last {
            Some(last) if last.order() == row.order() => next_of(last, size),
            Some(_) | None => Row::first(row.order()),
        }
    }

    /// The line that is missing if the line of `row` comes before others of its capability.
    fn early(&self, size: Size, row: Row) -> Row
        ensures { result ≡ spec.or_row (spec.expected size.rows size.cols self.now.last row) row }
    {
        match self.expected(size, row) {
            Some(expected) => expected,
            None => row,
        }
    }

    /// Checks that a line of `row` may come in this place, after the lines so far, which have `strings`. The error is
    /// the line's fault.
    pub fn check(&self, row: Row, strings: &Strings) -> Result<(), CertFaultKind>
        ensures passes { OnOk result (spec.place_fault strings.now.rows strings.now.cols self.now.last
            (length (group_at strings.now (order row))) row ≡ None) }
        ensures fails { IfErr result (λ kind. spec.place_fault strings.now.rows strings.now.cols self.now.last
            (length (group_at strings.now (order row))) row ≡ Some kind) }
        ensures range { OnOk result (allows strings.now.rows strings.now.cols row ≡ true) }
        ensures place { OnOk result (rank strings.now.rows strings.now.cols row
            ≡ length (group_at strings.now (order row))) }
    {
        let size = strings.size();
        if !allows(size, row) {
            return Err(CertFaultKind::BadLine);
        }
        let rank = rank_of(row, size);
        let count = strings.count(row);
        if self.is_late(row) || rank < count {
            return Err(CertFaultKind::OutOfOrder);
        }
        if let Some(missing) = self.missing(size, row.order()) {
            return Err(CertFaultKind::missing(missing));
        }
        if rank == count {
            Ok(())
        } else {
            Err(CertFaultKind::missing(self.early(size, row)))
        }
    }
}

/// The place of a row among its capability's lines.
#[tactic(auto, using(crate::proofs::Ranges::in_range))]
fn rank_of(row: Row, size: Size) -> usize
    requires { allows size.rows size.cols row ≡ true }
    ensures { result ≡ rank size.rows size.cols row }
{
    row.rank(size)
}
