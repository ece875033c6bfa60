//! Moves of the cursor by rows or columns, one after another.
ghost use Rattle.std.specs.Prelude.{◌≡◌, ◌+◌, ◌-◌, ◌<◌, ◌≤◌, ◌^◌};
ghost use Rattle.vt_effects.specs.Fits.{BackFits, ForwardFits};
ghost use Rattle.vt_effects.specs.Effect as meaning;
ghost use Rattle.vt_effects.specs.Record as spec;

use crate::effects::Move;

impl Move {
    /// The row or column after the move from `from`; moving up or left ends at the first.
    pub fn leads_from(self, from: u16) -> usize
        ensures { result ≡ meaning.moved self from }
    {
        let from = usize::from(from);
        match self {
            Move::Kept => from,
            Move::To(k) => usize::from(k),
            Move::Back(k) => from.saturating_sub(usize::from(k)),
            Move::Forward(k) => from + usize::from(k),
        }
    }
}

/// Moving `forward` and then `back`, as one move.
fn net(forward: u16, back: u16) -> Move
    ensures { result ≡ spec.net forward back }
{
    if forward == back {
        Move::Kept
    } else if back < forward {
        Move::Forward(forward - back)
    } else {
        Move::Back(back - forward)
    }
}

/// The move `way`, and then back by `n`.
pub(crate) fn and_back(way: Move, n: u16) -> Move
    requires { BackFits way n }
    ensures { result ≡ spec.and_back way n }
{
    match way {
        Move::Kept => net(0, n),
        Move::To(k) => Move::To(k.saturating_sub(n)),
        Move::Back(k) => net(0, k + n),
        Move::Forward(k) => net(k, n),
    }
}

/// The move `way`, and then forward by `n`.
pub(crate) fn and_forward(way: Move, n: u16) -> Move
    requires { ForwardFits way n }
    ensures { result ≡ spec.and_forward way n }
{
    match way {
        Move::Kept => net(n, 0),
        Move::To(k) => Move::To(k + n),
        Move::Back(k) => net(n, k),
        Move::Forward(k) => net(k + n, 0),
    }
}

/// Up or left by `n` after `way`, if either no start from `low` to `high` is cut at the first row or column, or all
/// are; otherwise `None`.
pub(crate) fn back_by(n: u16, low: u16, high: u16, way: Move) -> Option<Move>
    ensures { result ≡ spec.back_by n low high way }
{
    if usize::from(n) <= way.leads_from(low) {
        Some(and_back(way, n))
    } else if way.leads_from(high) < usize::from(n) {
        Some(Move::To(0))
    } else {
        None
    }
}

/// Down or right by `n` after `way`, if either no start from `low` to `high` is cut at `last`, or all are;
/// otherwise `None`.
pub(crate) fn forward_by(n: u16, low: u16, high: u16, last: u16, way: Move) -> Option<Move>
    ensures { result ≡ spec.forward_by n low high last way }
{
    if way.leads_from(high) + usize::from(n) <= usize::from(last) {
        Some(and_forward(way, n))
    } else if usize::from(last) < way.leads_from(low) + usize::from(n) {
        Some(Move::To(last))
    } else {
        None
    }
}
