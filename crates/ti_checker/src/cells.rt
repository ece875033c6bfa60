//! The cells that two effects leave different.

ghost use Rattle.std.specs.Prelude.{◌≡◌, ◌<◌, ℕ, IsTrue, false};
ghost use Rattle.ti_checker.specs.Probes.{CanShow, screen_of};
ghost use Rattle.ti_checker.specs.Cells as spec;

use crate::probes::Probe;
use vt_effects::{Effect, Erasure, Scroll};
use vt_term::Size;

/// Whether `erasure`, with the cursor of `probe`, erases the place in row `i` and column `j`.
fn is_erased(erasure: Erasure, probe: &Probe, i: usize, j: usize) -> bool
    ensures { result ≡ spec.is_erased erasure probe.now.row probe.now.col i j }
{
    let row = usize::from(probe.row);
    let col = usize::from(probe.col);
    match erasure {
        Erasure::Nothing => false,
        Erasure::Screen => true,
        Erasure::Tail => i == row && col <= j,
        Erasure::Head => i == row && j <= col,
        Erasure::Rest => row < i || (i == row && col <= j),
        Erasure::Next(n) => i == row && (col <= j && j < col + usize::from(n)),
    }
}

/// Whether `effect` leaves the place in row `i` and column `j` blank.
fn becomes_blank(effect: &Effect, probe: &Probe, i: usize, j: usize) -> bool
    requires { i < 65536 }
    ensures { result ≡ spec.becomes_blank effect.now probe.now i j }
{
    let top = usize::from(probe.top);
    let bottom = usize::from(probe.bottom);
    let scrolls = top <= i && i <= bottom;
    match effect.scroll {
        Scroll::Up if scrolls => i + 1 > bottom || is_erased(effect.erasure, probe, i + 1, j),
        Scroll::Down if scrolls => i < top + 1 || is_erased(effect.erasure, probe, i - 1, j),
        _ => is_erased(effect.erasure, probe, i, j),
    }
}

/// Whether exactly one of the two effects leaves the place blank.
fn place_differs(first: &Effect, second: &Effect, probe: &Probe, i: usize, j: usize) -> bool
    requires { i < 65536 }
    ensures apart { IsTrue result → spec.becomes_blank first.now probe.now i j
        ≡ spec.becomes_blank second.now probe.now i j → ⊥ }
    ensures same { result ≡ false → spec.becomes_blank first.now probe.now i j
        ≡ spec.becomes_blank second.now probe.now i j }
{
    becomes_blank(first, probe, i, j) != becomes_blank(second, probe, i, j)
}

/// Whether two effects leave different cells in a line.
fn line_differs(first: &Effect, second: &Effect, size: Size, probe: &Probe, i: usize) -> bool
    requires line { i < size.rows }
    requires seen { CanShow size.rows probe.now }
    ensures apart { IsTrue result
        → spec.HaveOneGrid first.now second.now (screen_of size.rows size.cols probe.now) → ⊥ }
    ensures same { result ≡ false → (j : ℕ) → j < size.cols → spec.becomes_blank first.now probe.now i j
        ≡ spec.becomes_blank second.now probe.now i j }
{
    for j in 0..size.cols {
        if place_differs(first, second, probe, i, j) {
            return true;
        }
    }
    false
}

/// Whether two effects leave different cells.
pub(crate) fn cells_differ(first: &Effect, second: &Effect, size: Size, probe: &Probe) -> bool
    requires { CanShow size.rows probe.now }
    ensures apart { IsTrue result
        → spec.HaveOneGrid first.now second.now (screen_of size.rows size.cols probe.now) → ⊥ }
    ensures same { result ≡ false → (i j : ℕ) → i < size.rows → j < size.cols
        → spec.becomes_blank first.now probe.now i j ≡ spec.becomes_blank second.now probe.now i j }
{
    for i in 0..size.rows {
        if line_differs(first, second, size, probe, i) {
            return true;
        }
    }
    false
}
