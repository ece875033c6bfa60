//! Equality of effects, compared part by part so that it has a contract.
ghost use Rattle.std.specs.Prelude.{◌≡◌, IsTrue};

use crate::effects::{Effect, Rendering};

impl Effect {
    /// Whether the two are equal. The answer is that of `==`, but with a contract.
    pub fn equals(&self, other: &Effect) -> bool
        ensures sound { IsTrue result → self.now ≡ other.now }
        ensures complete { self.now ≡ other.now → IsTrue result }
    {
        equal_places(self, other)
            && equal_cells(self, other)
            && equal_modes(self, other)
            && equal_renderings(self.rendition, other.rendition)
    }
}

fn equal_places(first: &Effect, second: &Effect) -> bool
    ensures row { IsTrue result → first.now.row ≡ second.now.row }
    ensures col { IsTrue result → first.now.col ≡ second.now.col }
    ensures pending { IsTrue result → first.now.ends_pending ≡ second.now.ends_pending }
    ensures complete { first.now ≡ second.now → IsTrue result }
{
    first.row == second.row && first.col == second.col && first.ends_pending == second.ends_pending
}

fn equal_cells(first: &Effect, second: &Effect) -> bool
    ensures erasure { IsTrue result → first.now.erasure ≡ second.now.erasure }
    ensures scroll { IsTrue result → first.now.scroll ≡ second.now.scroll }
    ensures complete { first.now ≡ second.now → IsTrue result }
{
    first.erasure == second.erasure && first.scroll == second.scroll
}

fn equal_modes(first: &Effect, second: &Effect) -> bool
    ensures charset { IsTrue result → first.now.charset ≡ second.now.charset }
    ensures margins { IsTrue result → first.now.margins ≡ second.now.margins }
    ensures visible { IsTrue result → first.now.visible ≡ second.now.visible }
    ensures complete { first.now ≡ second.now → IsTrue result }
{
    first.charset == second.charset
        && first.margins == second.margins
        && first.visible == second.visible
}

fn equal_renderings(first: Rendering, second: Rendering) -> bool
    ensures sound { IsTrue result → first ≡ second }
    ensures complete { first ≡ second → IsTrue result }
{
    equal_strokes(first, second) && equal_displays(first, second) && equal_inks(first, second)
}

fn equal_strokes(first: Rendering, second: Rendering) -> bool
    ensures bold { IsTrue result → first.bold ≡ second.bold }
    ensures faint { IsTrue result → first.faint ≡ second.faint }
    ensures underline { IsTrue result → first.underline ≡ second.underline }
    ensures complete { first ≡ second → IsTrue result }
{
    first.bold == second.bold && first.faint == second.faint && first.underline == second.underline
}

fn equal_displays(first: Rendering, second: Rendering) -> bool
    ensures blink { IsTrue result → first.blink ≡ second.blink }
    ensures negative { IsTrue result → first.negative ≡ second.negative }
    ensures concealed { IsTrue result → first.concealed ≡ second.concealed }
    ensures complete { first ≡ second → IsTrue result }
{
    first.blink == second.blink
        && first.negative == second.negative
        && first.concealed == second.concealed
}

fn equal_inks(first: Rendering, second: Rendering) -> bool
    ensures foreground { IsTrue result → first.foreground ≡ second.foreground }
    ensures background { IsTrue result → first.background ≡ second.background }
    ensures complete { first ≡ second → IsTrue result }
{
    first.foreground == second.foreground && first.background == second.background
}
