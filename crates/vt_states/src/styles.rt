//! The letters that say how a rendition is shown.

ghost use Rattle.std.specs.Prelude.{◌≡◌, IfOk};
ghost use Rattle.vt_states.specs.Styles.{rendition_letters};

use std::alloc::{AllocError, Global};
use vt_screen::style_letters;
use vt_term::Rendition;

/// The letters of `rendition`.
#[tactic(auto, unfolding(crate::specs::Styles::rendition_letters))]
pub(crate) fn letters_of(alloc: Global, rendition: Rendition) -> Result<Vec<u8>, AllocError>
    ensures { IfOk result (λ text. text.items ≡ rendition_letters rendition) }
{
    style_letters(alloc, false, rendition)
}
