//! Laws of effects' texts, of a certificate's lines, and of how a text is cut into lines.

ghost use Rattle.ti_lines.specs.{EffectLaws.{OneText, ComposedPlain, RecordedPlain}, Texts.{OneLine}};
ghost use Rattle.ti_lines.specs.Text.{IsText, cut_of};
ghost use Rattle.std.specs.Prelude.{ℕ, List, ◌≡◌};

/// No two lines about capabilities have one text.
pub fn one_line()
    ensures { OneLine }
{}

/// The lines that are judged, each followed by LF, and the part after the last LF make up the text,
/// and it can't be cut in another way.
pub fn text_is_cut()
    ensures is { (text : List ℕ) → IsText (cut_of text).lines (cut_of text).last text }
    ensures only { (text last : List ℕ) (lines : List (List ℕ))
        → IsText lines last text → cut_of text ≡ record { lines = lines; last = last } }
{}

/// No two effects in their one form have one text, so `read_effect` returns an effect from its text.
pub fn one_text()
    ensures { OneText }
{}

/// Two effects in their one form compose to one in its one form, if they compose.
pub fn composed_plain()
    ensures { ComposedPlain }
{}

/// The effect of a string is in its one form, so its text is read back as that effect.
pub fn recorded_plain()
    ensures { RecordedPlain }
{}
