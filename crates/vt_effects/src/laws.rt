//! Laws of records, each for all sizes, starts and texts.
ghost use Rattle.std.specs.Prelude.{ℕ, ◌<◌};
ghost use Rattle.vt_term.specs.{Size.{IsSize}, Moves.{cursor_to}};
ghost use Rattle.vt_effects.specs.{declared.starts.Start.{Start}, Settings.{RecordsTellSettings}};
ghost use Rattle.vt_effects.specs.Basic.{HasRecord, home_text, clear_text, el_text, sgr0_text, placed_at, cleared};
ghost use Rattle.vt_effects.specs.Basic.{tail_erased, made_plain};

/// The most basic strings have their records from every start: those that clear, move to a place, make the rendition
/// plain, go home, and erase to the line's end.
pub fn basic_records()
    ensures clear { (rows cols : ℕ) (start : Start) → IsSize rows cols → HasRecord rows cols start clear_text cleared }
    ensures cup { (rows cols row col : ℕ) (start : Start) → IsSize rows cols → row < rows → col < cols →
        HasRecord rows cols start (cursor_to row col) (placed_at row col) }
    ensures sgr0 { (rows cols : ℕ) (start : Start) → IsSize rows cols → HasRecord rows cols start sgr0_text made_plain }
    ensures home { (rows cols : ℕ) (start : Start) → IsSize rows cols →
        HasRecord rows cols start home_text (placed_at 0 0) }
    ensures el { (rows cols : ℕ) (start : Start) → IsSize rows cols → HasRecord rows cols start el_text tail_erased }
{}

/// A record's changes of rendition, character sets, margins and visibility hold from every screen with autowrap on
/// and insertion off, whatever its cursor and margins, even if the start doesn't allow it. Each single step leaves
/// autowrap on and insertion off, and keeps the margins and the visibility if the record does.
pub fn record_settings()
    ensures { RecordsTellSettings }
{}
