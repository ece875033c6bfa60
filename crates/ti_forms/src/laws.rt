//! Laws of the standard's strings.

ghost use Rattle.std.specs.Prelude.{◌≤◌, ℕ};
ghost use Rattle.ti_conforms.specs.Sends.{Sends};
ghost use Rattle.ti_forms.specs.Forms.{HasForm, move_string, standard_bytes, standard_string};
ghost use Rattle.ti_rows.specs.{declared.rows.Row.{Row}, declared.rows.Row.TheVariants.{Cup}};
ghost use Rattle.vt_term.specs.Moves.{cursor_to};

/// The standard's string for a move to a place sends exactly the bytes that move the cursor there, for each place that
/// a screen can have. It reads no static variable.
pub fn moves_are_sent()
    ensures { (row col : ℕ) → row ≤ 500 → col ≤ 500 → Sends move_string (Cup row col) (cursor_to row col) }
{}

/// The standard's string of a row's capability sends exactly the row's standard bytes. It reads no static variable.
pub fn forms_are_sent()
    ensures { (row : Row) → HasForm row → Sends (standard_string row) row (standard_bytes row) }
{}
