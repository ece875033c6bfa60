//! A painter, which makes a terminal show the virtual screen.
ghost use Rattle.std.specs.Prelude.{◌≡◌, ◌≤◌, IfOk, OnOk, OnErr};
ghost use Rattle.cur_screens.specs.{Marks.{AreSame}, VirtualScreen.{new_screen}};
ghost use Rattle.cur_steps.specs.declared.beliefs.Mode.TheVariants.{Normal};
ghost use Rattle.cur_paint.specs.{declared.updates.Status.TheVariants.{Fresh, Lost}, Finish.{Finishes}};
ghost use Rattle.cur_paint.specs.Update.{Refreshes};
ghost use Rattle.cur_update.specs.{Differ.{in_lines}, Inks.{ink_at, means_of}};
ghost use Rattle.cur_update.specs.{Painters.{IsPainter, mode_number, mode_of, set_mode, wanted_of}, Beep.{Rings}};

use crate::bells::{Unsent, ring};
use crate::changes::{Found, Shift};
use crate::differing::differ;
use crate::inks::{Means, means_of};
use crate::screens::{PrintedScreen, cells_hold};
use cur_drawing::{Refusal, place_below};
use cur_paint::{Columns, Knowledge, Screens, Status, Wanted};
use cur_screens::{Marks, Virtual};
use cur_steps::{Mode, Place, Wire, WireFault, has_line};
use std::alloc::{AllocError, Global};
use std::marker::Model;
use ti_conforms::Certificate;
use ti_rows::Row;
use vt_term::Size;

/// A painter for the terminal of a verified certificate: the screen that it showed last, and its knowledge of the
/// terminal.
#[derive(Drop)]
pub struct Painter<C: Certificate> {
    alloc: Global,
    checked: C,
    shown: Shown,
    session: Knowledge,
    mode: Mode,
    means: Means,
}

/// The screen that was shown last, and room for the columns in which each line may differ from it.
#[derive(Drop)]
struct Shown {
    screen: Virtual,
    columns: Vec<Columns>,
}

/// The screen to show, the marks outside of which it has the cells of the screen that was shown last, what the entry
/// has for printing cells, and the wanted state of the terminal beside the cells.
#[derive(Drop)]
struct Frame<'a> {
    screen: &'a Virtual,
    marks: &'a Marks,
    means: &'a Means,
    wanted: Wanted,
}

impl<C: Certificate> Model for Painter<C> {
    ghost use Rattle.std.specs.Prelude.{◌≡◌};
    ghost use Rattle.cur_update.specs.{Inks.{means_of}, Painters.{Painted, IsPainter}};

    ghost Value = { Painted C };

    ghost view = { λ p. record { checked = p.checked; shown = p.shown.screen; session = p.session; mode = p.mode } };

    ghost invariant = { λ p. IsPainter (C.table p.checked) p.shown.screen p.mode
        × (p.means ≡ means_of (C.table p.checked) (C.partners p.checked)) };
}

impl<C: Certificate> Painter<C> {
    /// A painter of a fresh session: nothing was sent, the screen is blank, and the cursor's mode is 1. Fails if memory
    /// runs out.
    pub fn start(alloc: Global, checked: C) -> Result<Painter<C>, AllocError>
    where
        C: Drop,
        ensures certificate { IfOk result (λ p. p.checked ≡ checked) }
        ensures fresh { IfOk result (λ p. p.session.status ≡ Fresh) }
        ensures shown { IfOk result
            (λ p. p.shown ≡ new_screen (C.table checked).rows (C.table checked).cols) }
        ensures mode { IfOk result (λ p. p.mode ≡ Normal) }
    {
        let size = Size::new(checked.rows(), checked.cols()).unwrap();
        let screen = Virtual::new(alloc, size)?;
        let columns = no_columns(alloc, checked.rows())?;
        let means = means_of(&checked);
        Ok(Painter {
            alloc,
            checked,
            shown: Shown { screen, columns },
            session: Knowledge::new(),
            mode: Mode::Normal,
            means,
        })
    }

    /// Makes the terminal show `screen`, which must be of the terminal's size, and keeps a copy of it. Only lines that
    /// differ from the last copy are looked at, unless a pair's colors changed or much of the screen becomes blank. On
    /// `WireFault`, a prefix of lawful bytes went out, and the session is lost.
    pub fn update<W: Wire>(&mut self, screen: &Virtual, wire: &mut W) -> Result<(), WireFault>
        requires rows { (screen.now).rows ≡ (C.table self.old.checked).rows }
        requires cols { (screen.now).cols ≡ (C.table self.old.checked).cols }
        ensures refreshes { Refreshes W.went W.failures wire.old wire.new result (C.table self.old.checked)
            (ink_at (C.table self.old.checked) (C.partners self.old.checked) self.old.shown)
            (ink_at (C.table self.old.checked) (C.partners self.old.checked) screen.now)
            (wanted_of screen.now self.old.mode) self.old.session self.new.session }
        ensures shown { OnOk result (self.new.shown ≡ screen.now) }
        ensures kept { OnErr result (self.new.shown ≡ self.old.shown) }
        ensures certificate { self.new.checked ≡ self.old.checked }
        ensures mode { self.new.mode ≡ self.old.mode }
    {
        let marks = Marks::unknown(self.alloc);
        self.update_marked(screen, &marks, wire)
    }

    /// Makes the terminal show `screen` as `update` does, but compares and copies only the cells in `marks`. Outside
    /// the marks, `screen` must have the cells of the screen that was shown last.
    pub fn update_marked<W: Wire>(
        &mut self,
        screen: &Virtual,
        marks: &Marks,
        wire: &mut W,
    ) -> Result<(), WireFault>
        requires rows { (screen.now).rows ≡ (C.table self.old.checked).rows }
        requires cols { (screen.now).cols ≡ (C.table self.old.checked).cols }
        requires marked { AreSame marks.now self.old.shown.grid (screen.now).grid }
        ensures refreshes { Refreshes W.went W.failures wire.old wire.new result (C.table self.old.checked)
            (ink_at (C.table self.old.checked) (C.partners self.old.checked) self.old.shown)
            (ink_at (C.table self.old.checked) (C.partners self.old.checked) screen.now)
            (wanted_of screen.now self.old.mode) self.old.session self.new.session }
        ensures shown { OnOk result (self.new.shown ≡ screen.now) }
        ensures kept { OnErr result (self.new.shown ≡ self.old.shown) }
        ensures certificate { self.new.checked ≡ self.old.checked }
        ensures mode { self.new.mode ≡ self.old.mode }
    {
        let frame = Frame {
            screen,
            marks,
            means: &self.means,
            wanted: wanted_of(screen, self.mode),
        };
        refresh(
            &self.checked,
            &mut self.shown,
            &mut self.session,
            wire,
            &frame,
        )
    }

    /// Sets how the cursor is shown from the next refresh on: `n` is 0 for hidden, 1 for visible, 2 for very visible
    /// (`curs_set`). Returns the mode that was set before. Fails with `BadRegion` for any other number, then with
    /// `NoCap` if the entry can't hide the cursor and show it again; nothing has changed then. Nothing is sent.
    pub fn cursor_mode(&mut self, n: i32) -> Result<u8, Refusal>
        ensures step { (self.new.mode, result) ≡ set_mode (C.table self.old.checked) n self.old.mode }
        ensures others { self.new ≡ record self.old { mode = self.new.mode } }
    {
        let Some(n) = place_below(n, 3) else {
            return Err(Refusal::BadRegion);
        };
        if !(has_line(&self.checked, Row::Civis) && has_line(&self.checked, Row::Cnorm)) {
            return Err(Refusal::NoCap);
        }
        let before = mode_number(self.mode);
        self.mode = mode_of(n);
        Ok(before)
    }

    /// Ends the program's screen: sends `sgr0`, `rmacs`, `cup` to the last line's first column, `cnorm` and `rmcup`, as
    /// far as the entry has them. A lost session is resynchronized first, and a fresh one sends nothing. The session is
    /// fresh afterwards. On `WireFault`, a prefix of these strings went out, and the session is lost.
    pub fn finish<W: Wire>(&mut self, wire: &mut W) -> Result<(), WireFault>
        ensures finishes { Finishes W.went W.failures wire.old wire.new result (C.table self.old.checked)
            self.old.session self.new.session }
        ensures others { self.new ≡ record self.old { session = self.new.session } }
    {
        cur_paint::finish(&self.checked, &mut self.session, wire)
    }

    /// The certificate of the terminal. Its contract also says that the screen that was shown last is of the terminal's
    /// size.
    pub fn checked(&self) -> &C
        ensures value { result.now ≡ self.now.checked }
        ensures rows { self.now.shown.rows ≡ (C.table self.now.checked).rows }
        ensures cols { self.now.shown.cols ≡ (C.table self.now.checked).cols }
    {
        &self.checked
    }

    /// How much is known of the terminal.
    pub fn status(&self) -> Status
        ensures { result ≡ self.now.session.status }
    {
        self.session.status
    }

    /// The number of cells in which `screen`, which must be of the terminal's size, differs from the screen that was
    /// shown last. A pair counts as its colors.
    pub fn differing(&self, screen: &Virtual) -> usize
        requires rows { (screen.now).rows ≡ (C.table self.now.checked).rows }
        requires cols { (screen.now).cols ≡ (C.table self.now.checked).cols }
        ensures value { result ≡ in_lines self.now.shown screen.now (C.table self.now.checked).cols
            (C.table self.now.checked).rows }
        ensures few { result ≤ 100000 }
    {
        // only this call's contract says that the size is that of a terminal
        let _ = self.checked.rows();
        differ(&self.shown.screen, screen)
    }

    /// Makes the session lost, for a caller that knows that not all sent bytes reached the terminal. The next refresh
    /// begins anew. Nothing is sent.
    pub fn lose(&mut self)
        ensures { self.new ≡ record self.old { session = record self.old.session { status = Lost } } }
    {
        self.session.status = Status::Lost;
    }

    /// Rings the bell: sends exactly `bel`. Fails with `NoCap` if the entry has no `bel`, then with `IsLost` if the
    /// session is lost; nothing was sent then. If the wire fails, a prefix of the string went out, and the session is
    /// lost.
    pub fn beep<W: Wire>(&mut self, wire: &mut W) -> Result<(), Unsent>
        ensures beeps { Rings W.went W.failures wire.old wire.new result (C.table self.old.checked)
            self.old.session self.new.session }
        ensures others { self.new ≡ record self.old { session = self.new.session } }
    {
        ring(&self.checked, &mut self.session, wire)
    }
}

/// The wanted state of the terminal beside the cells: the cursor's place on `screen`, its `mode`, and whether to clear.
fn wanted_of(screen: &Virtual, mode: Mode) -> Wanted
    ensures { result ≡ wanted_of screen.now mode }
{
    let cursor = match screen.cursor() {
        Some(place) => Some(Place {
            row: place.row as usize,
            col: place.col as usize,
        }),
        None => None,
    };
    Wanted {
        cursor,
        mode,
        clear: screen.clearok(),
    }
}

/// A list that says for each of `rows` lines that no column differs. Fails if memory runs out.
fn no_columns(alloc: Global, rows: usize) -> Result<Vec<Columns>, AllocError> {
    let mut columns = Vec::with_capacity(alloc, rows)?;
    for _row in 0..rows {
        columns.push(Columns { from: 0, end: 0 })?;
    }
    Ok(columns)
}

/// Refreshes the terminal with the screen of `frame`, and copies that screen to `shown`. On `WireFault`, nothing is
/// copied.
fn refresh<C: Certificate, W: Wire>(
    checked: &C,
    shown: &mut Shown,
    session: &mut Knowledge,
    wire: &mut W,
    frame: &Frame<'_>,
) -> Result<(), WireFault>
    requires rows { (frame.now.screen.now).rows ≡ (C.table checked.now).rows }
    requires cols { (frame.now.screen.now).cols ≡ (C.table checked.now).cols }
    requires shown { IsPainter (C.table checked.now) shown.old.screen frame.now.wanted.mode }
    requires wanted { frame.now.wanted ≡ wanted_of frame.now.screen.now frame.now.wanted.mode }
    requires means { frame.now.means.now ≡ means_of (C.table checked.now) (C.partners checked.now) }
    requires marked { AreSame frame.now.marks.now (shown.old.screen).grid (frame.now.screen.now).grid }
    ensures refreshes { Refreshes W.went W.failures wire.old wire.new result (C.table checked.now)
        (ink_at (C.table checked.now) (C.partners checked.now) shown.old.screen)
        (ink_at (C.table checked.now) (C.partners checked.now) frame.now.screen.now) frame.now.wanted session.old
        session.new }
    ensures shown { OnOk result (shown.new.screen ≡ frame.now.screen.now) }
    ensures kept { OnErr result (shown.new.screen ≡ shown.old.screen) }
{
    // only these calls' contracts say that the certificate is verified, that each cell can be printed, and that the
    // cursor is on the screen
    let _ = checked.rows();
    let screen = frame.screen;
    cells_hold(&shown.screen, screen);
    let _ = screen.row(0);
    let shift = Shift {
        shown: &shown.screen,
        screen,
        checked,
        same_pairs: shown.screen.same_pairs(screen),
    };
    let cols = checked.cols();
    let lines = shift.find(frame.marks, &mut shown.columns, cols);
    let found = Found {
        shift,
        cols,
        lines,
        columns: &shown.columns,
    };
    let means = frame.means;
    let old = PrintedScreen {
        screen: &shown.screen,
        means,
    };
    let new = PrintedScreen { screen, means };
    let screens = Screens {
        checked,
        old: &old,
        new: &new,
    };
    cur_paint::update(&screens, session, wire, &found, frame.wanted)?;
    shown.screen.copy_marked(screen, frame.marks);
    Ok(())
}

/// The number of `mode`: 0 to 2.
fn mode_number(mode: Mode) -> u8
    ensures { result ≡ mode_number mode }
{
    match mode {
        Mode::Hidden => 0,
        Mode::Normal => 1,
        Mode::Prominent => 2,
    }
}

/// The mode of the number `n`: very visible for all above 1.
fn mode_of(n: u16) -> Mode
    ensures { result ≡ mode_of n }
{
    match n {
        0 => Mode::Hidden,
        1 => Mode::Normal,
        _ => Mode::Prominent,
    }
}
