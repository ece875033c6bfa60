//! The part of each call that is done before anything is sent.
ghost use Rattle.std.specs.Prelude.{◌≡◌};
ghost use Rattle.cur_screens.specs.Marks.{Keeps};
ghost use Rattle.cur_windows.specs.TouchedWindows.{ShowsBut};
ghost use Rattle.cur_play.specs.{Drawings.{Draws, SameSizes}, Groups.{showing}};

use crate::answers::{Answer, answer_of, mode_answer};
use crate::creations::make;
use crate::stale_marks::StaleMarks;
use crate::windows::change;
use cur_pads::pnoutrefresh;
use cur_screens::Virtual;
use cur_scripts::Call;
use cur_update::Painter;
use cur_windows::Desk;
use ti_conforms::Certificate;

/// Does everything that a call does, except sending.
pub(crate) fn draw<C: Certificate>(
    desk: &mut Desk,
    screen: &mut Virtual,
    stale: &mut StaleMarks,
    painter: &mut Painter<C>,
    call: &Call<'_>,
) -> Answer
    requires rows { (screen.old).rows ≡ (desk.old).rows }
    requires cols { (screen.old).cols ≡ (desk.old).cols }
    requires touched { ShowsBut stale.old.window desk.old (screen.old).grid }
    ensures draws { Draws (C.table painter.old.checked)
        (record {
          desk = desk.old;
          screen = screen.old;
          mode = painter.old.mode;
          status = painter.old.session.status;
        })
        call.now result
        (record {
          desk = desk.new;
          screen = screen.new;
          mode = painter.new.mode;
          status = painter.old.session.status;
        }) }
    ensures sizes { SameSizes desk.old screen.old desk.new screen.new }
    ensures rows { (screen.new).rows ≡ (screen.old).rows }
    ensures cols { (screen.new).cols ≡ (screen.old).cols }
    ensures certificate { painter.new.checked ≡ painter.old.checked }
    ensures painter { painter.new ≡ record painter.old { mode = painter.new.mode } }
    ensures touched { ShowsBut stale.new.window desk.new (screen.new).grid }
    ensures marked { Keeps stale.old.screen (screen.old).grid stale.new.screen (screen.new).grid }
{
    if let Some(outcome) = make(desk, call) {
        stale.window.mark_all();
        return answer_of(outcome);
    }
    if let Some(outcome) = change(desk, &mut stale.window, call) {
        return answer_of(outcome);
    }
    show(desk, screen, stale, painter, call)
}

/// Does `call`, if it works on more than windows. A call that only sends does nothing here.
fn show<C: Certificate>(
    desk: &mut Desk,
    screen: &mut Virtual,
    stale: &mut StaleMarks,
    painter: &mut Painter<C>,
    call: &Call<'_>,
) -> Answer
    requires rows { (screen.old).rows ≡ (desk.old).rows }
    requires cols { (screen.old).cols ≡ (desk.old).cols }
    requires touched { ShowsBut stale.old.window desk.old (screen.old).grid }
    ensures step { (
      record { desk = desk.new; screen = screen.new; mode = painter.new.mode; status = painter.old.session.status },
      result,
    )
        ≡ showing (C.table painter.old.checked)
        (record { desk = desk.old; screen = screen.old; mode = painter.old.mode; status = painter.old.session.status })
        call.now }
    ensures painter { painter.new ≡ record painter.old { mode = painter.new.mode } }
    ensures touched { ShowsBut stale.new.window desk.new (screen.new).grid }
    ensures marked { Keeps stale.old.screen (screen.old).grid stale.new.screen (screen.new).grid }
{
    match call {
        Call::Show { window, .. } => {
            let (touched, marks) = (&mut stale.window, &mut stale.screen);
            answer_of(desk.noutrefresh_marked(*window, screen, touched, marks))
        }
        Call::ShowPad {
            window,
            row,
            col,
            top,
            left,
            bottom,
            right,
            ..
        } => {
            stale.window.mark_all();
            stale.screen.mark_all();
            answer_of(pnoutrefresh(
                desk, *window, *row, *col, *top, *left, *bottom, *right, screen,
            ))
        }
        Call::CursSet { mode } => mode_answer(painter.cursor_mode(*mode)),
        Call::InitPair {
            pair,
            foreground,
            background,
        } => answer_of(screen.init_pair(*pair, *foreground, *background)),
        Call::Screen(_) => Answer::Done,
        // the calls on windows alone, which were done before
        Call::Newwin { .. }
        | Call::Newpad { .. }
        | Call::Part { .. }
        | Call::Dupwin { .. }
        | Call::Plain { .. }
        | Call::Number { .. }
        | Call::Numbers { .. }
        | Call::Flag { .. }
        | Call::Attributes { .. }
        | Call::Cell { .. }
        | Call::Addstr { .. }
        | Call::Line { .. }
        | Call::DrawBorder { .. }
        | Call::DrawBox { .. }
        | Call::Lay { .. }
        | Call::Copywin { .. } => Answer::Done,
    }
}
