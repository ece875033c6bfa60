//! The bytes that calls send.
ghost use Rattle.std.specs.Prelude.{◌≡◌, ℕ, List};
ghost use Rattle.cur_screens.specs.{Marks.{AreSame}, VirtualScreen.{Screen}};
ghost use Rattle.cur_play.specs.{Outputs.{Puts}, Sends.{Delivers}};
ghost use Rattle.cur_play.specs.Steps as spec;

use crate::answers::Answer;
use cur_screens::Virtual;
use cur_scripts::{Call, PadCall, ScreenCall, ShowCall};
use cur_update::{Painter, Unsent, Wire};
use cur_windows::Marks;
use ti_conforms::Certificate;

/// The kind of bytes that a call sends.
#[derive(Clone, Copy)]
pub enum Emission {
    /// Nothing.
    Nothing,
    /// The bytes that make the terminal show the virtual screen.
    Update,
    /// The bell.
    Bell,
    /// The end of the program's screen.
    End,
}

/// The kind of bytes that `call` sends, if it isn't refused.
pub(crate) fn output_of(call: &Call<'_>) -> Emission
    ensures { result ≡ spec.output_of call.now }
{
    match call {
        Call::Show { call, .. } => shown_window(*call),
        Call::ShowPad { call, .. } => shown_pad(*call),
        Call::Screen(call) => screen_output(*call),
        Call::Newwin { .. } | Call::Newpad { .. } => Emission::Nothing,
        Call::Part { .. } | Call::Dupwin { .. } => Emission::Nothing,
        Call::Plain { .. } | Call::Number { .. } | Call::Numbers { .. } => Emission::Nothing,
        Call::Flag { .. } | Call::Attributes { .. } | Call::Cell { .. } => Emission::Nothing,
        Call::Addstr { .. } | Call::Line { .. } => Emission::Nothing,
        Call::DrawBorder { .. } | Call::DrawBox { .. } => Emission::Nothing,
        Call::Lay { .. } | Call::Copywin { .. } => Emission::Nothing,
        Call::CursSet { .. } | Call::InitPair { .. } => Emission::Nothing,
    }
}

fn shown_window(call: ShowCall) -> Emission
    ensures { result ≡ spec.shown_window call }
{
    match call {
        ShowCall::Noutrefresh => Emission::Nothing,
        ShowCall::Refresh => Emission::Update,
    }
}

fn shown_pad(call: PadCall) -> Emission
    ensures { result ≡ spec.shown_pad call }
{
    match call {
        PadCall::Pnoutrefresh => Emission::Nothing,
        PadCall::Prefresh => Emission::Update,
    }
}

fn screen_output(call: ScreenCall) -> Emission
    ensures { result ≡ spec.screen_output call }
{
    match call {
        ScreenCall::Doupdate => Emission::Update,
        ScreenCall::Beep => Emission::Bell,
        ScreenCall::Endwin => Emission::End,
    }
}

/// Sends `output`. `marks` has the places where `screen` may differ from what was shown last.
pub(crate) fn send<C: Certificate, W: Wire>(
    screen: &mut Virtual,
    marks: &mut Marks,
    painter: &mut Painter<C>,
    output: Emission,
    wire: &mut W,
) -> Answer
    requires rows { (screen.old).rows ≡ (C.table painter.old.checked).rows }
    requires cols { (screen.old).cols ≡ (C.table painter.old.checked).cols }
    requires marked { AreSame marks.old painter.old.shown.grid (screen.old).grid }
    ensures delivers { Delivers (C.table painter.old.checked) output screen.old painter.old.session.status result
        screen.new painter.new.session.status }
    ensures puts { (bytes : List ℕ)
        × Puts W.went W.failures wire.old wire.new (C.table painter.old.checked) (C.partners painter.old.checked)
        screen.old output result bytes painter.old painter.new }
    ensures certificate { painter.new.checked ≡ painter.old.checked }
    ensures mode { painter.new.mode ≡ painter.old.mode }
    ensures marked { AreSame marks.new painter.new.shown.grid (screen.new).grid }
    ensures cells { (screen.new).grid ≡ (screen.old).grid }
{
    match output {
        Emission::Nothing => Answer::Done,
        Emission::Update => update(screen, marks, painter, wire),
        Emission::Bell => ring(painter, wire),
        Emission::End => match painter.finish(wire) {
            Ok(()) => Answer::Done,
            Err(_) => Answer::WireFailed,
        },
    }
}

/// Makes the terminal show the virtual screen, which differs from what was shown last only where it is marked.
fn update<C: Certificate, W: Wire>(
    screen: &mut Virtual,
    marks: &mut Marks,
    painter: &mut Painter<C>,
    wire: &mut W,
) -> Answer
    requires rows { (screen.old).rows ≡ (C.table painter.old.checked).rows }
    requires cols { (screen.old).cols ≡ (C.table painter.old.checked).cols }
    requires marked { AreSame marks.old painter.old.shown.grid (screen.old).grid }
    ensures delivers { Delivers (C.table painter.old.checked) Emission.Update screen.old painter.old.session.status
        result screen.new painter.new.session.status }
    ensures puts { (bytes : List ℕ)
        × Puts W.went W.failures wire.old wire.new (C.table painter.old.checked) (C.partners painter.old.checked)
        screen.old Emission.Update result bytes painter.old painter.new }
    ensures certificate { painter.new.checked ≡ painter.old.checked }
    ensures mode { painter.new.mode ≡ painter.old.mode }
    ensures marked { AreSame marks.new painter.new.shown.grid (screen.new).grid }
    ensures cells { (screen.new).grid ≡ (screen.old).grid }
{
    match painter.update_marked(screen, marks, wire) {
        Ok(()) => {
            screen.shown();
            marks.clear();
            Answer::Done
        }
        Err(_) => Answer::WireFailed,
    }
}

/// Rings the bell.
fn ring<C: Certificate, W: Wire>(painter: &mut Painter<C>, wire: &mut W) -> Answer
    ensures delivers { (screen : Screen)
        → Delivers (C.table painter.old.checked) Emission.Bell screen painter.old.session.status result screen
        painter.new.session.status }
    ensures puts { (screen : Screen) → (bytes : List ℕ)
        × Puts W.went W.failures wire.old wire.new (C.table painter.old.checked) (C.partners painter.old.checked)
        screen Emission.Bell result bytes painter.old painter.new }
    ensures certificate { painter.new.checked ≡ painter.old.checked }
    ensures mode { painter.new.mode ≡ painter.old.mode }
    ensures shown { painter.new.shown ≡ painter.old.shown }
{
    match painter.beep(wire) {
        Ok(()) => Answer::Done,
        Err(Unsent::Refused(refusal)) => Answer::Refused(refusal),
        Err(Unsent::Wire(_)) => Answer::WireFailed,
    }
}
