//! Functions and settings applied directly, without bytes.

ghost use Rattle.std.specs.Prelude.{◌≡◌, ◌<◌};

use crate::terminals::Terminal;
use vt_screen::{Function, Settings};

impl Terminal {
    ghost use Rattle.vt_term.specs.Screen.{settings_of, with_settings};
    ghost use Rattle.vt_term.specs.Step as spec;

    /// Does what `function` asks for; an open sequence stays open. A character must be one of 32 to 126.
    pub fn act(&mut self, function: Function<'_>)
        requires { spec.CanAct function }
        ensures { self.new ≡ record self.old { screen = spec.act function.entry self.old.screen } }
    {
        self.display.act(function);
    }

    /// The state of the display except its size, cells, autowrap and insertion.
    pub fn settings(&self) -> Settings
        ensures { result ≡ settings_of self.now.screen }
    {
        self.display.settings()
    }

    /// Replaces the state of the display by `settings`, except its size, cells, autowrap and insertion. The cursor and
    /// the margins must be on the screen, and the margins in order.
    pub fn set(&mut self, settings: Settings)
        requires row_within { settings.row < self.old.screen.rows }
        requires col_within { settings.col < self.old.screen.cols }
        requires region { settings.top < settings.bottom }
        requires bottom_within { settings.bottom < self.old.screen.rows }
        ensures { self.new ≡ record self.old { screen = with_settings settings self.old.screen } }
    {
        self.display.set(settings);
    }
}
