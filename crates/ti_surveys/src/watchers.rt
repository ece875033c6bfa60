//! Watchers of surveys, which pass their lines on and report their progress.

ghost use Rattle.std.specs.Prelude.{◌≡◌, ℕ, Bool, List, Option, None};
ghost use Rattle.ti_surveys.specs.Heard.{Hears};

use crate::said::Said;

/// Passes on the lines of a survey as soon as they are known, and receives reports of how far the survey has come.
pub trait Watcher {
    /// The lines that it has passed on, if they are known.
    ghost heard: { Self → Option (List ℕ) } = { λ _. None };

    /// Whether it has failed to pass some lines on.
    ghost has_failed: { Self → Bool };

    /// Reports that `done` of `all` files or entries are done, and that the one named `name` is next.
    fn begins(&mut self, done: usize, all: usize, name: &[u8])
        ensures heard { heard self.new ≡ heard self.old }
        ensures failed { has_failed self.new ≡ has_failed self.old };

    /// Passes the `lines` on, whole lines that follow those so far. If it has failed, at this call or before, it may
    /// pass on any part of them.
    fn hears(&mut self, lines: &[u8])
        ensures { Hears heard has_failed self.old self.new lines.now };

    /// Reports that there is no next one.
    fn ends(&mut self)
        ensures heard { heard self.new ≡ heard self.old }
        ensures failed { has_failed self.new ≡ has_failed self.old };
}

/// Lets the `watcher` pass on the lines that were `said`.
pub fn pass_on<W: Watcher>(watcher: &mut W, said: &Said)
    ensures { Hears W.heard W.has_failed watcher.old watcher.new said.now.lines.items }
{
    watcher.hears(said.lines.as_slice());
}
