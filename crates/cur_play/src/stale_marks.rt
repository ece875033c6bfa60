//! The places where a copy may differ from its original.
ghost use Rattle.std.specs.Prelude.{IfOk};
ghost use Rattle.cur_screens.specs.Touched.{AreFull};

use cur_screens::Touched;
use cur_windows::Marks;
use std::alloc::{AllocError, Global};

/// Marks of the places where the virtual screen may differ from each grid, and of those where it may differ from what
/// the painter has shown last.
#[derive(Drop)]
pub struct StaleMarks {
    pub window: Touched,
    pub screen: Marks,
}

impl StaleMarks {
    /// The marks of a screen of `rows` lines: every place of each grid is marked, and none of the screen. Fails if
    /// memory runs out.
    pub(crate) fn new(alloc: Global, rows: u16) -> Result<StaleMarks, AllocError>
        ensures { IfOk result (λ stale. AreFull stale.window) }
    {
        let window = Touched::new(alloc, rows)?;
        let screen = Marks::new(alloc, rows)?;
        Ok(StaleMarks { window, screen })
    }
}
