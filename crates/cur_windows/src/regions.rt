//! The rows that a window's region may scroll.
use cur_screens::{Hint, Origin, Scroll, Slot, after_writing};

// Updates the scroll to remember after the window `slot` wrote and its region moved up by `lines` lines. `origin` is
// the place of its grid on a screen of `cols` columns. Usually nothing has moved.
pub(crate) fn note_writing(
    scrolled: &mut Option<Scroll>,
    slot: &Slot,
    origin: Origin,
    cols: u16,
    lines: u16,
) {
    if lines > 0 {
        note_moved(scrolled, slot, origin, cols, lines);
    }
}

// Updates as `note_writing` does. It stands alone so that writing without a scroll stays short.
#[inline(never)]
fn note_moved(scrolled: &mut Option<Scroll>, slot: &Slot, origin: Origin, cols: u16, lines: u16) {
    *scrolled = after_writing(*scrolled, region_of(slot, origin, cols), lines);
}

// A scroll of the window's region by 0 lines, if the window is as wide as the screen, may scroll, and isn't in a pad.
pub(crate) fn region_of(slot: &Slot, origin: Origin, cols: u16) -> Option<Scroll> {
    let window = slot.window;
    if !window.scrolls || origin.pad || window.area.cols != cols {
        return None;
    }
    let top = origin.top.saturating_add(window.area.top);
    let hint = Hint {
        top: top.saturating_add(window.region_top),
        bottom: top.saturating_add(window.region_bottom),
        up: 0,
    };
    Some(Scroll {
        root: slot.root,
        hint,
    })
}
