//! The words of an effect's text.
use vt_effects::{Effect, Erasure, Ink, Move, Region, Scroll, Sets, Switch};

/// Changes of the marks of a rendition.
#[derive(Clone, Copy)]
pub(crate) struct Marks {
    pub(crate) bold: Switch,
    pub(crate) faint: Switch,
    pub(crate) underline: Switch,
    pub(crate) blink: Switch,
    pub(crate) negative: Switch,
    pub(crate) concealed: Switch,
}

/// A word of an effect's text.
#[derive(Clone, Copy)]
pub(crate) enum Word {
    Row(Move),
    Col(Move),
    EndsPending,
    Erases(Erasure),
    Scrolls(Scroll),
    Looks(Marks),
    /// The foreground and the background.
    Inks(Ink, Ink),
    Chooses(Sets),
    Rows(Region),
    Shows(Switch),
}

/// The effect of the words so far, and the first place that the next may have.
#[derive(Clone, Copy)]
pub(crate) struct Found {
    pub(crate) effect: Effect,
    pub(crate) next: u8,
}
