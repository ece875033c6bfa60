//! The changes by a run.

ghost use Rattle.std.specs.Prelude.{◌≡◌, IfOk};
ghost use Rattle.ti_words.specs.Seen as spec;

use crate::changes::{Change, changed_cells, push_changed};
use crate::starts::{at_rest, push_cursor, push_settings, same_settings};
use std::alloc::Global;
use ti_files::Made;
use vt_term::{Settings, Size, Terminal};

/// The words for the changes by a run from `start`, where every cell shows the character `fill`, to `end`.
pub fn seen_words(alloc: Global, start: &Settings, end: &Terminal, fill: u8) -> Made
    ensures { IfOk result (λ words. words.items ≡ spec.seen_text start.now end.now.screen fill) }
{
    let changes = changed_cells(alloc, end, fill)?;
    outcome(
        alloc,
        end.size(),
        start,
        changes.as_slice(),
        &end.settings(),
    )
}

/// The words for the changed cells `changes`, and for the settings `now`, as far as they differ from those `before`.
fn outcome(alloc: Global, size: Size, before: &Settings, changes: &[Change], now: &Settings) -> Made
    ensures { IfOk result (λ words. words.items
        ≡ spec.outcome_text size.rows before.now changes.now now.now) }
{
    if is_unchanged(changes, before, now) {
        Vec::from_slice(alloc, b"nothing changes")
    } else {
        changed_words(alloc, size, before, changes, now)
    }
}

fn is_unchanged(changes: &[Change], before: &Settings, now: &Settings) -> bool
    ensures { result ≡ spec.is_unchanged changes.now before.now now.now }
{
    changes.is_empty() && same_settings(now, before)
}

/// The words of `outcome` where something has changed.
fn changed_words(
    alloc: Global,
    size: Size,
    before: &Settings,
    changes: &[Change],
    now: &Settings,
) -> Made
    ensures { IfOk result (λ words. words.items
        ≡ spec.all_text size.rows before.now changes.now now.now) }
{
    let mut words = Vec::new(alloc);
    push_changed(alloc, changes, &mut words)?;
    push_cursor(alloc, now, &mut words)?;
    push_settings(alloc, before, &at_rest(size), now, &mut words)?;
    Ok(words)
}
