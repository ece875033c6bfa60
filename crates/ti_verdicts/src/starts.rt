//! The state that a probe describes, in words.

ghost use Rattle.std.specs.Prelude.{◌≡◌, IfOk, option_map};
ghost use Rattle.ti_verdicts.specs.Starts as spec;
ghost use Rattle.ti_words.specs.{Runs.{IsRunText}, Starts.{start_text}};

use std::alloc::{AllocError, Global};
use ti_checker::Probe;
use ti_words::{run_words, start_words};
use vt_term::{Rendition, Settings, Size};

/// The state of `probe` on a terminal of `size`, in words.
pub(crate) fn probe_words(alloc: Global, size: Size, probe: &Probe) -> Result<Vec<u8>, AllocError>
    ensures { IfOk result (λ words. words.items
        ≡ start_text size.rows (spec.settings_of probe.now) probe.now.fill) }
{
    start_words(alloc, size, &settings_of(probe), probe.fill)
}

/// The words for the changes by a run of `bytes` from the state of `probe` on a terminal of `size`; `None` if there is
/// no such terminal, or the bytes don't run on it.
pub(crate) fn probe_run_words(
    alloc: Global,
    size: Size,
    probe: &Probe,
    bytes: &[u8],
) -> Result<Option<Vec<u8>>, AllocError>
    ensures { IfOk result (λ found. IsRunText size.rows size.cols (spec.settings_of probe.now)
        probe.now.fill bytes.now (option_map (λ words. words.items) found)) }
{
    run_words(alloc, size, &settings_of(probe), probe.fill, bytes)
}

fn settings_of(probe: &Probe) -> Settings
    ensures { result ≡ spec.settings_of probe.now }
{
    Settings {
        row: usize::from(probe.row),
        col: usize::from(probe.col),
        pending: probe.pending,
        rendition: rendition_of(probe),
        charset: probe.charset,
        top: usize::from(probe.top),
        bottom: usize::from(probe.bottom),
        visible: probe.visible,
    }
}

fn rendition_of(probe: &Probe) -> Rendition
    ensures { result ≡ spec.rendition_of probe.now }
{
    Rendition {
        bold: probe.look.bold,
        faint: probe.look.faint,
        underline: probe.look.underline,
        blink: probe.look.blink,
        negative: probe.look.negative,
        concealed: probe.look.concealed,
        foreground: probe.foreground,
        background: probe.background,
    }
}
