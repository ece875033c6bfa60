//! The desk: grids, and the windows that are rectangles of them.
ghost use Rattle.std.specs.Prelude.{◌≡◌, ◌<◌, ◌≤◌, Some, None, Ok, Err, IfErr, IfOk, [], replicate, false};
ghost use Rattle.cur_drawing.specs.Grids.{blank};
ghost use Rattle.cur_windows.specs.Desks.{IsPlaced, IsDesk};
ghost use Rattle.cur_windows.specs.Desks as spec;

use cur_drawing::{Cell, Refusal, Window};
use cur_screens::{Origin, Scroll, Slot, WINDOWS, blank_grid, whole_area};
use grids::Grid;
use std::alloc::{AllocError, Global};
use std::marker::Model;
use vt_term::Size;

/// The windows of a screen. Numbers 0 to 63 name them; 0 is the screen's own and always there.
#[derive(Drop)]
pub struct Desk {
    pub(crate) alloc: Global,
    pub(crate) rows: u16,
    pub(crate) cols: u16,
    pub(crate) grids: Vec<Grid<Cell>>,
    pub(crate) origins: Vec<Origin>,
    pub(crate) windows: Vec<Option<Slot>>,
    pub(crate) scrolled: Option<Scroll>,
}

impl Model for Desk {
    ghost use Rattle.cur_windows.specs.Desks.{State, IsDesk};

    ghost Value = { State };

    ghost view = { λ d. record {
      rows = d.rows;
      cols = d.cols;
      grids = d.grids.items;
      origins = d.origins.items;
      windows = d.windows.items;
    } };

    ghost invariant = { λ d. IsDesk (record {
      rows = d.rows;
      cols = d.cols;
      grids = d.grids.items;
      origins = d.origins.items;
      windows = d.windows.items;
    }) };
}

impl Desk {
    /// A desk with window 0, of spaces without attributes, over a screen of this size. Fails if
    /// memory runs out.
    pub fn new(alloc: Global, size: Size) -> Result<Desk, AllocError>
        ensures { IfOk result (λ desk. desk ≡ spec.new_desk size.rows size.cols) }
    {
        let (rows, cols) = (size.rows as u16, size.cols as u16);
        let whole = whole_area(rows, cols);
        let mut grids = empty_grids(alloc)?;
        let mut windows = no_windows(alloc)?;
        let origins = screen_origins(alloc)?;
        grids[0] = blank_grid(alloc, rows, cols)?;
        windows[0] = Some(Slot {
            root: 0,
            parent: None,
            window: Window::new(whole),
        });
        Ok(Desk {
            alloc,
            rows,
            cols,
            grids,
            origins,
            windows,
            scrolled: None,
        })
    }

    pub(crate) fn find(&self, id: usize) -> Result<Slot, Refusal>
        ensures value { result ≡ spec.slot_of self.now id }
        ensures placed { IfOk result (λ s. IsPlaced self.now id s) }
        ensures there { IfOk result (λ s. (id < 64) × (spec.window_at self.now id ≡ Some s)) }
    {
        if id >= WINDOWS {
            return Err(Refusal::Full);
        }
        let Some(slot) = self.windows[id] else {
            return Err(Refusal::NoWindow);
        };
        Ok(slot)
    }

    // As `find`, without a copy of the slot.
    pub(crate) fn slot(&self, id: usize) -> Result<&Slot, Refusal>
        ensures found { IfOk result (λ s. spec.slot_of self.now id ≡ Ok s.now) }
        ensures refused { IfErr result (λ e. spec.slot_of self.now id ≡ Err e) }
        ensures placed { IfOk result (λ s. IsPlaced self.now id s.now) }
        ensures there { IfOk result (λ s. (id < 64) × (spec.window_at self.now id ≡ Some s.now)) }
    {
        if id >= WINDOWS {
            return Err(Refusal::Full);
        }
        match &self.windows[id] {
            Some(slot) => Ok(slot),
            None => Err(Refusal::NoWindow),
        }
    }
}

fn empty_grids(alloc: Global) -> Result<Vec<Grid<Cell>>, AllocError>
    ensures { IfOk result (λ grids. grids.items ≡ replicate 64 []) }
{
    let mut grids = Vec::with_capacity(alloc, WINDOWS)?;
    for _k in 0..WINDOWS {
        grids.push(Grid::empty(alloc))?;
    }
    Ok(grids)
}

fn screen_origins(alloc: Global) -> Result<Vec<Origin>, AllocError>
    ensures { IfOk result (λ origins. origins.items ≡ replicate 64 (spec.on_screen 0 0 false)) }
{
    let corner = Origin {
        top: 0,
        left: 0,
        pad: false,
    };
    vec![in alloc; corner; WINDOWS]
}

fn no_windows(alloc: Global) -> Result<Vec<Option<Slot>>, AllocError>
    ensures { IfOk result (λ windows. windows.items ≡ replicate 64 None) }
{
    let mut windows = Vec::with_capacity(alloc, WINDOWS)?;
    for _k in 0..WINDOWS {
        windows.push(None)?;
    }
    Ok(windows)
}
