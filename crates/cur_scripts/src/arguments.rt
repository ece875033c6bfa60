//! The arguments of each call: for each form of them, a function takes the words of a line after
//! the name, and no more.
//!
//! A `Call` is a large value. The functions of the calls that programs make most often are inlined
//! where the call is passed on, so that it is made in its final place.
ghost use Rattle.std.specs.Prelude.{◌≡◌};
ghost use Rattle.cur_scripts.specs.Arguments as spec;

use crate::words::Words;
use crate::{
    AttrsCall, Call, CellCall, FlagCall, LayCall, LineCall, NumberCall, NumbersCall, PadCall,
    PartCall, PlainCall, ScreenCall, ShowCall,
};
use cur_drawing::{Border, Put};

/// `newwin n l c y x`
pub(crate) fn newwin<'a>(words: Words<'a>) -> Option<Call<'a>>
    ensures { result ≡ spec.newwin words.entry }
{
    let (window, words) = words.window()?;
    let ((lines, cols, y, x), words) = words.four_numbers()?;
    words.end()?;
    Some(Call::Newwin {
        window,
        lines,
        cols,
        y,
        x,
    })
}

/// `newpad n l c`
pub(crate) fn newpad<'a>(words: Words<'a>) -> Option<Call<'a>>
    ensures { result ≡ spec.newpad words.entry }
{
    let (window, words) = words.window()?;
    let ((lines, cols), words) = words.two_numbers()?;
    words.end()?;
    Some(Call::Newpad {
        window,
        lines,
        cols,
    })
}

/// `subwin n w l c y x`
pub(crate) fn part<'a>(call: PartCall, words: Words<'a>) -> Option<Call<'a>>
    ensures { result ≡ spec.part call words.entry }
{
    let ((window, parent), words) = words.two_windows()?;
    let ((lines, cols, y, x), words) = words.four_numbers()?;
    words.end()?;
    Some(Call::Part {
        call,
        window,
        parent,
        lines,
        cols,
        y,
        x,
    })
}

/// `dupwin n w`
pub(crate) fn dupwin<'a>(words: Words<'a>) -> Option<Call<'a>>
    ensures { result ≡ spec.dupwin words.entry }
{
    let ((window, source), words) = words.two_windows()?;
    words.end()?;
    Some(Call::Dupwin { window, source })
}

/// `erase w`
pub(crate) fn plain<'a>(call: PlainCall, words: Words<'a>) -> Option<Call<'a>>
    ensures { result ≡ spec.plain call words.entry }
{
    let (window, words) = words.window()?;
    words.end()?;
    Some(Call::Plain { call, window })
}

/// `scroll w n`
#[inline(always)]
pub(crate) fn number<'a>(call: NumberCall, words: Words<'a>) -> Option<Call<'a>>
    ensures { result ≡ spec.number call words.entry }
{
    let (window, words) = words.window()?;
    let (number, words) = words.number()?;
    words.end()?;
    Some(Call::Number {
        call,
        window,
        number,
    })
}

/// `move w y x`
#[inline(always)]
pub(crate) fn numbers<'a>(call: NumbersCall, words: Words<'a>) -> Option<Call<'a>>
    ensures { result ≡ spec.numbers call words.entry }
{
    let (window, words) = words.window()?;
    let ((first, second), words) = words.two_numbers()?;
    words.end()?;
    Some(Call::Numbers {
        call,
        window,
        first,
        second,
    })
}

/// `scrollok w f`
pub(crate) fn flag<'a>(call: FlagCall, words: Words<'a>) -> Option<Call<'a>>
    ensures { result ≡ spec.flag call words.entry }
{
    let (window, words) = words.window()?;
    let (on, words) = words.flag()?;
    words.end()?;
    Some(Call::Flag { call, window, on })
}

/// `attron w A`
#[inline(always)]
pub(crate) fn attributes<'a>(call: AttrsCall, words: Words<'a>) -> Option<Call<'a>>
    ensures { result ≡ spec.attributes call words.entry }
{
    let (window, words) = words.window()?;
    let (attrs, words) = words.attrs()?;
    words.end()?;
    Some(Call::Attributes {
        call,
        window,
        attrs,
    })
}

/// `addch w cell`
#[inline(always)]
pub(crate) fn cell<'a>(call: CellCall, words: Words<'a>) -> Option<Call<'a>>
    ensures { result ≡ spec.cell call words.entry }
{
    let (window, words) = words.window()?;
    let (put, words) = words.cell()?;
    words.end()?;
    Some(Call::Cell { call, window, put })
}

/// `addstr w TEXT`
#[inline(always)]
pub(crate) fn addstr<'a>(words: Words<'a>) -> Option<Call<'a>>
    ensures { result ≡ spec.addstr words.entry }
{
    let (window, words) = words.window()?;
    Some(Call::Addstr {
        window,
        text: words.rest()?,
    })
}

// The default cell of a line.
fn default_of(call: LineCall) -> Put
    ensures { result ≡ spec.default_of call }
{
    match call {
        LineCall::Hline => Put::horizontal_line(),
        LineCall::Vline => Put::vertical_line(),
    }
}

/// `hline w cell n`
pub(crate) fn line<'a>(call: LineCall, words: Words<'a>) -> Option<Call<'a>>
    ensures { result ≡ spec.line call words.entry }
{
    let (window, words) = words.window()?;
    let (put, words) = words.cell_or(default_of(call))?;
    let (count, words) = words.number()?;
    words.end()?;
    Some(Call::Line {
        call,
        window,
        put,
        count,
    })
}

/// `border w ls rs ts bs tl tr bl br`
pub(crate) fn draw_border<'a>(words: Words<'a>) -> Option<Call<'a>>
    ensures { result ≡ spec.draw_border words.entry }
{
    let (window, words) = words.window()?;
    let (sides, words) = sides(words)?;
    let (border, words) = corners(sides, words)?;
    words.end()?;
    Some(Call::DrawBorder { window, border })
}

// The four sides of a border, which has the default corners.
fn sides<'a>(words: Words<'a>) -> Option<(Border, Words<'a>)>
    ensures { result ≡ spec.sides words.entry }
{
    let (left, words) = words.cell_or(Put::vertical_line())?;
    let (right, words) = words.cell_or(Put::vertical_line())?;
    let (top, words) = words.cell_or(Put::horizontal_line())?;
    let (bottom, words) = words.cell_or(Put::horizontal_line())?;
    let border = Border {
        left,
        right,
        top,
        bottom,
        ..Border::lines()
    };
    Some((border, words))
}

// The four corners of a border.
fn corners<'a>(border: Border, words: Words<'a>) -> Option<(Border, Words<'a>)>
    ensures { result ≡ spec.corners border words.entry }
{
    let lines = Border::lines();
    let (top_left, words) = words.cell_or(lines.top_left)?;
    let (top_right, words) = words.cell_or(lines.top_right)?;
    let (bottom_left, words) = words.cell_or(lines.bottom_left)?;
    let (bottom_right, words) = words.cell_or(lines.bottom_right)?;
    let border = Border {
        top_left,
        top_right,
        bottom_left,
        bottom_right,
        ..border
    };
    Some((border, words))
}

/// `box w v h`
pub(crate) fn draw_box<'a>(words: Words<'a>) -> Option<Call<'a>>
    ensures { result ≡ spec.draw_box words.entry }
{
    let (window, words) = words.window()?;
    let (vertical, words) = words.cell_or(Put::vertical_line())?;
    let (horizontal, words) = words.cell_or(Put::horizontal_line())?;
    words.end()?;
    Some(Call::DrawBox {
        window,
        vertical,
        horizontal,
    })
}

/// `overlay s d`
pub(crate) fn lay<'a>(call: LayCall, words: Words<'a>) -> Option<Call<'a>>
    ensures { result ≡ spec.lay call words.entry }
{
    let ((source, target), words) = words.two_windows()?;
    words.end()?;
    Some(Call::Lay {
        call,
        source,
        target,
    })
}

/// `copywin s d sr sc dr dc er ec f`
pub(crate) fn copywin<'a>(words: Words<'a>) -> Option<Call<'a>>
    ensures { result ≡ spec.copywin words.entry }
{
    let ((source, target), words) = words.two_windows()?;
    let ((from_row, from_col), words) = words.two_numbers()?;
    let ((row, col, last_row, last_col), words) = words.four_numbers()?;
    let (skip, words) = words.flag()?;
    words.end()?;
    Some(Call::Copywin {
        skip,
        source,
        target,
        from_row,
        from_col,
        row,
        col,
        last_row,
        last_col,
    })
}

/// `refresh w`
#[inline(always)]
pub(crate) fn show<'a>(call: ShowCall, words: Words<'a>) -> Option<Call<'a>>
    ensures { result ≡ spec.show call words.entry }
{
    let (window, words) = words.window()?;
    words.end()?;
    Some(Call::Show { call, window })
}

/// `prefresh w pr pc sr sc er ec`
pub(crate) fn show_pad<'a>(call: PadCall, words: Words<'a>) -> Option<Call<'a>>
    ensures { result ≡ spec.show_pad call words.entry }
{
    let (window, words) = words.window()?;
    let ((row, col), words) = words.two_numbers()?;
    let ((top, left, bottom, right), words) = words.four_numbers()?;
    words.end()?;
    Some(Call::ShowPad {
        call,
        window,
        row,
        col,
        top,
        left,
        bottom,
        right,
    })
}

/// `beep 0`
pub(crate) fn beep<'a>(words: Words<'a>) -> Option<Call<'a>>
    ensures { result ≡ spec.beep words.entry }
{
    let (_zero, words) = words.zero()?;
    words.end()?;
    Some(Call::Screen(ScreenCall::Beep))
}

/// `curs_set n`
pub(crate) fn curs_set<'a>(words: Words<'a>) -> Option<Call<'a>>
    ensures { result ≡ spec.curs_set words.entry }
{
    let (mode, words) = words.number()?;
    words.end()?;
    Some(Call::CursSet { mode })
}

/// `init_pair p f b`
pub(crate) fn init_pair<'a>(words: Words<'a>) -> Option<Call<'a>>
    ensures { result ≡ spec.init_pair words.entry }
{
    let (pair, words) = words.number()?;
    let ((foreground, background), words) = words.two_numbers()?;
    words.end()?;
    Some(Call::InitPair {
        pair,
        foreground,
        background,
    })
}

/// `doupdate`
pub(crate) fn bare<'a>(call: ScreenCall, words: Words<'a>) -> Option<Call<'a>>
    ensures { result ≡ spec.bare call words.entry }
{
    words.end()?;
    Some(Call::Screen(call))
}
