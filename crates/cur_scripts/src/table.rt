//! The table of calls: the name of each, and the function that reads its arguments. For some
//! letters each, a function has the names that begin with them.
ghost use Rattle.cur_scripts.specs.Takers.{HandsOn};
ghost use Rattle.cur_scripts.specs.Table as spec;

use crate::arguments::{
    addstr, attributes, bare, beep, cell, copywin, curs_set, draw_border, draw_box, dupwin, flag,
    init_pair, lay, line, newpad, newwin, number, numbers, part, plain, show, show_pad,
};
use crate::faults::ScriptFaultKind;
use crate::takers::{Taker, hand_on};
use crate::words::Words;
use crate::{
    AttrsCall, CellCall, FlagCall, LayCall, LineCall, NumberCall, NumbersCall, PadCall, PartCall,
    PlainCall, ScreenCall, ShowCall,
};

// Passes on to `$to` what is read for the first of these names that is the first word of `$text`, where `$words` are
// the words after it; no call if none of them is.
macro_rules! named {
    ($text:ident, $to:ident, $words:ident; $($name:literal => $read:expr,)*) => {
        $(if let Some($words) = Words::after($name, $text) { hand_on($read, $to) } else)* { hand_on(None, $to) }
    };
}

/// Passes the call of the line `text` on to `to`, by the line's first word. `BadLine` if the line
/// isn't a call, `NoMemory` if the call isn't taken.
#[inline(always)]
pub(crate) fn hand_on_named<'a, T: Taker<'a>>(
    text: &'a [u8],
    to: &mut T,
) -> Result<(), ScriptFaultKind>
    ensures { HandsOn (T.calls to.old) (T.has_room to.old) (spec.call_under spec.table text.now)
        (T.calls to.new) result }
{
    match text {
        [b'a', ..] => under_a(text, to),
        [b'b', ..] => under_b(text, to),
        [b'c', ..] => under_c(text, to),
        [b'd', ..] => under_d(text, to),
        [b'e', ..] => under_e_to_i(text, to),
        [b'h', ..] => under_e_to_i(text, to),
        [b'i', ..] => under_e_to_i(text, to),
        [b'l', ..] => under_l_to_n(text, to),
        [b'm', ..] => under_l_to_n(text, to),
        [b'n', ..] => under_l_to_n(text, to),
        [b'o', ..] => under_o_to_p(text, to),
        [b'p', ..] => under_o_to_p(text, to),
        [b'r', ..] => under_r(text, to),
        [b's', ..] => under_s_to_v(text, to),
        [b't', ..] => under_s_to_v(text, to),
        [b'v', ..] => under_s_to_v(text, to),
        _ => hand_on(None, to),
    }
}

#[inline(never)]
fn under_a<'a, T: Taker<'a>>(text: &'a [u8], to: &mut T) -> Result<(), ScriptFaultKind>
    ensures { HandsOn (T.calls to.old) (T.has_room to.old)
        (spec.call_under (spec.under 97 97) text.now) (T.calls to.new) result }
{
    named! { text, to, words;
        b"addch" => cell(CellCall::Addch, words),
        b"addstr" => addstr(words),
        b"attroff" => attributes(AttrsCall::Attroff, words),
        b"attron" => attributes(AttrsCall::Attron, words),
        b"attrset" => attributes(AttrsCall::Attrset, words),
    }
}

#[inline(never)]
fn under_b<'a, T: Taker<'a>>(text: &'a [u8], to: &mut T) -> Result<(), ScriptFaultKind>
    ensures { HandsOn (T.calls to.old) (T.has_room to.old)
        (spec.call_under (spec.under 98 98) text.now) (T.calls to.new) result }
{
    named! { text, to, words;
        b"beep" => beep(words),
        b"bkgd" => cell(CellCall::Bkgd, words),
        b"bkgdset" => cell(CellCall::Bkgdset, words),
        b"border" => draw_border(words),
        b"box" => draw_box(words),
    }
}

#[inline(never)]
fn under_c<'a, T: Taker<'a>>(text: &'a [u8], to: &mut T) -> Result<(), ScriptFaultKind>
    ensures { HandsOn (T.calls to.old) (T.has_room to.old)
        (spec.call_under (spec.under 99 99) text.now) (T.calls to.new) result }
{
    named! { text, to, words;
        b"clear" => plain(PlainCall::Clear, words),
        b"clearok" => flag(FlagCall::Clearok, words),
        b"clrtobot" => plain(PlainCall::Clrtobot, words),
        b"clrtoeol" => plain(PlainCall::Clrtoeol, words),
        b"color_set" => number(NumberCall::ColorSet, words),
        b"copywin" => copywin(words),
        b"curs_set" => curs_set(words),
    }
}

#[inline(never)]
fn under_d<'a, T: Taker<'a>>(text: &'a [u8], to: &mut T) -> Result<(), ScriptFaultKind>
    ensures { HandsOn (T.calls to.old) (T.has_room to.old)
        (spec.call_under (spec.under 100 100) text.now) (T.calls to.new) result }
{
    named! { text, to, words;
        b"delch" => plain(PlainCall::Delch, words),
        b"deleteln" => plain(PlainCall::Deleteln, words),
        b"delwin" => plain(PlainCall::Delwin, words),
        b"derwin" => part(PartCall::Derwin, words),
        b"doupdate" => bare(ScreenCall::Doupdate, words),
        b"dupwin" => dupwin(words),
    }
}

#[inline(never)]
fn under_e_to_i<'a, T: Taker<'a>>(text: &'a [u8], to: &mut T) -> Result<(), ScriptFaultKind>
    ensures { HandsOn (T.calls to.old) (T.has_room to.old)
        (spec.call_under (spec.under 101 105) text.now) (T.calls to.new) result }
{
    named! { text, to, words;
        b"endwin" => bare(ScreenCall::Endwin, words),
        b"erase" => plain(PlainCall::Erase, words),
        b"hline" => line(LineCall::Hline, words),
        b"idlok" => flag(FlagCall::Idlok, words),
        b"init_pair" => init_pair(words),
        b"insch" => cell(CellCall::Insch, words),
        b"insertln" => plain(PlainCall::Insertln, words),
    }
}

#[inline(never)]
fn under_l_to_n<'a, T: Taker<'a>>(text: &'a [u8], to: &mut T) -> Result<(), ScriptFaultKind>
    ensures { HandsOn (T.calls to.old) (T.has_room to.old)
        (spec.call_under (spec.under 108 110) text.now) (T.calls to.new) result }
{
    named! { text, to, words;
        b"leaveok" => flag(FlagCall::Leaveok, words),
        b"move" => numbers(NumbersCall::Move, words),
        b"mvwin" => numbers(NumbersCall::Mvwin, words),
        b"newpad" => newpad(words),
        b"newwin" => newwin(words),
        b"noutrefresh" => show(ShowCall::Noutrefresh, words),
    }
}

#[inline(never)]
fn under_o_to_p<'a, T: Taker<'a>>(text: &'a [u8], to: &mut T) -> Result<(), ScriptFaultKind>
    ensures { HandsOn (T.calls to.old) (T.has_room to.old)
        (spec.call_under (spec.under 111 112) text.now) (T.calls to.new) result }
{
    named! { text, to, words;
        b"overlay" => lay(LayCall::Overlay, words),
        b"overwrite" => lay(LayCall::Overwrite, words),
        b"pnoutrefresh" => show_pad(PadCall::Pnoutrefresh, words),
        b"prefresh" => show_pad(PadCall::Prefresh, words),
    }
}

#[inline(never)]
fn under_r<'a, T: Taker<'a>>(text: &'a [u8], to: &mut T) -> Result<(), ScriptFaultKind>
    ensures { HandsOn (T.calls to.old) (T.has_room to.old)
        (spec.call_under (spec.under 114 114) text.now) (T.calls to.new) result }
{
    named! { text, to, words;
        b"refresh" => show(ShowCall::Refresh, words),
    }
}

#[inline(never)]
fn under_s_to_v<'a, T: Taker<'a>>(text: &'a [u8], to: &mut T) -> Result<(), ScriptFaultKind>
    ensures { HandsOn (T.calls to.old) (T.has_room to.old)
        (spec.call_under (spec.under 115 118) text.now) (T.calls to.new) result }
{
    named! { text, to, words;
        b"scroll" => number(NumberCall::Scroll, words),
        b"scrollok" => flag(FlagCall::Scrollok, words),
        b"setscrreg" => numbers(NumbersCall::Setscrreg, words),
        b"subpad" => part(PartCall::Subpad, words),
        b"subwin" => part(PartCall::Subwin, words),
        b"touchline" => numbers(NumbersCall::Touchline, words),
        b"touchwin" => plain(PlainCall::Touchwin, words),
        b"vline" => line(LineCall::Vline, words),
    }
}
