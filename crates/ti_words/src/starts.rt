//! A state of the terminal, in words.

ghost use Rattle.std.specs.Prelude.{◌≡◌, ◌++◌, if◌then◌else◌, IfOk, OnOk};
ghost use Rattle.ti_words.specs.Starts as spec;

use std::alloc::Global;
use ti_files::{Made, Pushed};
use vt_term::{Charset, Color, Rendition, Settings, Size};

/// The words for the state `start` of a terminal of `size`, in which every cell must show the character `fill`: this
/// character, the cursor, and the settings that aren't as after a reset.
pub fn start_words(alloc: Global, size: Size, start: &Settings, fill: u8) -> Made
    ensures { IfOk result (λ words. words.items ≡ spec.start_text size.rows start.now fill) }
{
    let mut words = Vec::from_slice(alloc, b"every cell shows '")?;
    words.extend_from_slice(&[fill, b'\''])?;
    push_cursor(alloc, start, &mut words)?;
    push_unreset(alloc, size, start, &mut words)?;
    Ok(words)
}

/// Appends the words for those of the settings `start`, except the cursor's place, that aren't as after a reset of a
/// terminal of `size`.
fn push_unreset(alloc: Global, size: Size, start: &Settings, words: &mut Vec<u8>) -> Pushed
    ensures { OnOk result (words.new.items ≡ words.old.items ++ spec.unreset_text size.rows start.now) }
{
    let rest = at_rest(size);
    push_settings(alloc, &rest, &rest, start, words)
}

/// The settings of a terminal of `size` after a reset.
pub fn at_rest(size: Size) -> Settings
    ensures { result ≡ spec.at_rest size.rows }
{
    Settings {
        row: 0,
        col: 0,
        pending: false,
        rendition: Rendition::plain(),
        charset: Charset {
            g0_graphic: false,
            g1_graphic: false,
            shifted_out: false,
        },
        top: 0,
        bottom: size.rows.saturating_sub(1),
        visible: true,
    }
}

/// Appends the words for those of the settings `now`, except the cursor's place, that differ from those `before` or
/// from those at `rest`.
pub fn push_settings(
    alloc: Global,
    before: &Settings,
    rest: &Settings,
    now: &Settings,
    words: &mut Vec<u8>,
) -> Pushed
    ensures { OnOk result (words.new.items
        ≡ words.old.items ++ spec.settings_text before.now rest.now now.now) }
{
    let wraps = !same_flag(now.pending, before.pending) || now.pending;
    push_if(wraps, wrap_words(now.pending), words)?;
    push_region(alloc, before, rest, now, words)?;
    push_look(before.rendition, rest.rendition, now.rendition, words)?;
    push_sets(before.charset, rest.charset, now.charset, words)?;
    let hides = !same_flag(now.visible, before.visible) || !now.visible;
    push_if(hides, cursor_words(now.visible), words)
}

/// Appends the scrolling region `now`, if it isn't the one `before` or the one at `rest`.
fn push_region(
    alloc: Global,
    before: &Settings,
    rest: &Settings,
    now: &Settings,
    words: &mut Vec<u8>,
) -> Pushed
    ensures { OnOk result (words.new.items
        ≡ words.old.items ++ spec.region_seen_text before.now rest.now now.now) }
{
    if !same_region(now, before) || !same_region(now, rest) {
        push_margins(alloc, now, words)
    } else {
        Ok(())
    }
}

/// Appends the rendition `now`, if it isn't the one `before` or the one at `rest`.
fn push_look(before: Rendition, rest: Rendition, now: Rendition, words: &mut Vec<u8>) -> Pushed
    ensures { OnOk result (words.new.items ≡ words.old.items ++ spec.look_seen_text before rest now) }
{
    if !same_rendition(now, before) || !same_rendition(now, rest) {
        push_after(b", the rendition is", now, words)
    } else {
        Ok(())
    }
}

/// Appends the sets `now`, if they aren't those `before` or those at `rest`.
fn push_sets(before: Charset, rest: Charset, now: Charset, words: &mut Vec<u8>) -> Pushed
    ensures { OnOk result (words.new.items ≡ words.old.items ++ spec.sets_seen_text before rest now) }
{
    if !same_charset(now, before) || !same_charset(now, rest) {
        push_charset(now, words)
    } else {
        Ok(())
    }
}

/// Appends the words for the sets G0 and G1 and for the active one.
fn push_charset(charset: Charset, words: &mut Vec<u8>) -> Pushed
    ensures { OnOk result (words.new.items ≡ words.old.items ++ spec.sets_text charset) }
{
    words.extend_from_slice(b", G0 is ")?;
    words.extend_from_slice(set_name(charset.g0_graphic))?;
    words.extend_from_slice(b", G1 is ")?;
    words.extend_from_slice(set_name(charset.g1_graphic))?;
    words.extend_from_slice(active_words(charset.shifted_out))
}

const WRAPS: &[u8] = b", and the next character wraps to the next line";

const NO_LONGER_WRAPS: &[u8] = b", and the next character no longer wraps";

fn wrap_words(pending: bool) -> &'static [u8]
    ensures { result.now ≡ spec.wrap_text pending }
{
    chosen(pending, WRAPS, NO_LONGER_WRAPS)
}

fn cursor_words(visible: bool) -> &'static [u8]
    ensures { result.now ≡ spec.cursor_seen_text visible }
{
    chosen(
        visible,
        b", the cursor is visible",
        b", the cursor is hidden",
    )
}

fn set_name(is_graphic: bool) -> &'static [u8]
    ensures { result.now ≡ spec.set_name is_graphic }
{
    chosen(is_graphic, b"the line drawing set", b"the plain set")
}

fn active_words(shifted_out: bool) -> &'static [u8]
    ensures { result.now ≡ spec.active_text shifted_out }
{
    chosen(shifted_out, b", G1 is active", b", G0 is active")
}

/// The words `yes` if it `is_so`, else the words `no`.
pub fn chosen(is_so: bool, yes: &'static [u8], no: &'static [u8]) -> &'static [u8]
    ensures { result.now ≡ (if is_so then yes.now else no.now) }
{
    if is_so { yes } else { no }
}

/// Appends `more` to `words` if `is_so`.
pub fn push_if(is_so: bool, more: &[u8], words: &mut Vec<u8>) -> Pushed
    ensures { OnOk result (words.new.items ≡ words.old.items ++ spec.if_so is_so more.now) }
{
    if is_so {
        words.extend_from_slice(more)
    } else {
        Ok(())
    }
}

// Appends to `$words` the text of each flag of `$of` that is on.
macro_rules! push_flags {
    ($of:ident, $words:ident; $($flag:ident $text:literal),*) => {
        $(push_if($of.$flag, $text, $words)?;)*
    };
}

pub(crate) use push_flags;

/// Appends the place of the cursor.
pub fn push_cursor(alloc: Global, settings: &Settings, words: &mut Vec<u8>) -> Pushed
    ensures { OnOk result (words.new.items
        ≡ words.old.items ++ spec.cursor_text settings.now.row settings.now.col) }
{
    words.extend_from_slice(b", the cursor is at ")?;
    push_place(alloc, settings.row, settings.col, words)
}

/// Appends the place of a cell.
pub fn push_place(alloc: Global, row: usize, col: usize, words: &mut Vec<u8>) -> Pushed
    ensures { OnOk result (words.new.items ≡ words.old.items ++ spec.place_text row col) }
{
    let place = format!(in alloc; "row {row}, column {col}")?;
    words.extend_from_slice(place.as_bytes())
}

/// Appends the scrolling region.
fn push_margins(alloc: Global, settings: &Settings, words: &mut Vec<u8>) -> Pushed
    ensures { OnOk result (words.new.items
        ≡ words.old.items ++ spec.margins_text settings.now.top settings.now.bottom) }
{
    let top = settings.top;
    let bottom = settings.bottom;
    let text = format!(in alloc; ", the scrolling region is rows {top} to {bottom}")?;
    words.extend_from_slice(text.as_bytes())
}

/// Appends `front` and the words for `rendition`.
pub fn push_after(front: &[u8], rendition: Rendition, words: &mut Vec<u8>) -> Pushed
    ensures { OnOk result (words.new.items
        ≡ words.old.items ++ (front.now ++ spec.rendition_text rendition)) }
{
    words.extend_from_slice(front)?;
    push_rendition(rendition, words)
}

/// Whether a mark is on, or a color is not the default.
#[tactic(auto, unfolding(crate::specs::Starts::has_look))]
pub fn has_look(rendition: Rendition) -> bool
    ensures { result ≡ spec.has_look rendition }
{
    has_mark(rendition) || has_colors(rendition)
}

fn has_mark(rendition: Rendition) -> bool
    ensures { result ≡ spec.has_mark rendition }
{
    rendition.bold
        || rendition.faint
        || rendition.underline
        || rendition.blink
        || rendition.negative
        || rendition.concealed
}

fn has_colors(rendition: Rendition) -> bool
    ensures { result ≡ spec.has_colors rendition }
{
    !(rendition.foreground.is_none() && rendition.background.is_none())
}

/// Appends the words for `rendition`: the marks that are on, or that it is plain if none is, and both colors if one
/// isn't the default.
#[tactic(auto, unfolding(crate::specs::Starts::rendition_text))]
pub fn push_rendition(rendition: Rendition, words: &mut Vec<u8>) -> Pushed
    ensures { OnOk result (words.new.items ≡ words.old.items ++ spec.rendition_text rendition) }
{
    if has_mark(rendition) {
        push_marks(rendition, words)?;
    } else {
        words.extend_from_slice(b" plain")?;
    }
    push_colors(rendition, words)
}

/// Appends the marks of `rendition` that are on.
fn push_marks(rendition: Rendition, words: &mut Vec<u8>) -> Pushed
    ensures { OnOk result (words.new.items ≡ words.old.items ++ spec.marks_text rendition) }
{
    push_flags!(rendition, words;
        bold b" bold", faint b" dim", underline b" underlined", blink b" blinking",
        negative b" reverse", concealed b" invisible"
    );
    Ok(())
}

/// Appends both colors of `rendition`, if one isn't the default.
fn push_colors(rendition: Rendition, words: &mut Vec<u8>) -> Pushed
    ensures { OnOk result (words.new.items ≡ words.old.items ++ spec.colors_text rendition) }
{
    if !has_colors(rendition) {
        return Ok(());
    }
    words.extend_from_slice(b" in ")?;
    words.extend_from_slice(color_name(rendition.foreground))?;
    words.extend_from_slice(b" on ")?;
    words.extend_from_slice(color_name(rendition.background))
}

pub fn color_name(color: Option<Color>) -> &'static [u8]
    ensures { result.now ≡ spec.color_name color }
{
    match color {
        None => b"default",
        Some(Color::Black) => b"black",
        Some(Color::Red) => b"red",
        Some(Color::Green) => b"green",
        Some(Color::Yellow) => b"yellow",
        Some(Color::Blue) => b"blue",
        Some(Color::Magenta) => b"magenta",
        Some(Color::Cyan) => b"cyan",
        Some(Color::White) => b"white",
    }
}

// ---- equality, flag by flag, so that it has a contract

/// Whether all settings of `one` and `other` are equal.
#[tactic(auto, unfolding(crate::specs::Starts::same_settings))]
pub fn same_settings(one: &Settings, other: &Settings) -> bool
    ensures { result ≡ spec.same_settings one.now other.now }
{
    same_place(one, other)
        && same_rendition(one.rendition, other.rendition)
        && same_charset(one.charset, other.charset)
        && same_region(one, other)
        && same_flag(one.visible, other.visible)
}

fn same_place(one: &Settings, other: &Settings) -> bool
    ensures { result ≡ spec.same_place one.now other.now }
{
    one.row == other.row && one.col == other.col && same_flag(one.pending, other.pending)
}

/// Whether the scrolling regions of `one` and `other` are equal.
fn same_region(one: &Settings, other: &Settings) -> bool
    ensures { result ≡ spec.same_region one.now other.now }
{
    one.top == other.top && one.bottom == other.bottom
}

#[tactic(auto, unfolding(crate::specs::Starts::same_rendition))]
fn same_rendition(one: Rendition, other: Rendition) -> bool
    ensures { result ≡ spec.same_rendition one other }
{
    same_marks(one, other)
        && same_color(one.foreground, other.foreground)
        && same_color(one.background, other.background)
}

fn same_marks(one: Rendition, other: Rendition) -> bool
    ensures { result ≡ spec.same_marks one other }
{
    same_flag(one.bold, other.bold)
        && same_flag(one.faint, other.faint)
        && same_flag(one.underline, other.underline)
        && same_flag(one.blink, other.blink)
        && same_flag(one.negative, other.negative)
        && same_flag(one.concealed, other.concealed)
}

fn same_color(one: Option<Color>, other: Option<Color>) -> bool
    ensures { result ≡ spec.same_color one other }
{
    color_name(one) == color_name(other)
}

fn same_charset(one: Charset, other: Charset) -> bool
    ensures { result ≡ spec.same_charset one other }
{
    same_flag(one.g0_graphic, other.g0_graphic)
        && same_flag(one.g1_graphic, other.g1_graphic)
        && same_flag(one.shifted_out, other.shifted_out)
}

fn same_flag(one: bool, other: bool) -> bool
    ensures { result ≡ spec.same_flag one other }
{
    if one { other } else { !other }
}
