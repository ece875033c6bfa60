//! Which capabilities of an entry are checked.

ghost use Rattle.std.specs.Prelude.{◌≡◌, ◌<◌, IfNone, IfSome, Some, false, is_some, true};
ghost use Rattle.ti_caps.specs.Entry.{string_at};
ghost use Rattle.ti_conforms.specs.Entries as spec;

use ti_caps::{Cap, Entry, Kind, at};
use ti_rows::{NO_ATTRIBUTES, Row};
use vt_term::Color;

/// The group of capabilities with which a capability is checked.
#[derive(Clone, Copy, Debug, PartialEq, Eq)]
pub enum Group {
    /// `setaf`, `setab` and `op`: checked if the entry has all of them.
    Colors,
    /// A single attribute: checked if the entry has no `sgr`.
    Single,
    /// `smacs` and `rmacs`: checked if the entry has both and `acsc`.
    Sets,
    /// All others: checked by themselves.
    Alone,
}

fn group_of(row: Row) -> Group
    ensures { result ≡ spec.group_of row }
{
    match row {
        Row::Setaf(_) | Row::Setab(_) | Row::Op => Group::Colors,
        Row::Smul | Row::Rev | Row::Blink | Row::Dim => Group::Single,
        Row::Bold | Row::Invis | Row::Smso => Group::Single,
        Row::Smacs | Row::Rmacs => Group::Sets,
        _ => Group::Alone,
    }
}

fn has_string(entry: &Entry, row: Row) -> bool
    ensures { result ≡ spec.has_string entry.now row }
{
    entry.get_string(row.cap()).is_some()
}

fn has_acsc(entry: &Entry) -> bool
    ensures { result ≡ is_some (string_at entry.now spec.acsc) }
{
    match at(Kind::String, 146) {
        Some(acsc) => entry.get_string(acsc).is_some(),
        None => false,
    }
}

fn meets(entry: &Entry, group: Group) -> bool
    ensures { result ≡ spec.meets entry.now group }
{
    match group {
        Group::Colors => {
            has_string(entry, Row::Setaf(Color::Black))
                && has_string(entry, Row::Setab(Color::Black))
                && has_string(entry, Row::Op)
        }
        Group::Single => !has_string(entry, Row::Sgr(NO_ATTRIBUTES)),
        Group::Sets => {
            has_string(entry, Row::Smacs) && has_string(entry, Row::Rmacs) && has_acsc(entry)
        }
        Group::Alone => true,
    }
}

/// Whether the entry has the capability of `row` and it is checked: colors if the entry can set both and
/// take them back, single attributes if it has no `sgr`, `smacs` and `rmacs` if it has both and `acsc`.
pub fn is_checked(entry: &Entry, row: Row) -> bool
    ensures { result ≡ spec.is_checked entry.now row }
{
    has_string(entry, row) && meets(entry, group_of(row))
}

/// The entry's string for `row`, if the entry has it and it is checked.
pub fn checked_string(entry: &Entry, row: Row) -> Option<&[u8]>
    ensures checked { IfSome result (λ string. spec.is_checked entry.now row ≡ true) }
    ensures there { IfSome result (λ string. spec.string_of entry.now row ≡ Some string.now) }
    ensures none { IfNone result (spec.is_checked entry.now row ≡ false) }
{
    if is_checked(entry, row) {
        entry.get_string(row.cap())
    } else {
        None
    }
}
