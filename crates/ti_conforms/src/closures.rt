//! Sets of charsets, and the charsets to which strings lead.

ghost use Rattle.std.specs.Prelude.{◌≡◌, ◌⊎◌, ◌<◌, ◌+◌, IfSome, IfNone, ℕ, List, true, false, not};
ghost use Rattle.ti_conforms.specs.Closures.{Settled, SomeLeads, LeadsOut, Leaves, StaysFrom, absent, designated_all};
ghost use Rattle.ti_conforms.specs.{Closures.{has, charset_number, or_kept}, Table.{settles}};
ghost use Rattle.vt_effects.specs.Effect.{designated, switched};
ghost use Rattle.vt_term.specs.Screen.{Charset, is_graphic};

use crate::reach::Reach;
use ti_rows::Row;
use vt_effects::{Sets, Switch};
use vt_term::Charset;

/// A set of charsets.
#[derive(Clone, Copy, Debug, PartialEq, Eq)]
pub struct Charsets {
    members: [bool; 8],
}

fn number_of(charset: Charset) -> usize
    ensures value { result ≡ charset_number charset }
    ensures range { result < 8 }
{
    usize::from(charset.g0_graphic)
        + 2 * usize::from(charset.g1_graphic)
        + 4 * usize::from(charset.shifted_out)
}

/// The charset of this number, below 8.
fn charset_at(number: usize) -> Charset
    ensures { (c : Charset) → charset_number c ≡ number → result ≡ c }
{
    Charset {
        g0_graphic: number % 2 == 1,
        g1_graphic: number / 2 % 2 == 1,
        shifted_out: number / 4 % 2 == 1,
    }
}

/// A string that changes no charset.
pub const KEPT: Sets = Sets {
    g0_graphic: Switch::Kept,
    g1_graphic: Switch::Kept,
    shifted_out: Switch::Kept,
};

/// The change that a string makes to the charset; [`KEPT`] if there is no string.
pub fn or_kept(change: Option<Sets>) -> Sets
    ensures { result ≡ or_kept change }
{
    change.unwrap_or(KEPT)
}

/// Whether strings of `row` lead from settled charsets to settled ones: all rows but those that
/// begin or end a program's screen.
pub fn settles(row: Row) -> bool
    ensures { result ≡ settles row }
{
    !matches!(row, Row::Smcup | Row::Rmcup)
}

/// Whether a mark that is `on` or not is on after the switch.
pub fn switched(switch: Switch, on: bool) -> bool
    ensures { result ≡ switched switch on }
{
    match switch {
        Switch::Kept => on,
        Switch::On => true,
        Switch::Off => false,
    }
}

/// The charset that `change` makes of `charset`.
pub fn designated(change: Sets, charset: Charset) -> Charset
    ensures { result ≡ designated change charset }
{
    Charset {
        g0_graphic: switched(change.g0_graphic, charset.g0_graphic),
        g1_graphic: switched(change.g1_graphic, charset.g1_graphic),
        shifted_out: switched(change.shifted_out, charset.shifted_out),
    }
}

/// The charset that `changes`, one after another, make of `charset`.
fn designated_all(changes: &[Sets], charset: Charset) -> Charset
    ensures { result ≡ designated_all changes.now charset }
{
    let mut charset = charset;
    for change in changes {
        charset = designated(*change, charset);
    }
    charset
}

impl Charsets {
    /// No charset at all.
    fn none() -> Charsets
        ensures { (c : Charset) → has result c ≡ false }
    {
        Charsets {
            members: [false; 8],
        }
    }

    /// Whether the charset is in the set.
    pub fn has(&self, charset: Charset) -> bool
        ensures { result ≡ has self.now charset }
    {
        self.members[number_of(charset)]
    }

    fn add(&mut self, charset: Charset)
        ensures new { has self.new charset ≡ true }
        ensures old { (c : Charset) → has self.old c ≡ true → has self.new c ≡ true }
        ensures only { (c : Charset) → has self.new c ≡ true → (has self.old c ≡ true) ⊎ (c ≡ charset) }
        ensures fewer { has self.old charset ≡ false → absent self.new + 1 ≡ absent self.old }
    {
        self.members[number_of(charset)] = true;
    }

    /// The charsets that these strings, sent one after another, leave of the charsets within `reach`.
    pub fn left_by(changes: &[Sets], reach: Reach) -> Charsets
        ensures sound { (d : Charset) → has result d ≡ true → Leaves reach changes.now d }
        ensures complete { (d : Charset) → Leaves reach changes.now d → has result d ≡ true }
    {
        let mut left = Charsets::none();
        for number in 0..8 {
            let charset = charset_at(number);
            if reach.can_have(charset) {
                left.add(designated_all(changes, charset));
            }
        }
        left
    }

    /// A charset outside this set to which one of the changes leads from `charset`.
    fn outside_from(&self, changes: &[Sets], charset: Charset) -> Option<Charset>
        ensures some { IfSome result (λ d. (has self.now d ≡ false) × SomeLeads changes.now charset d) }
        ensures none { IfNone result (StaysFrom self.now changes.now charset) }
    {
        for change in changes {
            let left = designated(*change, charset);
            if !self.has(left) {
                return Some(left);
            }
        }
        None
    }

    /// A charset outside this set to which one of the changes leads from a member.
    fn outside(&self, changes: &[Sets]) -> Option<Charset>
        ensures some { IfSome result (λ d. (has self.now d ≡ false) × LeadsOut self.now changes.now d) }
        ensures none { IfNone result ((c : Charset) → has self.now c ≡ true → StaysFrom self.now changes.now c) }
    {
        for number in 0..8 {
            let charset = charset_at(number);
            if self.has(charset) {
                let outside = self.outside_from(changes, charset);
                if outside.is_some() {
                    return outside;
                }
            }
        }
        None
    }

    /// Adds each charset to which the changes lead from the set, in any number of steps.
    pub fn close(&mut self, changes: &[Sets])
        ensures sound { (c : Charset) → has self.new c ≡ true
            → Settled (λ d. has self.old d ≡ true) (SomeLeads changes.now) c }
        ensures complete { (c : Charset) → Settled (λ d. has self.old d ≡ true) (SomeLeads changes.now) c
            → has self.new c ≡ true }
    {
        while let Some(charset) = self.outside(changes) {
            self.add(charset);
        }
    }

    /// A member from which `change` leads to a charset whose active set is plain if `graphic`, and
    /// graphic if not.
    pub fn misled(&self, change: Sets, graphic: bool) -> Option<Charset>
        ensures some { IfSome result (λ c. (has self.now c ≡ true) × (is_graphic (designated change c) ≡ not graphic)) }
        ensures none { IfNone result ((c : Charset) → has self.now c ≡ true
            → is_graphic (designated change c) ≡ graphic) }
    {
        for number in 0..8 {
            let charset = charset_at(number);
            if self.has(charset) && designated(change, charset).is_graphic() != graphic {
                return Some(charset);
            }
        }
        None
    }
}
