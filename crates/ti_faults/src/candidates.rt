//! The string that is taken in place of one at fault.

ghost use Rattle.std.specs.{Prelude.{◌≡◌, ◌<◌, IfSome, IsTrue}, Option.{option_copied}};
ghost use Rattle.ti_caps.specs.Fits.{string_fits};
ghost use Rattle.ti_faults.specs.Candidates as spec;

use crate::standards::{general, matching, shifts, standard};
use ti_caps::Entry;
use ti_rows::Row;

/// How the strings that switch character sets are mended: `enacs`, `smacs` and `rmacs`.
#[derive(Clone, Copy, Debug, PartialEq, Eq)]
pub(crate) enum Way {
    /// Only those at fault, each by itself.
    Single,
    /// As one: `smacs` and `rmacs` designate G0.
    Designating,
    /// As one: `enacs` designates G0 and G1, and `smacs` and `rmacs` shift between them.
    Shifting,
}

impl Way {
    /// The way by SO and SI if `shifts`, else by designating G0.
    fn shifting_if(shifts: bool) -> Way
        ensures { result ≡ spec.way_by shifts }
    {
        if shifts {
            Way::Shifting
        } else {
            Way::Designating
        }
    }
}

/// How many choices for an entry mend only what is at fault: the first ones.
pub(crate) fn singles(entry: &Entry) -> u8
    ensures count { result ≡ spec.singles entry.now }
    ensures few { result < 5 }
{
    if shifts(entry) { 4 } else { 1 }
}

/// The way of the choice with this number for an entry.
fn way_of(entry: &Entry, number: u8) -> Way
    ensures { result ≡ spec.way_of entry.now number }
{
    let singles = singles(entry);
    if number < singles {
        Way::Single
    } else if number == singles {
        Way::shifting_if(shifts(entry))
    } else {
        Way::shifting_if(!shifts(entry))
    }
}

/// The string by which the row's capability designates G0, if it does.
fn designating(row: Row) -> Option<&'static [u8]>
    ensures value { option_copied result ≡ spec.designating row }
    ensures fits { IfSome result (λ string. IsTrue (string_fits string.now)) }
{
    match row {
        Row::Smacs | Row::Rmacs => standard(row),
        _ => None,
    }
}

/// The string of the row's capability where SO and SI switch sets, if it has a part in that.
fn shifting(row: Row) -> Option<&'static [u8]>
    ensures value { option_copied result ≡ spec.shifting row }
    ensures fits { IfSome result (λ string. IsTrue (string_fits string.now)) }
{
    match row {
        Row::Enacs => standard(row),
        Row::Smacs => Some(b"\x0e"),
        Row::Rmacs => Some(b"\x0f"),
        _ => None,
    }
}

/// The choice of candidates for `enacs`, `smacs` and `rmacs`, which are right only together: for each of the last two
/// its second one, or else its first, if it is at fault; or one way to switch sets for all three. Beside it, whether
/// `sgr0` gets its second candidate.
#[derive(Clone, Copy, Debug, PartialEq, Eq)]
pub struct Choice {
    second_smacs: bool,
    second_rmacs: bool,
    second_sgr0: bool,
    way: Way,
}

impl Choice {
    /// The choice with this number for an entry, with the second candidate for `sgr0` or its first.
    pub(crate) fn of(entry: &Entry, second_sgr0: bool, number: u8) -> Choice
        ensures { result ≡ spec.choice_of entry.now second_sgr0 number }
    {
        Choice {
            second_smacs: number / 2 % 2 == 1,
            second_rmacs: number % 2 == 1,
            second_sgr0,
            way: way_of(entry, number),
        }
    }

    /// The string that the row's capability gets together with the others that switch sets, if they are mended as one.
    pub(crate) fn as_one(self, row: Row) -> Option<&'static [u8]>
        ensures value { option_copied result ≡ spec.as_one self.way row }
        ensures fits { IfSome result (λ string. IsTrue (string_fits string.now)) }
    {
        match self.way {
            Way::Single => None,
            Way::Designating => designating(row),
            Way::Shifting => shifting(row),
        }
    }

    /// Whether the second candidate of the row's capability is taken.
    fn takes_second(self, row: Row) -> bool
        ensures { result ≡ spec.takes_second self row }
    {
        match row {
            Row::Smacs => self.second_smacs,
            Row::Rmacs => self.second_rmacs,
            Row::Sgr0 => self.second_sgr0,
            Row::Clear | Row::Cup(_, _) | Row::Home | Row::Cr | Row::Hpa(_) | Row::Vpa(_) => false,
            Row::Cub1 | Row::Cuf1 | Row::Cuu1 | Row::Cud1 => false,
            Row::Cub(_) | Row::Cuf(_) | Row::Cuu(_) | Row::Cud(_) => false,
            Row::El | Row::El1 | Row::Ed | Row::Ech(_) => false,
            Row::Sgr(_) | Row::Setaf(_) | Row::Setab(_) | Row::Op => false,
            Row::Smul | Row::Rev | Row::Blink | Row::Dim | Row::Bold | Row::Invis => false,
            Row::Smso | Row::Enacs | Row::Csr(_, _) | Row::Ind | Row::Ri => false,
            Row::Civis | Row::Cnorm | Row::Cvvis | Row::Smcup | Row::Rmcup | Row::Bel => false,
        }
    }

    /// The candidate for the row's capability of an entry by itself, if it has one.
    fn by_itself(self, entry: &Entry, row: Row) -> Option<&'static [u8]>
        ensures value { option_copied result ≡ spec.by_itself entry.now self row }
        ensures fits { IfSome result (λ string. IsTrue (string_fits string.now)) }
    {
        if self.takes_second(row) {
            return general(entry, row);
        }
        match matching(entry, row) {
            Some(string) => Some(string),
            None => general(entry, row),
        }
    }

    /// The candidate for the row's capability of an entry, if it has one.
    pub fn candidate(self, entry: &Entry, row: Row) -> Option<&'static [u8]>
        ensures value { option_copied result ≡ spec.candidate entry.now self row }
        ensures fits { IfSome result (λ string. IsTrue (string_fits string.now)) }
    {
        match self.as_one(row) {
            Some(string) => Some(string),
            None => self.by_itself(entry, row),
        }
    }

    /// The string with which the row's capability is mended: the candidate, or else the standards' own.
    pub(crate) fn stand_in(self, entry: &Entry, row: Row) -> Option<&'static [u8]>
        ensures value { option_copied result ≡ spec.stand_in entry.now self row }
        ensures fits { IfSome result (λ string. IsTrue (string_fits string.now)) }
    {
        match self.candidate(entry, row) {
            Some(string) => Some(string),
            None => standard(row),
        }
    }
}
