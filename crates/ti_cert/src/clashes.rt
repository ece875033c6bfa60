//! The clashes of strings: all that may be wrong with them together, though each is right. They are about the charsets
//! that strings leave, and about the bytes that lead a terminal out of an unknown state.

ghost use Rattle.std.specs.Prelude.{◌≡◌, ◌&&◌, IfErr, IfNone, IfOk, IfSome, OnOk, Some, false, is_some, true};
ghost use Rattle.ti_cert.specs.Clashes as clashes;
ghost use Rattle.ti_cert.specs.Seen as spec;
ghost use Rattle.ti_conforms.specs.Table.{Table};
ghost use Rattle.ti_conforms.specs.Closures as closing;
ghost use Rattle.vt_term.specs.Screen.{Charset};

use ti_conforms::{Charsets, KEPT, Reach, or_kept};
use vt_effects::Sets;
use vt_term::Charset;

/// A fault of strings together, though each is right by itself.
#[derive(Clone, Copy, Debug, PartialEq, Eq)]
pub enum Clash {
    /// After `smacs`, from this charset that strings can leave, the graphic set isn't active.
    Smacs(Charset),
    /// After `rmacs`, from this charset that strings can leave, the graphic set is active.
    Rmacs(Charset),
    /// The graphic set can stay active although letters of line graphics can't be sent.
    Acsc,
    /// The bytes that lead out of an unknown state don't begin with ESC.
    Clear,
}

/// All clashes of strings, each of the four that [`Clash`] names by itself.
#[derive(Clone, Copy, Debug, PartialEq, Eq)]
pub struct AllClashes {
    /// A charset that strings can leave, from which `smacs` goes wrong.
    pub smacs: Option<Charset>,
    /// A charset that strings can leave, from which `rmacs` goes wrong.
    pub rmacs: Option<Charset>,
    /// Whether the graphic set can stay active although letters of line graphics can't be sent.
    pub acsc: bool,
    /// Whether the bytes that lead out of an unknown state don't begin with ESC.
    pub clear: bool,
}

impl AllClashes {
    /// The first of the clashes, `None` if there is none.
    pub fn first(self) -> Option<Clash>
        ensures { result ≡ clashes.first_of self }
    {
        if let Some(charset) = self.smacs {
            return Some(Clash::Smacs(charset));
        }
        if let Some(charset) = self.rmacs {
            return Some(Clash::Rmacs(charset));
        }
        if self.acsc {
            return Some(Clash::Acsc);
        }
        if self.clear { Some(Clash::Clear) } else { None }
    }
}

/// The changes of the charsets by the strings that lead a terminal out of an unknown state, `None` for a string that
/// isn't there. `csr` and `clear` change no charset.
#[derive(Clone, Copy, Debug, PartialEq, Eq)]
pub struct Resync {
    pub smcup: Option<Sets>,
    pub enacs: Option<Sets>,
    pub sgr0: Option<Sets>,
    pub rmacs: Option<Sets>,
}

/// The facts of strings by which they are judged together.
#[derive(Clone, Copy)]
pub struct Facts<'c> {
    /// The marks that the tokens of all strings turn on.
    pub reach: Reach,
    /// The change by each string that leaves settled charsets settled.
    pub changes: &'c [Sets],
    /// The changes by the strings that lead out of an unknown state.
    pub resync: Resync,
    /// The change by `smacs`.
    pub smacs: Option<Sets>,
    /// Whether there are pairs of alternate characters.
    pub has_acsc: bool,
    /// Whether the bytes that lead out of an unknown state begin with ESC.
    pub escapes: bool,
}

/// The charsets to which `resync` leads from those that `reach` allows.
fn first_settled(resync: Resync, reach: Reach) -> Charsets
    ensures sound { (d : Charset) → closing.has result d ≡ true → closing.Leaves reach (spec.parts_of resync) d }
    ensures complete { (d : Charset) → closing.Leaves reach (spec.parts_of resync) d → closing.has result d ≡ true }
{
    let changes = [
        or_kept(resync.smcup),
        or_kept(resync.enacs),
        or_kept(resync.sgr0),
        or_kept(resync.rmacs),
    ];
    Charsets::left_by(&changes, reach)
}

/// The charsets that can be settled: those to which `resync` leads from the ones that `reach` allows, and all to which
/// `changes` lead from there.
fn settled_of(reach: Reach, changes: &[Sets], resync: Resync) -> Charsets
    ensures { spec.AreSettled reach changes.now resync result }
{
    let mut settled = first_settled(resync, reach);
    settled.close(changes);
    settled
}

/// One of the `settled` charsets from which `change` activates the wrong set. The right one is the graphic set if
/// `graphic`, else the plain one.
fn misled(settled: &Charsets, change: Option<Sets>, graphic: bool) -> Option<Charset>
    ensures some { IfSome result (spec.Misleads settled.now change graphic) }
    ensures none { IfNone result (spec.Leads settled.now change graphic) }
{
    match change {
        Some(change) => settled.misled(change, graphic),
        None => None,
    }
}

/// Whether letters of line graphics can be sent: `acsc` and both strings that switch sets are there.
fn all_there(has_acsc: bool, smacs: Option<Sets>, rmacs: Option<Sets>) -> bool
    ensures { result ≡ (has_acsc && (is_some smacs && is_some rmacs)) }
{
    has_acsc && (smacs.is_some() && rmacs.is_some())
}

/// Whether each of the `settled` charsets is plain, or letters of line graphics can be `sent`.
fn is_plain(settled: &Charsets, sent: bool) -> bool
    ensures yes { result ≡ true → sent ≡ false → spec.Leads settled.now (Some closing.kept) false }
    ensures no { result ≡ false → (sent ≡ false) × ((c : Charset) × spec.Misleads settled.now (Some closing.kept)
        false c) }
{
    if sent {
        return true;
    }
    match settled.misled(KEPT, false) {
        Some(_) => false,
        None => true,
    }
}

/// All clashes of strings that can leave the `settled` charsets. `sent` says whether letters of line graphics can be
/// sent, and `escapes` whether the bytes that lead out of an unknown state begin with ESC.
fn clashes_of(
    settled: &Charsets,
    smacs: Option<Sets>,
    rmacs: Option<Sets>,
    sent: bool,
    escapes: bool,
) -> AllClashes
    ensures { spec.AreFound settled.now smacs rmacs sent escapes result }
{
    AllClashes {
        smacs: misled(settled, smacs, true),
        rmacs: misled(settled, rmacs, false),
        acsc: !is_plain(settled, sent),
        clear: !escapes,
    }
}

/// All clashes of strings, each of four by itself: `smacs`, `rmacs`, charsets that stay graphic, and the bytes that
/// lead out of an unknown state.
pub fn all_clashes(facts: Facts<'_>) -> AllClashes
    ensures { (t : Table) → spec.IsFound t facts.entry.reach facts.entry.changes.now facts.entry.resync
        facts.entry.smacs facts.entry.escapes → clashes.AreClashes facts.entry.has_acsc t result }
{
    let settled = settled_of(facts.reach, facts.changes, facts.resync);
    let sent = all_there(facts.has_acsc, facts.smacs, facts.resync.rmacs);
    clashes_of(
        &settled,
        facts.smacs,
        facts.resync.rmacs,
        sent,
        facts.escapes,
    )
}

/// Checks strings against each other. Returns the charsets that can be settled, or the first clash: of `smacs`, of
/// `rmacs`, of charsets that stay graphic, or of the bytes that lead out of an unknown state.
pub fn first_clash(facts: Facts<'_>) -> Result<Charsets, Clash>
    ensures clash { IfErr result (λ clash. (t : Table) → spec.IsFound t facts.entry.reach facts.entry.changes.now
        facts.entry.resync facts.entry.smacs facts.entry.escapes → clashes.IsClash facts.entry.has_acsc t clash) }
    ensures together { IfOk result (λ settled. (t : Table) → spec.IsFound t facts.entry.reach facts.entry.changes.now
        facts.entry.resync facts.entry.smacs facts.entry.escapes → clashes.GoesTogether facts.entry.has_acsc t) }
    ensures settled { IfOk result (spec.AreSettled facts.entry.reach facts.entry.changes.now facts.entry.resync) }
    ensures none { IfOk result (λ settled. spec.NoneClashes settled facts.entry.smacs facts.entry.resync.rmacs
        (facts.entry.has_acsc && (is_some facts.entry.smacs && is_some facts.entry.resync.rmacs))
        facts.entry.escapes) }
{
    let settled = settled_of(facts.reach, facts.changes, facts.resync);
    let sent = all_there(facts.has_acsc, facts.smacs, facts.resync.rmacs);
    let all = clashes_of(
        &settled,
        facts.smacs,
        facts.resync.rmacs,
        sent,
        facts.escapes,
    );
    match all.first() {
        None => Ok(settled),
        Some(clash) => Err(clash),
    }
}
