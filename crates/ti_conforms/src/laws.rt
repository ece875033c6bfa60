//! From the records of lines to their runs, and from lines to the entry: laws for all sizes, lines and states.

ghost use Rattle.std.specs.Prelude.{◌≡◌, ◌++◌, true, ℕ, List, codes};
ghost use Rattle.ti_conforms.specs.Charsets.{Reached, can_have, joined, reach_of};
ghost use Rattle.ti_conforms.specs.Resync.{QuietSettles, NothingSettles, SettlingJoins, ResyncLeads, FrontsStay};
ghost use Rattle.ti_conforms.specs.{Resync.{WholesStay}, Holds.{JudgedHolds}};
ghost use Rattle.ti_conforms.specs.{Conforms.{AgreedConforms, gn, hc, os, xmc}, Together.{AgreedStandTogether}};
ghost use Rattle.ti_conforms.specs.Entries.{acsc};
ghost use Rattle.vt_term.specs.Screen.{Charset};
ghost use Rattle.ti_caps.specs.Table.{name_at};

/// A terminal that begins in its reset state and takes some of these tokens, in any order and any
/// number of times, can have a charset exactly if each of its marks is turned on by one of them.
/// The marks of two lists of tokens together are those of either list.
pub fn reach_is_exact()
    ensures sound { (tokens : List (List ℕ)) (c : Charset) → can_have (reach_of tokens) c ≡ true → Reached tokens c }
    ensures complete { (tokens : List (List ℕ)) (c : Charset) → Reached tokens c → can_have (reach_of tokens) c ≡ true }
    ensures joins { (first second : List (List ℕ)) → reach_of (first ++ second)
        ≡ joined (reach_of first) (reach_of second) }
{}

/// A line that sets no margins and doesn't show or hide the cursor leads from every state between two
/// tokens to the rendition and charset of its record, whatever the margins, and keeps the margins and
/// the visibility. An empty text changes nothing, and two such texts in a row do as both records say.
pub fn quiet_lines_settle()
    ensures line { QuietSettles }
    ensures nothing { NothingSettles }
    ensures joined { SettlingJoins }
{}

/// From every lost state, whatever sequence is open, the lines of a resynchronization lead to a
/// blank screen at rest. They must begin with ESC, end in the default rendition with the plain set
/// active from each charset that a terminal can have, and widen the margins if lines set any.
pub fn resync_leads()
    ensures { ResyncLeads }
{}

/// The bytes of a line, cut off anywhere, lead from a lost state between two tokens to a lost
/// state; after the whole line no sequence is open.
pub fn fronts_stay()
    ensures front { FrontsStay }
    ensures whole { WholesStay }
{}

/// If each line has the record that the table asks for, a resynchronization begins with ESC and the
/// sets are as required, then every line ends as wanted from each start of its row, and leaves a
/// lost state if it is cut off anywhere. The resynchronization leads from every lost state,
/// whatever sequence is open, to a blank screen at rest.
pub fn judged_holds()
    ensures { JudgedHolds }
{}

/// If lines were judged and are just those that a fit entry sends, the entry conforms.
pub fn agreed_conforms()
    ensures { AgreedConforms }
{}

/// Lines that are just those that a fit entry sends: a capability has all of its parameter lists or
/// none; `clear`, `cup` and `sgr0` have lines; `setaf` and `setab` have lines exactly if `op` has,
/// and `smacs` exactly if `rmacs` has; single attributes have lines only without `sgr`.
pub fn agreed_stand_together()
    ensures { AgreedStandTogether }
{}

/// The places that the definition names have these names in the table of terminfo(5).
#[tactic(auto, unfolding(ti_caps::specs::Table::name_at, ti_caps::specs::Table::row_at))]
pub fn places_named()
    ensures gn { name_at gn ≡ codes "gn" }
    ensures hc { name_at hc ≡ codes "hc" }
    ensures os { name_at os ≡ codes "os" }
    ensures xmc { name_at xmc ≡ codes "xmc" }
    ensures acsc { name_at acsc ≡ codes "acsc" }
{}
