//! Laws of the checker: sequences that the terminal ignores change nothing, and a refusal that claims something
//! excludes a certificate.

ghost use Rattle.std.specs.{Option.{unwrap_or}, Prelude.{◌≡◌, ◌≢◌, ℕ, Bool, List, Option, true, false}};
ghost use Rattle.ti_caps.specs.Entry.{Content};
ghost use Rattle.ti_checker.specs.{Breakage.{ShownBreaks}, Certificate.{BasicCertificate, IsCertificateOf}};
ghost use Rattle.ti_checker.specs.Doubts.{NeverElsewhere, NeverOther, NeverOtherCells, NeverOtherModes, NeverUnasked};
ghost use Rattle.ti_checker.specs.Doubts.{NeverUntamed, OneTeaching};
ghost use Rattle.vt_states.specs.Ignored.{is_unknown_mode, is_unknown_rendition, is_whole_sequence};
ghost use Rattle.ti_checker.specs.{No.{ClaimsNothing, IsNo}, Notes.{EntryNotes}};
ghost use Rattle.ti_checker.specs.{declared.causes.Cause.TheVariants.{TooLong}, declared.causes.No.{No}};
ghost use Rattle.ti_checker.specs.declared.note_list.CheckNote.{CheckNote};
ghost use Rattle.ti_conforms.specs.Conforms.{Conforms};
ghost use Rattle.vt_term.specs.{Function.{ModeKind}, Look.{Rendition}, Screen.{Screen}, Rendition.{rendered}};
ghost use Rattle.vt_term.specs.{Step.{mode_set}, Text.{IsDropped, IsSequence, IsSingle}};

/// A whole sequence differs from the other tokens of a text: printed characters, controls and
/// sequences that were cut off.
pub fn sequences_told_apart()
    ensures sequence { (token : List ℕ) → IsSequence token → is_whole_sequence token ≡ true }
    ensures single { (token : List ℕ) → IsSingle token → is_whole_sequence token ≡ false }
    ensures dropped { (token behind : List ℕ) → IsDropped token behind → is_whole_sequence token ≡ false }
{}

/// An unknown number of SGR changes no rendition; any other number changes some rendition.
pub fn unknown_renditions_change_nothing()
    ensures unknown { (number : Option ℕ) (rendition : Rendition) → is_unknown_rendition number ≡ true
        → rendered (unwrap_or number 0) rendition ≡ rendition }
    ensures known { (number : Option ℕ) → is_unknown_rendition number ≡ false
        → (rendition : Rendition) × (rendered (unwrap_or number 0) rendition ≢ rendition) }
{}

/// Setting or resetting an unknown mode changes no screen; setting or resetting any other mode changes some screen.
pub fn unknown_modes_change_nothing()
    ensures unknown { (kind : ModeKind) (on : Bool) (number : Option ℕ) (screen : Screen)
        → is_unknown_mode kind number ≡ true → mode_set kind on (unwrap_or number 0) screen ≡ screen }
    ensures known { (kind : ModeKind) (number : Option ℕ) → is_unknown_mode kind number ≡ false
        → (on : Bool) × (screen : Screen) × (mode_set kind on (unwrap_or number 0) screen ≢ screen) }
{}

/// An entry has one list of notes at most.
pub fn one_list_of_notes()
    ensures { (entry : Content) (notes others : List CheckNote) → EntryNotes entry notes → EntryNotes entry others
        → others ≡ notes }
{}

/// If a refusal of an entry is true, the entry doesn't conform, unless its cause is `NotTame`, `NotShown` or
/// `NoMemory`, which claim no fault, or `TooLong`, which says only that the entry has no certificate, and nothing about
/// the effects of its strings.
pub fn no_excludes_yes()
    ensures conforms { (entry : Content) (rows cols : ℕ) (refusal : No) → IsNo entry rows cols refusal
        → refusal.cause ≢ TooLong → Conforms entry rows cols → ClaimsNothing refusal.cause }
    ensures too_long { (entry : Content) (rows cols : ℕ) (refusal : No) (text : List ℕ) → IsNo entry rows cols refusal
        → refusal.cause ≡ TooLong → IsCertificateOf entry rows cols text → ⊥ }
{}

/// The certificate of a basic entry is its basic text.
pub fn basic_certificate()
    ensures { BasicCertificate }
{}

/// From a probe that shows an effect wrong, the run of every text with that effect has an end that isn't wanted.
pub fn shown_breaks()
    ensures { ShownBreaks }
{}

/// With `NotTame` and `NotShown` a string may be right, but neither is true of a row that stands. The rows of a string
/// before another one teach one look of the attributes only.
pub fn no_doubt_of_what_stands()
    ensures one_teaching { OneTeaching }
    ensures untamed { NeverUntamed }
    ensures unasked { NeverUnasked }
{}

/// `NotShown` is true of no row whose string leads to a place, a rendition, modes or cells that aren't wanted.
pub fn what_differs_is_shown()
    ensures place { NeverElsewhere }
    ensures rendition { NeverOther }
    ensures modes { NeverOtherModes }
    ensures cells { NeverOtherCells }
{}
