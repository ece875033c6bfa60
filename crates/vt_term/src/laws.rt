//! Laws of splitting and running, each for all states and texts.
ghost use Rattle.std.specs.Prelude.{◌≡◌, ℕ, ◌+◌, List, [], ◌∷◌, ◌++◌, length};
ghost use Rattle.vt_term.specs.{Function.{Function}, Screen.{Screen, State, IsOfSize}, Text.{IsOpen, Splits, IsSplit}};
ghost use Rattle.vt_term.specs.{Fronts.{GoesOn}, Charsets.{charset_after}, Step.{act, steps}};
ghost use Rattle.vt_term.specs.Run.{Runs, RunsCut, Sticks};

/// A text splits into tokens and an open rest in at most one way.
pub fn one_splitting()
    ensures { (text : List ℕ) (ts us : List (List ℕ)) (r q : List ℕ) → Splits text ts r → Splits text us q →
        (us ≡ ts) × (q ≡ r) }
{}

/// If a text splits, and its rest followed by more bytes does, both splits together are that of the joined text.
pub fn splits_join()
    ensures { (a b : List ℕ) (ts us : List (List ℕ)) (r q : List ℕ) → Splits a ts r → Splits (r ++ b) us q →
        Splits (a ++ b) (ts ++ us) q }
{}

/// If a text splits, so does each of its prefixes.
pub fn front_splits()
    ensures { (a b : List ℕ) → IsSplit (a ++ b) → IsSplit a }
{}

/// A text has at most one run from a state.
pub fn one_run()
    ensures { (s t u : State) (a : List ℕ) → Runs s a t → Runs s a u → u ≡ t }
{}

/// Running one text and then another is running both as one.
pub fn runs_join()
    ensures { (s t u : State) (a b : List ℕ) → Runs s a t → Runs t b u → Runs s (a ++ b) u }
{}

/// A run can be cut anywhere.
pub fn runs_cut()
    ensures { (s u : State) (a b : List ℕ) → Runs s (a ++ b) u → RunsCut s a b u }
{}

/// A run keeps the size.
pub fn runs_keep()
    ensures { (rows cols : ℕ) (s t : State) (a : List ℕ) → IsOfSize rows cols s → Runs s a t → IsOfSize rows cols t }
{}

/// A text of whole tokens has a run from every state with nothing open.
pub fn text_runs()
    ensures { (s : State) (a : List ℕ) (ts : List (List ℕ)) → s.rest ≡ [] → Splits a ts [] →
        Runs s a (record { screen = steps ts s.screen; rest = [] }) }
{}

/// If the second text gets stuck after a run of the first, both together get stuck at that byte.
pub fn sticks_join()
    ensures { (s t u : State) (a b : List ℕ) (k : ℕ) → Runs s a t → Sticks t b k u →
        Sticks s (a ++ b) (length a + k) u }
{}

/// A text gets stuck at one place at most.
pub fn one_place()
    ensures { (s u v : State) (a : List ℕ) (k m : ℕ) → Sticks s a k u → Sticks s a m v → (m ≡ k) × (v ≡ u) }
{}

/// No text both runs and gets stuck.
pub fn runs_or_sticks()
    ensures { (s t u : State) (a : List ℕ) (k : ℕ) → Runs s a t → Sticks s a k u → ⊥ }
{}

/// A text that gets stuck does so at the same place whatever follows it.
pub fn sticks_first()
    ensures { (s u : State) (a b : List ℕ) (k : ℕ) → Sticks s a k u → Sticks s (a ++ b) k u }
{}

/// The run of a whole text ends with nothing open.
pub fn whole_text_rests()
    ensures { (s t : State) (a : List ℕ) (ts : List (List ℕ)) → s.rest ≡ [] → Splits a ts [] → Runs s a t →
        t.rest ≡ [] }
{}

/// Running a whole text and then another is running both as one.
pub fn whole_text_first()
    ensures { (s t : State) (a b : List ℕ) (ts : List (List ℕ)) → s.rest ≡ [] → Splits a ts [] → Runs s (a ++ b) t →
        Runs (record { screen = steps ts s.screen; rest = [] }) b t }
{}

/// The tokens of a prefix of a text are a prefix of the text's tokens.
pub fn front_tokens()
    ensures { (front more : List ℕ) (ts us : List (List ℕ)) (rest last : List ℕ) → Splits front ts rest →
        Splits (front ++ more) us last → GoesOn ts us rest more last }
{}

/// ESC drops an open sequence: a text that begins with ESC runs as if nothing had been open.
pub fn escape_drops()
    ensures { (s t : State) (bytes : List ℕ) → IsOpen s.rest → Runs (record s { rest = [] }) (27 ∷ bytes) t →
        Runs s (27 ∷ bytes) t }
{}

/// Only SO, SI and SCS change the character sets, each as it says.
pub fn steps_charset()
    ensures { (f : Function) (s : Screen) → (act f s).charset ≡ charset_after f s.charset }
{}
