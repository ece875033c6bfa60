//! A law of suggested strings.

ghost use Rattle.ti_faults.specs.Remedies.{SuggestionsAreRight};

/// Each row of a capability with a suggested string sends bytes that are right.
pub fn suggestions_are_right()
    ensures { SuggestionsAreRight }
{}
