//! A law about surveys of texts without a fault.

ghost use Rattle.ti_surveys.specs.Faultless.{FaultlessIsWhole};

/// A law: the entries of a text without a fault are those of the whole text, and each is resolved as in the whole text.
pub fn faultless_is_whole()
    ensures { FaultlessIsWhole }
{}
