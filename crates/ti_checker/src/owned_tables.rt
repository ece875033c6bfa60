//! The law of an entry's own certificate.

ghost use Rattle.ti_checker.specs.Owned.{OwnIsAccepted};

/// Law: `verify` refuses the certificate that `check` writes for an entry only when memory runs out.
pub fn own_is_accepted()
    ensures { OwnIsAccepted }
{}
