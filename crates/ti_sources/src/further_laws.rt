//! Laws of entries of several files put together.

ghost use Rattle.ti_sources.specs.FurtherLaws.{AloneStays, CompiledIsItself, OwnComeFirst, SpotsAreRight};

/// Law: a name that an entry of a file has leads to the first of these, whatever further files there are.
#[tactic(auto, using(crate::proofs::Together::own_come_first))]
pub fn own_come_first()
    ensures { OwnComeFirst }
{}

/// Law: without further files the entries are those of the file.
#[tactic(auto, using(crate::proofs::Together::alone_stays))]
pub fn alone_stays()
    ensures { AloneStays }
{}

/// Law: the entry of a compiled file is resolved as it is.
#[tactic(auto, using(crate::proofs::Packed::compiled_is_itself))]
pub fn compiled_is_itself()
    ensures { CompiledIsItself }
{}

/// Law: the file and the place there that an entry is said to have are its own.
#[tactic(auto, using(crate::proofs::Together::spots_are_right))]
pub fn spots_are_right()
    ensures { SpotsAreRight }
{}
