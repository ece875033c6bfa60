//! Laws of compiled files. Each is the contract of a function that does nothing.

ghost use Rattle.ti_compiled.specs.{Legacy.{LegacyIsRead, LegacyIsWritten}, Packed.{PackedIsRead, ReadIsPacked}};
ghost use Rattle.ti_compiled.specs.Written.{WrittenIsPacked, WrittenIsRead};

/// Law: a file in the layout of term(5) is read as its entry.
pub fn packed_is_read()
    ensures { PackedIsRead }
{}

/// Law: a file that is read as an entry has that entry in the layout of term(5).
pub fn read_is_packed()
    ensures { ReadIsPacked }
{}

/// Law: the file written for an entry is in the layout of term(5), with that entry and nothing after it.
pub fn written_is_packed()
    ensures { WrittenIsPacked }
{}

/// Law: the file written for an entry is read as that entry.
pub fn written_is_read()
    ensures { WrittenIsRead }
{}

/// Law: a file that doesn't begin with the bytes 1e 02 is read by the legacy rules of term(5) alone.
pub fn legacy_is_read()
    ensures { LegacyIsRead }
{}

/// Law: an entry without a number above 32767 is written by the legacy rules of term(5) alone.
pub fn legacy_is_written()
    ensures { LegacyIsWritten }
{}
