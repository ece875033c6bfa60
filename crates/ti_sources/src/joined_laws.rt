//! Laws of joined texts.

ghost use Rattle.ti_sources.specs.{JoinedLaws.{LinesAreJoined, LinesAreKept}, JoinedPlaces.{BytesAreKept}};

/// Law: the lines of a joined text are the joined lines, and there are as many as before, so each line that isn't taken
/// up keeps its number.
pub fn lines_are_joined()
    ensures joined { LinesAreJoined }
    ensures kept { LinesAreKept }
{}

/// Law: each byte of the joined lines is the byte of the text that is at its place there.
pub fn bytes_are_kept()
    ensures { BytesAreKept }
{}
