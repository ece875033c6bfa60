//! Words about faults that depend on other faults, and for the case that no string is suggested.

/// The words if no string is suggested because the strings that every program needs first are wrong.
pub const OF_ANOTHER_KIND: &[u8] =
    b"clear and cup are both at fault: this entry seems to be for a terminal of another kind, and no string is \
      suggested";

/// The words if strings were judged together without those that are wrong by themselves.
pub const LEFT_OUT: &[u8] =
    b"strings that are wrong by themselves are left out where the others are judged together, so a fault of smacs, \
      rmacs, acsc or clear may go once they are mended";
