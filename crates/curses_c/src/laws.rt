//! Laws of the state of a terminal that gets the bytes that a program takes.
ghost use Rattle.curses_c.specs.Laws.{CallsReach, LossesBegin, LossesFit, OpeningsBegin, RefreshesShow};

/// After any calls, the bytes taken and those that wait lead each state that fitted the session to one that fits it.
pub fn calls_reach()
    ensures { CallsReach }
{}

/// After a refresh that was done and any calls that send nothing, a terminal that was fed all the bytes taken shows the
/// screen of that refresh, once nothing waits.
pub fn refreshes_show()
    ensures { RefreshesShow }
{}

/// After any calls, a terminal that got a prefix of the bytes sent, cut at any byte, is in a state that fits the
/// session once it is lost: so all three laws hold from there on.
pub fn losses_fit()
    ensures { LossesFit }
{}

/// A lost session begins with each state that cut-off output may have left, its own or that of an earlier session on
/// the same terminal and entry; so does a session that was opened anew.
pub fn losses_begin()
    ensures { LossesBegin }
{}

/// A session that was opened begins with each terminal in its first state, and with each that differs from it only in
/// what a refresh of a fresh session sets.
pub fn openings_begin()
    ensures { OpeningsBegin }
{}
