//! Laws of the table, each for all sizes, rows and texts.
ghost use Rattle.ti_rows.specs.Right.{StartsAllowed, AskedIsWanted, RecordedIsRight, OneLooks, ActivatesFrom};
ghost use Rattle.ti_rows.specs.{Looks.{EarlierKept}, Names.{NamesRise, Named, FirstsInOrder, OrdersSmall}};
ghost use Rattle.ti_rows.specs.Lists.{FirstsInRange, NextFollows, LastIsLast, RanksBelow, OneOfRank, EachReached};
ghost use Rattle.ti_rows.specs.Params.{FindsParams, ParamsFound, SameCount};

/// The states from which a row is judged are among the states that its start allows.
pub fn starts_allowed()
    ensures { StartsAllowed }
{}

/// A record that the table asks for does what is wanted.
pub fn asked_is_wanted()
    ensures { AskedIsWanted }
{}

/// A text whose record is the one that the table asks for does what is wanted of its row.
pub fn recorded_is_right()
    ensures { RecordedIsRight }
{}

/// A parameter list of `sgr` leaves the looks of the lists before it as they are.
pub fn earlier_kept()
    ensures { EarlierKept }
{}

/// The lines of `sgr` have at most one look for each attribute.
pub fn one_looks()
    ensures { OneLooks }
{}

/// The record of `smacs` or `rmacs` shows which set is active in the end.
pub fn activates_from()
    ensures { ActivatesFrom }
{}

/// The names of the checked capabilities are in ascending byte order.
pub fn names_rise()
    ensures { NamesRise }
{}

/// Each position of a checked capability has its name in the table of terminfo(5).
pub fn named()
    ensures { Named }
{}

/// Each place has a first row, and each row's capability has one of the places.
pub fn places()
    ensures firsts { FirstsInOrder }
    ensures orders { OrdersSmall }
{}

/// `with_params` finds a row of the same capability with just those parameters, wherever there is
/// one; and all rows of a capability have the same number of parameters.
#[tactic(auto, using(crate::proofs::Readers::params_found, crate::proofs::Readers::same_count))]
pub fn params_read_back()
    ensures finds { FindsParams }
    ensures found { ParamsFound }
    ensures count { SameCount }
{}

/// The first list of each capability is in range, and has the first place.
pub fn firsts_in_range()
    ensures { FirstsInRange }
{}

/// The list that follows another is of the same capability, in range, at the next place, and above it.
pub fn next_follows()
    ensures { NextFollows }
{}

/// A list that nothing follows has the last place.
pub fn last_is_last()
    ensures { LastIsLast }
{}

/// Each list has one of its capability's places, no two lists have one, and each place is a list's.
#[tactic(auto, using(crate::proofs::ListFacts::ranks_below, crate::proofs::ListFacts::one_of_rank, crate::proofs::ListFacts::each_reached))]
pub fn places_of_lists()
    ensures below { RanksBelow }
    ensures one { OneOfRank }
    ensures each { EachReached }
{}
