//! All fields that are to be given strings, and the entries that have their values from them. Nothing is promised of
//! it: a choice is judged when it is taken.

ghost use Rattle.std.specs.List.{AllByRecursion};
ghost use Rattle.ti_source.specs.Raw.{IsRaw};

use std::alloc::{AllocError, Global};
use ti_caps::{Cap, Entry, Kind, is_kind, string_fits};
use ti_fixes::is_about;
use ti_resolve::{Index, ResolveFault, entered_from};
use ti_source::RawEntry;
use ti_steps::{Adviser, Finding, Found, Remedy, resolved};

/// A string for a field, and the places in the list of remedies of those that want it.
#[derive(Drop)]
pub struct Choice {
    pub string: Vec<u8>,
    pub remedies: Vec<usize>,
    /// Whether it was tried by itself, and not chosen.
    pub failed: bool,
}

/// A field that is to be given a string.
#[derive(Drop)]
pub struct Slot {
    /// The place of its entry.
    pub place: usize,
    pub cap: Cap,
    /// The entries that have their value from it, or want it there.
    pub users: Vec<usize>,
    pub choices: Vec<Choice>,
    /// The place of the choice that is taken.
    pub chosen: Option<usize>,
    /// Whether it is still tried.
    pub tried: bool,
    /// An entry that was harmed when one was.
    pub harmed: Option<usize>,
}

/// An entry, and what is found about it before and after.
#[derive(Drop)]
pub struct Case {
    /// The entry as it is; none if it can't be resolved.
    pub entry: Option<Entry>,
    /// The fields that give it values.
    pub slots: Vec<usize>,
    /// The findings about it, where they were asked for.
    pub old: Option<Vec<Finding>>,
    /// The findings with all that is chosen.
    pub new: Option<Vec<Finding>>,
}

/// A remedy's field, and its string among those for that field.
#[derive(Clone, Copy, Debug, PartialEq, Eq)]
pub struct Pick {
    pub slot: usize,
    pub choice: usize,
}

/// All fields, and all entries.
#[derive(Drop)]
pub struct Board {
    pub slots: Vec<Slot>,
    pub cases: Vec<Case>,
    /// The field and the string of each remedy, in their order.
    pub picks: Vec<Pick>,
}

/// Something that allocates, unless memory ran out.
type Done = Result<(), AllocError>;

/// The choice of the slot with this string; a new one if there is none.
fn choice_in(alloc: Global, slot: &mut Slot, string: &[u8]) -> Result<usize, AllocError> {
    for at in 0..slot.choices.len() {
        if at < slot.choices.len() && slot.choices[at].string.as_slice() == string {
            return Ok(at);
        }
    }
    let at = slot.choices.len();
    slot.choices.push(Choice {
        string: Vec::from_slice(alloc, string)?,
        remedies: Vec::new(alloc),
        failed: false,
    })?;
    Ok(at)
}

/// The field of that entry about the capability, among `own`, the fields of the entry.
fn slot_about(slots: &[Slot], own: &[usize], cap: Cap) -> Option<usize> {
    for at in own {
        if *at < slots.len() && slots[*at].cap == cap {
            return Some(*at);
        }
    }
    None
}

/// A field without users.
fn new_slot(alloc: Global, place: usize, cap: Cap) -> Slot {
    Slot {
        place,
        cap,
        users: Vec::new(alloc),
        choices: Vec::new(alloc),
        chosen: None,
        tried: false,
        harmed: None,
    }
}

/// The fields of each entry, by its place.
type Places = Vec<Vec<usize>>;

/// An empty list for each of `count` entries.
fn no_places(alloc: Global, count: usize) -> Result<Places, AllocError> {
    let mut places = Vec::new(alloc);
    for _place in 0..count {
        places.push(Vec::new(alloc))?;
    }
    Ok(places)
}

/// The slot of the remedy's field; a new one if there is none.
fn slot_for(
    alloc: Global,
    slots: &mut Vec<Slot>,
    places: &mut Places,
    one: &Remedy,
) -> Result<Option<usize>, AllocError> {
    let place = one.change.place;
    if place >= places.len() {
        return Ok(None);
    }
    if let Some(at) = slot_about(slots.as_slice(), places[place].as_slice(), one.change.cap) {
        return Ok(Some(at));
    }
    let at = slots.len();
    slots.push(new_slot(alloc, place, one.change.cap))?;
    places[place].push(at)?;
    Ok(Some(at))
}

/// Puts the remedy at this `place` of their list into its slot.
fn pick_for(
    alloc: Global,
    slots: &mut Vec<Slot>,
    places: &mut Places,
    one: &Remedy,
    place: usize,
) -> Result<Pick, AllocError> {
    let nowhere = Pick {
        slot: usize::MAX,
        choice: 0,
    };
    let Some(slot) = slot_for(alloc, slots, places, one)? else {
        return Ok(nowhere);
    };
    if slot >= slots.len() {
        return Ok(nowhere);
    }
    let choice = choice_in(alloc, &mut slots[slot], one.change.string.as_slice())?;
    add_remedy(&mut slots[slot], choice, place)?;
    Ok(Pick { slot, choice })
}

/// Adds the place of a remedy to those that want the choice.
fn add_remedy(slot: &mut Slot, choice: usize, place: usize) -> Done {
    if choice < slot.choices.len() {
        slot.choices[choice].remedies.push(place)?;
    }
    Ok(())
}

/// The capabilities of the slots, each once.
fn caps_of(alloc: Global, slots: &[Slot]) -> Result<Vec<Cap>, AllocError> {
    let mut caps: Vec<Cap> = Vec::new(alloc);
    for slot in slots {
        let cap = slot.cap;
        if !caps.iter().any(|own| *own == cap) {
            caps.push(cap)?;
        }
    }
    Ok(caps)
}

/// Whether the entry at `place` has a field about the capability.
fn has_field(raws: &[RawEntry], place: usize, cap: Cap) -> bool {
    match raws.get(place) {
        Some(raw) => raw
            .fields
            .as_slice()
            .iter()
            .any(|field| is_about(field, cap)),
        None => false,
    }
}

/// Appends the slots about the capability of those entries of a walk from which an entry has its value, or would have
/// it: those up to the first entry that has such a field.
fn push_slots(
    own: &mut Vec<usize>,
    raws: &[RawEntry],
    slots: &[Slot],
    places: &[Vec<usize>],
    entered: &[usize],
    cap: Cap,
) -> Done {
    for place in entered {
        if *place < places.len() {
            if let Some(at) = slot_about(slots, places[*place].as_slice(), cap) {
                own.push(at)?;
            }
        }
        if has_field(raws, *place, cap) {
            return Ok(());
        }
    }
    Ok(())
}

/// The entries that the walk from the one at `place` enters; none if it can't be resolved.
fn walk_from(alloc: Global, index: &Index<'_>, place: usize) -> Result<Vec<usize>, AllocError> {
    if place >= index.raws.len() {
        return Ok(Vec::new(alloc));
    }
    match entered_from(alloc, index, place) {
        Ok(entered) => Ok(entered),
        Err(ResolveFault::NoMemory) => Err(AllocError),
        Err(ResolveFault::NoSuchEntry(_)) => Ok(Vec::new(alloc)),
        Err(ResolveFault::Cycle(_)) => Ok(Vec::new(alloc)),
        Err(ResolveFault::TooMany(_)) => Ok(Vec::new(alloc)),
    }
}

/// The slots from which the entry at `place` has values, or would have them.
fn slots_of(
    alloc: Global,
    index: &Index<'_>,
    slots: &[Slot],
    places: &[Vec<usize>],
    caps: &[Cap],
    place: usize,
) -> Result<Vec<usize>, AllocError> {
    let mut own = Vec::new(alloc);
    let entered = walk_from(alloc, index, place)?;
    for cap in caps {
        push_slots(
            &mut own,
            index.raws,
            slots,
            places,
            entered.as_slice(),
            *cap,
        )?;
    }
    Ok(own)
}

/// Adds the entry at `place` to the users of these slots.
fn add_user(slots: &mut Vec<Slot>, own: &[usize], place: usize) -> Done {
    for at in own {
        if *at < slots.len() {
            slots[*at].users.push(place)?;
        }
    }
    Ok(())
}

/// The case of an entry.
#[tactic(auto)]
fn case_of(
    alloc: Global,
    index: &Index<'_>,
    own: Vec<usize>,
    place: usize,
) -> Result<Case, AllocError>
    requires { AllByRecursion IsRaw index.now.raws.now }
{
    let entry = if own.is_empty() || place >= index.raws.len() {
        None
    } else {
        resolved(alloc, index, place)?
    };
    Ok(Case {
        entry,
        slots: own,
        old: None,
        new: None,
    })
}

impl Board {
    /// The fields of these remedies, of which none is chosen.
    pub fn new(alloc: Global, index: &Index<'_>, remedies: &[Remedy]) -> Result<Board, AllocError>
        requires { AllByRecursion IsRaw index.now.raws.now }
    {
        let count = index.raws.len();
        let mut slots = Vec::new(alloc);
        let mut places = no_places(alloc, count)?;
        let picks = all_picks(alloc, &mut slots, &mut places, remedies)?;
        let caps = caps_of(alloc, slots.as_slice())?;
        let cases = all_cases(alloc, index, &mut slots, places.as_slice(), caps.as_slice())?;
        Ok(Board {
            slots,
            cases,
            picks,
        })
    }
}

/// The field and string of each remedy.
fn all_picks(
    alloc: Global,
    slots: &mut Vec<Slot>,
    places: &mut Places,
    remedies: &[Remedy],
) -> Result<Vec<Pick>, AllocError> {
    let mut picks = Vec::new(alloc);
    for at in 0..remedies.len() {
        let pick = pick_for(alloc, slots, places, &remedies[at], at)?;
        picks.push(pick)?;
    }
    Ok(picks)
}

/// The case of each entry.
fn all_cases(
    alloc: Global,
    index: &Index<'_>,
    slots: &mut Vec<Slot>,
    places: &[Vec<usize>],
    caps: &[Cap],
) -> Result<Vec<Case>, AllocError>
    requires { AllByRecursion IsRaw index.now.raws.now }
{
    let mut cases = Vec::new(alloc);
    for place in 0..index.raws.len() {
        let own = slots_of(alloc, index, slots.as_slice(), places, caps, place)?;
        add_user(slots, own.as_slice(), place)?;
        let case = case_of(alloc, index, own, place)?;
        cases.push(case)?;
    }
    Ok(cases)
}

/// Gives the entry the string that is chosen for a field.
fn put(entry: &mut Entry, slots: &[Slot], at: usize) -> Done {
    if at >= slots.len() {
        return Ok(());
    }
    let slot = &slots[at];
    if let Some(chosen) = slot.chosen {
        if let Some(choice) = slot.choices.get(chosen) {
            let string = choice.string.as_slice();
            if is_kind(slot.cap, Kind::String) && string_fits(string) {
                entry.set_string(slot.cap, string)?;
            }
        }
    }
    Ok(())
}

/// The entry with all strings that are chosen for these fields; of several for one capability the first counts.
fn with_chosen(entry: &Entry, slots: &[Slot], own: &[usize]) -> Result<Entry, AllocError> {
    let mut changed = entry.try_copy()?;
    for at in 0..own.len() {
        put(&mut changed, slots, own[own.len() - 1 - at])?;
    }
    Ok(changed)
}

/// The findings about an entry; none if it can't be resolved.
fn found_about<A: Adviser>(alloc: Global, adviser: &A, entry: &Option<Entry>) -> Found {
    match entry {
        Some(entry) => adviser.find(alloc, entry),
        None => Ok(Vec::new(alloc)),
    }
}

/// Finds what is wrong with an entry without and with all that is chosen, where that isn't known.
pub fn find_both<A: Adviser>(alloc: Global, adviser: &A, case: &mut Case, slots: &[Slot]) -> Done {
    if case.old.is_none() {
        let old = found_about(alloc, adviser, &case.entry)?;
        case.old = Some(old);
    }
    if case.new.is_none() {
        let after = match &case.entry {
            Some(entry) => Some(with_chosen(entry, slots, case.slots.as_slice())?),
            None => None,
        };
        let new = found_about(alloc, adviser, &after)?;
        case.new = Some(new);
    }
    Ok(())
}
