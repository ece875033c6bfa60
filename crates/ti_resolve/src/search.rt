//! Finding entries by their names and places.

ghost use Rattle.std.specs.Prelude.{◌≡◌, ◌==◌, ◌<◌, [], ◌∷◌, length, IfNone, IfOk, IfSome, OnOk};
ghost use Rattle.std.specs.List as List;
ghost use Rattle.std.specs.Str.{bytes_eq};
ghost use Rattle.ti_caps.specs.Fits.{names_in};
ghost use Rattle.ti_resolve.specs.{Index.{Adds, IsIndexOf}, Uses.{is_name_in, place_named, fields_at, names_at}};

use std::alloc::{AllocError, Global};
use std::collections::BTreeMap;
use ti_source::{Field, RawEntry};

/// The place of the first `|`.
fn bar_in(names: &[u8]) -> Option<usize>
    ensures value { result ≡ List.position (λ byte. byte == 124) names.now }
    ensures range { IfSome result (λ at. at < length names.now) }
{
    names.iter().position(|byte| *byte == b'|')
}

/// The first name of `names`, a names field whose names `|` separates, and the other names; `None` if it has only one.
#[tactic(auto, using(crate::proofs::Names::cut_found, crate::proofs::Names::cut_none))]
pub fn cut_name(names: &[u8]) -> Option<(&[u8], &[u8])>
    ensures found { IfSome result (λ x. names_in names.now ≡ x.0.now ∷ names_in x.1.now) }
    ensures shorter { IfSome result (λ x. length x.1.now < length names.now) }
    ensures none { IfNone result (names_in names.now ≡ names.now ∷ []) }
{
    match bar_in(names) {
        None => None,
        Some(at) => Some((&names[..at], &names[at + 1..])),
    }
}

/// Adds a name with its `place` to the index, unless an earlier entry has it.
fn add_name<'r>(
    places: &mut BTreeMap<&'r [u8], usize>,
    name: &'r [u8],
    place: usize,
) -> Result<(), AllocError>
    ensures { OnOk result (Adds places.old places.new (λ asked. bytes_eq name.now asked) place) }
{
    if !places.contains_key(name) {
        places.insert(name, place)?;
    }
    Ok(())
}

/// Adds the names of the entry at `place`, unless an earlier entry has them.
fn add_names<'r>(
    places: &mut BTreeMap<&'r [u8], usize>,
    names: &'r [u8],
    place: usize,
) -> Result<(), AllocError>
    ensures { OnOk result (Adds places.old places.new (is_name_in names.now) place) }
{
    let mut rest = names;
    while let Some((own, behind)) = cut_name(rest) {
        add_name(places, own, place)?;
        rest = behind;
    }
    add_name(places, rest, place)
}

/// The place of the first entry with each name.
fn places_of(alloc: Global, raws: &[RawEntry]) -> Result<BTreeMap<&[u8], usize>, AllocError>
    ensures { IfOk result (λ places. IsIndexOf raws.now places) }
{
    let mut places = BTreeMap::new(alloc);
    for place in 0..raws.len() {
        add_names(&mut places, names_of(raws, place), place)?;
    }
    Ok(places)
}

/// Entries with an index of their names; a name is that of the first entry that has it.
///
/// The index takes N log N comparisons to build, for N names, and log N to look up a name.
#[derive(Drop)]
pub struct Index<'r> {
    /// The entries.
    pub raws: &'r [RawEntry],
    places: BTreeMap<&'r [u8], usize>,
    ghost indexed: { IsIndexOf raws.now places },
}

impl<'r> Index<'r> {
    /// The index of `raws`.
    ///
    /// # Errors
    /// Out of memory.
    pub fn new(alloc: Global, raws: &'r [RawEntry]) -> Result<Self, AllocError>
        ensures { IfOk result (λ index. index.raws.now ≡ raws.now) }
    {
        let places = places_of(alloc, raws)?;
        Ok(Index { raws, places })
    }

    /// The place of the first entry with this name.
    pub(crate) fn find(&self, name: &[u8]) -> Option<usize>
        ensures value { result ≡ place_named self.now.raws.now name.now }
        ensures range { IfSome result (λ place. place < length self.now.raws.now) }
    {
        self.places.get(name).copied()
    }

    /// The fields of the entry at `place`; none if there is no such entry.
    pub(crate) fn fields_of(&self, place: usize) -> &'r [Field]
        ensures { result.now ≡ fields_at self.now.raws.now place }
    {
        fields_of(self.raws, place)
    }
}

/// The fields of the entry at `place`; none if there is no such entry.
#[tactic(auto, unfolding(crate::specs::Uses::fields_at))]
pub(crate) fn fields_of(raws: &[RawEntry], place: usize) -> &[Field]
    ensures { result.now ≡ fields_at raws.now place }
{
    match raws.get(place) {
        None => &[],
        Some(raw) => raw.fields.as_slice(),
    }
}

/// The names of the entry at `place`, which must exist.
#[tactic(auto, using(std::proofs::lemmas::Option::slice_get_read), unfolding(crate::specs::Uses::names_at))]
pub(crate) fn names_of(raws: &[RawEntry], place: usize) -> &[u8]
    requires { place < length raws.now }
    ensures { result.now ≡ names_at raws.now place }
{
    raws[place].names.as_slice()
}
