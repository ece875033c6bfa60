//! The stretch of a parameter string that sends given bytes.

ghost use Rattle.std.specs.Prelude.{◌≡◌, ◌≤◌, ◌⊎◌, All, Some, IfNone, IfOk, IfSome, List, ℕ, Bool, Ok, length, take};
ghost use Rattle.ti_parm.specs.{Meaning.{sent}, Value.{values_of}};
ghost use Rattle.ti_blames.specs.{Prefixes.{closed_front}, Stretches.{IsWithin}};
ghost use Rattle.ti_blames.specs.Sendings as spec;

use crate::codes::codes;
use crate::prefixes::Open;
use crate::stretches::{Found, Stretch};
use std::alloc::{AllocError, Global};
use ti_parm::{Param, ParmFault, sent};

/// A string with its parameters, and the bytes that it sends for them.
#[derive(Clone, Copy)]
pub struct Sender<'a> {
    /// The string.
    pub string: &'a [u8],
    /// The parameters, of which the first nine are used.
    pub params: &'a [Param<'a>],
    /// The bytes.
    pub bytes: &'a [u8],
}

/// A place of a string, and the number of the bytes that are sent up to there.
#[derive(Clone, Copy)]
struct Cut {
    place: usize,
    count: usize,
}

/// The bytes that `string` sends for `params`, with all static variables 0; `None` if it can't be expanded.
///
/// # Errors
/// Out of memory.
pub fn sent_bytes(
    alloc: Global,
    string: &[u8],
    params: &[Param<'_>],
) -> Result<Option<Vec<u8>>, AllocError>
    ensures sent { IfOk result (λ found. IfSome found
        (λ bytes. sent string.now (values_of params.now) ≡ Ok bytes.items)) }
    ensures none { IfOk result (λ found. IfNone found
        ((bytes : List ℕ) → sent string.now (values_of params.now) ≡ Ok bytes → ⊥)) }
{
    let mut bytes = Vec::new(alloc);
    match sent(alloc, string, params, &mut bytes) {
        Ok(()) => Ok(Some(bytes)),
        Err(ParmFault::NoMemory) => Err(AllocError),
        Err(ParmFault::BadCode | ParmFault::BadNest | ParmFault::Underflow) => Ok(None),
        Err(ParmFault::Overflow | ParmFault::BadChar | ParmFault::WrongKind) => Ok(None),
    }
}

/// How many bytes `front` has, if `whole` begins with them.
fn front_length(whole: &[u8], front: &[u8]) -> Option<usize>
    ensures { IfSome result (λ count. front.now ≡ take count whole.now) }
{
    let count = front.len();
    if count <= whole.len() && &whole[..count] == front {
        Some(count)
    } else {
        None
    }
}

impl Sender<'_> {
    ghost use Rattle.std.specs.Prelude.{◌≤◌, IfOk, IfSome, OnOk, length};
    ghost use Rattle.ti_parm.specs.Value.{values_of};
    ghost use Rattle.ti_blames.specs.Sendings.{AreCuts, HasSent, IsSending};

    /// The cut at `place`, where the conditionals `nest` are open; `None` if the front of the string sends other bytes
    /// than the whole string does, as it does within a delay.
    fn cut(&self, alloc: Global, place: usize, nest: &Open) -> Result<Option<Cut>, AllocError>
        requires { place ≤ length self.now.string.now }
        ensures { IfOk result (λ found. IfSome found (λ cut.
            HasSent self.now.string.now (values_of self.now.params.now) self.now.bytes.now cut.place cut.count)) }
    {
        let front = nest.closed_front(alloc, self.string, place)?;
        let Some(bytes) = sent_bytes(alloc, front.as_slice(), self.params)? else {
            return Ok(None);
        };
        match front_length(self.bytes, bytes.as_slice()) {
            Some(count) => Ok(Some(Cut { place, count })),
            None => Ok(None),
        }
    }

    /// Adds the cut at `place`, if there is one, to `cuts`.
    fn push_cut(
        &self,
        alloc: Global,
        place: usize,
        nest: &Open,
        cuts: &mut Vec<Cut>,
    ) -> Result<(), AllocError>
        requires place { place ≤ length self.now.string.now }
        requires cuts { AreCuts self.now.string.now (values_of self.now.params.now) self.now.bytes.now cuts.old.items }
        ensures { OnOk result
            (AreCuts self.now.string.now (values_of self.now.params.now) self.now.bytes.now cuts.new.items) }
    {
        match self.cut(alloc, place, nest)? {
            Some(cut) => {
                cuts.push(cut)?;
                Ok(())
            }
            None => Ok(()),
        }
    }

    /// The cuts before the first code of the string and behind each, in their order.
    fn cuts(&self, alloc: Global) -> Result<Vec<Cut>, AllocError>
        ensures { IfOk result (λ cuts.
            AreCuts self.now.string.now (values_of self.now.params.now) self.now.bytes.now cuts.items) }
    {
        let codes = codes(alloc, self.string)?;
        let mut nest = Open::new(alloc);
        let mut cuts = Vec::new(alloc);
        self.push_cut(alloc, 0, &nest, &mut cuts)?;
        for code in codes.as_slice() {
            nest.pass(&self.string[code.from..code.to])?;
            self.push_cut(alloc, code.to, &nest, &mut cuts)?;
        }
        Ok(cuts)
    }

    /// The stretch of the string that sends `bytes`, between two of its `cuts`: the first one up to which all of them
    /// are sent, and the last one before it up to which none is; or the one before that, where only a parameter is
    /// pushed between the two, and a code begins behind it.
    fn between(&self, cuts: &[Cut], bytes: Stretch) -> Option<Stretch>
        requires { AreCuts self.now.string.now (values_of self.now.params.now) self.now.bytes.now cuts.now }
        ensures { IfSome result
            (IsSending self.now.string.now (values_of self.now.params.now) self.now.bytes.now bytes) }
    {
        let mut before: Option<Cut> = None;
        let mut start: Option<Cut> = None;
        for cut in cuts {
            if cut.count <= bytes.from {
                before = start;
                start = Some(*cut);
            } else if bytes.to <= cut.count {
                let first = first_of(self.string, before, start?);
                return Stretch::within(self.string, first.place, cut.place);
            }
        }
        None
    }
}

/// The cut `before` the `start` of a stretch, if a code at the start takes the parameter that is pushed between the
/// two; otherwise the start.
fn first_of(string: &[u8], before: Option<Cut>, start: Cut) -> Cut
    ensures { (result ≡ start) ⊎ (before ≡ Some result) }
{
    match before {
        Some(cut) if is_push(string, cut, start) => cut,
        Some(_) | None => start,
    }
}

/// Whether a parameter is pushed between two cuts, and a code other than a byte by itself begins behind it.
fn is_push(string: &[u8], cut: Cut, start: Cut) -> bool {
    if start.place < cut.place || string.len() <= start.place {
        return false;
    }
    let (front, rest) = string.split_at(start.place);
    matches!((&front[cut.place..], rest), ([b'%', b'p', _], [b'%', ..]))
}

/// The stretch of the sender's string that sends this stretch of its `bytes`. `None` if no stretch is found, as where
/// the string doesn't send these bytes.
///
/// # Errors
/// Out of memory.
pub fn sending_stretch(alloc: Global, sender: &Sender<'_>, bytes: Stretch) -> Found
    ensures { IfOk result (λ found. IfSome found (spec.IsSending sender.now.string.now
        (values_of sender.now.params.now) sender.now.bytes.now bytes)) }
{
    let cuts = sender.cuts(alloc)?;
    Ok(sender.between(cuts.as_slice(), bytes))
}
