//! Parameters as callers pass them, and as a run keeps them.
ghost use Rattle.std.specs.Prelude.{◌≡◌, pos, slice_index_or};

use std::marker::Model;

/// A parameter of an expansion.
#[derive(Clone, Copy, Debug, PartialEq, Eq)]
pub enum Param<'a> {
    /// A signed number.
    Number(i32),
    /// A text.
    Text(&'a [u8]),
}

/// The value of a parameter that isn't passed.
impl Default for Param<'_> {
    fn default() -> Self
        ensures { result ≡ Param.Number (pos 0) }
    {
        Param::Number(0)
    }
}

/// The nine parameters of a run: those passed, of which `%i` replaces the first two.
#[derive(Drop)]
pub struct Params<'a> {
    first: Param<'a>,
    second: Param<'a>,
    given: &'a [Param<'a>],
}

impl<'a> Model for Params<'a> {
    ghost use Rattle.std.specs.Prelude.{◌∷◌, drop};
    ghost use Rattle.ti_parm.specs.Value.{Values, nine, value_of, values_of};

    ghost Value = { Values };

    ghost view = { λ p. value_of p.first ∷ value_of p.second ∷ drop 2 (nine (values_of p.given.now)) };
}

/// The parameter passed at `index`, or 0.
#[inline(always)]
fn given_or_zero<'a>(given: &[Param<'a>], index: usize) -> Param<'a>
    ensures { result ≡ slice_index_or given.now index (Param.Number (pos 0)) }
{
    given.get(index).copied().unwrap_or(Param::Number(0))
}

impl<'a> Params<'a> {
    ghost use Rattle.std.specs.Prelude.{◌≡◌, pos, slice_index_or, slice_set};
    ghost use Rattle.ti_parm.specs.Value.{Number, nine, value_of, values_of};

    /// The first nine parameters passed, and 0 for those that aren't.
    #[inline(always)]
    pub fn new(given: &'a [Param<'a>]) -> Self
        ensures { result ≡ nine (values_of given.now) }
    {
        Params {
            first: given_or_zero(given, 0),
            second: given_or_zero(given, 1),
            given,
        }
    }

    /// The parameter at `index`, from 0 on.
    #[inline(always)]
    pub fn get(&self, index: u8) -> Param<'a>
        ensures { value_of result ≡ slice_index_or self.now index (Number (pos 0)) }
    {
        match index {
            0 => self.first,
            1 => self.second,
            2..=8 => given_or_zero(self.given, usize::from(index)),
            _ => Param::Number(0),
        }
    }

    /// Sets the first two parameters.
    pub fn set_first(&mut self, first: Param<'a>, second: Param<'a>)
        ensures { self.new ≡ slice_set (slice_set self.old 0 (value_of first.entry)) 1 (value_of second.entry) }
    {
        self.first = first;
        self.second = second;
    }
}
