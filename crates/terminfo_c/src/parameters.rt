//! The parameters that a program passes.
ghost use Rattle.std.specs.Prelude.{◌≡◌, ◌≤◌, length, map, take, IsTrue, IfSome, IfNone};
ghost use Rattle.std.specs.List.{list_all};
ghost use Rattle.ti_parm.specs.Value.{Number, value_of, values_of};
ghost use Rattle.terminfo_c.specs.Parameters as spec;

use ti_parm::Param;

/// The most parameters that a string can have.
pub const PARAMS: usize = 9;

/// The most bytes of a text.
const LONGEST_TEXT: usize = 4095;

/// A parameter as C passes it: the text, or the number.
#[repr(C)]
#[derive(Clone, Copy)]
pub struct Parameter<'a> {
    /// The bytes of a text; ignored for a number.
    pub text: &'a [u8],
    /// The number; ignored for a text.
    pub number: i32,
    pub is_text: bool,
}

/// Whether there are at most nine `params`, and each text has at most 4095 bytes.
pub fn are_good(params: &[Parameter<'_>]) -> bool
    ensures { result ≡ spec.are_good params.now }
{
    params.len() <= PARAMS && are_short(params)
}

/// Whether no text is too long.
fn are_short(params: &[Parameter<'_>]) -> bool
    ensures { result ≡ list_all spec.is_short params.now }
{
    params.iter().all(|param| is_short(param))
}

fn is_short(param: &Parameter<'_>) -> bool
    ensures { result ≡ spec.is_short param.now }
{
    param.text.len() <= LONGEST_TEXT
}

/// The parameters for `numbers`, of which there must be at most nine, and 0 after them.
pub fn from_numbers(numbers: &[i32]) -> [Param<'static>; PARAMS]
    requires { length numbers.now ≤ 9 }
    ensures { values_of (take (length numbers.now) result) ≡ map Number numbers.now }
{
    let mut params = [Param::Number(0); PARAMS];
    for (place, number) in numbers.iter().enumerate() {
        params[place] = param_for(number);
    }
    params
}

fn param_for(number: &i32) -> Param<'static>
    ensures { value_of result ≡ Number number.now }
{
    Param::Number(*number)
}

/// The parameters for `given`, of which there must be at most nine, and 0 after them.
pub fn from_given<'a>(given: &[Parameter<'a>]) -> [Param<'a>; PARAMS]
    requires { length given.now ≤ 9 }
    ensures { values_of (take (length given.now) result) ≡ map spec.value_given given.now }
{
    let mut params = [Param::Number(0); PARAMS];
    for (place, one) in given.iter().enumerate() {
        params[place] = param_of(one);
    }
    params
}

fn param_of<'a>(given: &Parameter<'a>) -> Param<'a>
    ensures { value_of result ≡ spec.value_given given.now }
{
    if given.is_text {
        Param::Text(given.text)
    } else {
        Param::Number(given.number)
    }
}
