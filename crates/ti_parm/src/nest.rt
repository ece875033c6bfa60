//! The conditionals around a place of a string.
ghost use Rattle.std.specs.Prelude.{◌≡◌};
ghost use Rattle.ti_parm.specs.Conditionals.{branch_behind};

use crate::code::{Code, Mark};
use crate::fault::ParmFault;
use smallvec::SmallVec;
use std::alloc::Global;
use std::marker::Model;

/// A part of a conditional.
#[derive(Clone, Copy, Debug, PartialEq, Eq)]
pub enum Branch {
    /// Between `%?` and `%t`.
    Condition,
    /// After `%t`.
    Chosen,
    /// After `%e`.
    Otherwise,
}

/// The part at the start of a conditional.
impl Default for Branch {
    fn default() -> Self
        ensures { result ≡ Branch.Condition }
    {
        Branch::Condition
    }
}

/// The conditionals around a place. Contracts see the list of their branches, the innermost first.
#[derive(Drop)]
pub struct Nest {
    /// The innermost branch, apart from the others, so that most strings use no list.
    innermost: Option<Branch>,
    /// The branches around it, the outermost first.
    outer: SmallVec<Branch, 16>,
}

impl Model for Nest {
    ghost use Rattle.std.specs.Prelude.{◌≡◌, [], None, reverse};
    ghost use Rattle.ti_parm.specs.Conditionals.{Branches, inside};

    ghost Value = { Branches };

    ghost view = { λ n. inside n.innermost (reverse n.outer.items) };

    ghost invariant = { λ n. n.innermost ≡ None → n.outer.items ≡ [] };
}

/// The branch after `mark`, `None` if it ends the conditional. Fails if the mark isn't allowed in `branch`.
fn branch_behind(mark: Mark, branch: Branch) -> Result<Option<Branch>, ParmFault>
    ensures { result ≡ branch_behind mark branch }
{
    match (mark, branch) {
        (Mark::Then, Branch::Condition | Branch::Otherwise) => Ok(Some(Branch::Chosen)),
        (Mark::Else, Branch::Chosen) => Ok(Some(Branch::Otherwise)),
        (Mark::End, Branch::Chosen | Branch::Otherwise) => Ok(None),
        _ => Err(ParmFault::BadNest),
    }
}

impl Nest {
    ghost use Rattle.std.specs.Prelude.{◌≡◌, ◌↔◌, [], ◌∷◌, IsTrue, Ok};
    ghost use Rattle.ti_parm.specs.{Fault.{Answers, Gives}, Conditionals.{judged, nest_behind, nest_behind_mark}};
    ghost use Rattle.ti_parm.specs.Syntax.{Ends};

    /// The place outside of all conditionals.
    pub fn new(alloc: Global) -> Self
        ensures { result ≡ [] }
    {
        Nest {
            innermost: None,
            outer: SmallVec::new(alloc),
        }
    }

    /// Whether the place is outside of all conditionals.
    fn is_empty(&self) -> bool
        ensures { IsTrue result ↔ (self.now ≡ []) }
    {
        self.innermost.is_none()
    }

    /// Checks that a string may end at the place.
    pub fn end(&self) -> Result<(), ParmFault>
        ensures { Answers (λ _. tt) result (judged Ends self.now) }
    {
        if self.is_empty() {
            Ok(())
        } else {
            Err(ParmFault::BadNest)
        }
    }

    /// Moves past a code.
    #[inline(always)]
    pub fn pass(&mut self, code: Code) -> Result<(), ParmFault>
        ensures { Gives (λ _. self.new) result (nest_behind code self.old) }
    {
        match code {
            Code::Act(_) => Ok(()),
            Code::If => self.open(),
            Code::Of(mark) => self.pass_mark(mark),
        }
    }

    /// Moves past a `%?`.
    #[inline(always)]
    fn open(&mut self) -> Result<(), ParmFault>
        ensures { Gives (λ _. self.new) result (Ok (Branch.Condition ∷ self.old)) }
    {
        let around = self.innermost;
        self.innermost = Some(Branch::Condition);
        match around {
            None => Ok(()),
            Some(branch) => self.outer.push(branch).map_err(|_| ParmFault::NoMemory),
        }
    }

    /// Moves past a mark.
    #[inline(always)]
    fn pass_mark(&mut self, mark: Mark) -> Result<(), ParmFault>
        ensures { Gives (λ _. self.new) result (nest_behind_mark mark self.old) }
    {
        let Some(branch) = self.innermost else {
            return Err(ParmFault::BadNest);
        };
        match branch_behind(mark, branch)? {
            None => {
                self.innermost = self.outer.pop();
                Ok(())
            }
            Some(next) => {
                self.innermost = Some(next);
                Ok(())
            }
        }
    }
}
