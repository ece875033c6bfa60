//! The content of an open handle: an entry, the static variables, and the bytes of the last expansion.
ghost use Rattle.std.specs.Prelude.{◌≡◌, IfErr, OnErr, OnOk, []};
ghost use Rattle.ti_parm.specs.Value.{values_of, zeros};
ghost use Rattle.terminfo_c.specs.Expansions.{IsExpanded, IsFaulty, Stays};
ghost use Rattle.terminfo_c.specs.Entries.{IsFresh};

use std::alloc::Global;
use std::mem;
use ti_caps::Entry;
use ti_parm::{Param, ParmFault, Statics, expand};

/// An entry, the static variables that its strings have set, and the bytes of the last expansion.
#[derive(Drop)]
pub struct Held {
    pub entry: Entry,
    pub statics: Statics,
    /// The bytes of the last expansion that was done.
    pub output: Vec<u8>,
    /// The memory for the next one.
    next: Vec<u8>,
}

impl Held {
    /// Nothing was expanded yet. It allocates no memory.
    pub fn new(alloc: Global, entry: Entry) -> Held
        ensures { IsFresh entry result }
    {
        Held {
            entry,
            statics: Statics::new(),
            output: Vec::new(alloc),
            next: Vec::new(alloc),
        }
    }

    /// Expands `string` for `params`, keeps its bytes, and sets the static variables as the string does. The errors are
    /// those of `ti_parm::expand`; the bytes of the last expansion and the static variables stay as they were then.
    pub fn expand(
        &mut self,
        alloc: Global,
        string: &[u8],
        params: &[Param<'_>],
    ) -> Result<(), ParmFault>
        ensures expanded { OnOk result (IsExpanded string.now (values_of params.now) self.old self.new) }
        ensures fault { IfErr result (IsFaulty string.now (values_of params.now) self.old) }
        ensures stays { OnErr result (Stays self.old self.new) }
    {
        self.next.clear();
        expand(alloc, string, params, &mut self.statics, &mut self.next)?;
        mem::swap(&mut self.output, &mut self.next);
        Ok(())
    }
}
