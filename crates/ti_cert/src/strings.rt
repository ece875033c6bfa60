//! The strings of a certificate, found by the row that they are for.

ghost use Rattle.std.specs.Prelude.{◌≡◌, ◌<◌, ◌++◌, [], ◌∷◌, length, OnOk, IfOk, IsTrue, option_copied, replicate};
ghost use Rattle.std.specs.{Prelude.{true, false, None}, List.{slice_get}};
ghost use Rattle.ti_rows.specs.{Lists.{IsInRange, rank}, Names.{order, capabilities}};
ghost use Rattle.ti_rows.specs.declared.rows.Row as rows;
ghost use Rattle.ti_conforms.specs.Agreement.{SomeLine};
ghost use Rattle.ti_cert.specs.Lengths.{longest_line};
ghost use Rattle.ti_cert.specs.Strings as spec;

use crate::groups::Group;
use std::alloc::{AllocError, Global};
use std::marker::Model;
use ti_rows::{CAPABILITIES, Row};
use vt_term::Size;

/// The strings of a certificate for a size.
#[derive(Drop)]
pub(crate) struct Strings {
    size: Size,
    /// One group for each checked capability, in the byte order of their names.
    groups: Vec<Group>,
}

impl Model for Strings {
    ghost use Rattle.std.specs.Prelude.{◌≡◌, length};
    ghost use Rattle.vt_term.specs.Size.{IsSize};
    ghost use Rattle.ti_rows.specs.Names.{capabilities};
    ghost use Rattle.ti_cert.specs.Strings.{Strings};

    ghost Value = { Strings };

    ghost view = { λ s. record { rows = s.size.rows; cols = s.size.cols; groups = s.groups.items } };

    ghost invariant = { λ s. length s.groups.items ≡ capabilities };
}

fn empty_groups(alloc: Global) -> Result<Vec<Group>, AllocError>
    ensures { IfOk result (λ groups. groups.items ≡ replicate capabilities []) }
{
    let mut groups = Vec::with_capacity(alloc, CAPABILITIES)?;
    for _ in 0..CAPABILITIES {
        groups.push(Group::new(alloc))?;
    }
    Ok(groups)
}

/// Whether a size allows the row's parameters.
#[tactic(auto, using(crate::proofs::Ranges::allowed))]
pub(crate) fn allows(size: Size, row: Row) -> bool
    ensures { result ≡ spec.allows size.rows size.cols row }
{
    row.is_in_range(size)
}

impl Strings {
    /// No strings. Fails if memory runs out.
    pub fn new(alloc: Global, size: Size) -> Result<Strings, AllocError>
        ensures { IfOk result (λ strings. strings
            ≡ record { rows = size.rows; cols = size.cols; groups = replicate capabilities [] }) }
    {
        Ok(Strings {
            size,
            groups: empty_groups(alloc)?,
        })
    }

    pub fn size(&self) -> Size
        ensures rows { result.rows ≡ self.now.rows }
        ensures cols { result.cols ≡ self.now.cols }
    {
        self.size
    }

    /// The string of a row, if there is one.
    #[tactic(auto, using(crate::proofs::Ranges::in_range))]
    pub fn get(&self, row: Row) -> Option<&[u8]>
        ensures { option_copied result ≡ spec.row_string self.now row }
    {
        if allows(self.size, row) {
            self.groups[row.order()].get(row.rank(self.size))
        } else {
            None
        }
    }

    pub fn has(&self, row: Row) -> bool
        ensures value { result ≡ spec.has_group self.now row }
        ensures some { result ≡ true → SomeLine (λ r. spec.row_string self.now r) (order row) }
        ensures none { result ≡ false → (other : rows.Row) → order other ≡ order row
            → spec.row_string self.now other ≡ None }
    {
        // a look at a field brings in the invariant: each checked capability has its group
        let _ = &self.size;
        self.count(row) != 0
    }

    /// The number of strings of the row's capability.
    pub fn count(&self, row: Row) -> usize
        ensures { result ≡ length (spec.group_at self.now (order row)) }
    {
        self.groups[row.order()].len()
    }

    /// The number of bytes of the longest string of the row's capability, 0 if it has none.
    pub fn longest(&self, row: Row) -> usize
        ensures { result ≡ longest_line self.now row }
    {
        self.groups[row.order()].longest()
    }

    /// Adds `bytes`, the string of the capability's next parameter list. Fails if memory runs out.
    pub fn push(&mut self, row: Row, bytes: &[u8]) -> Result<(), AllocError>
        requires range { spec.allows self.old.rows self.old.cols row ≡ true }
        requires place { rank self.old.rows self.old.cols row ≡ length (spec.group_at self.old (order row)) }
        ensures { OnOk result (spec.Adds self.old self.new row bytes.now) }
    {
        self.groups[row.order()].push(bytes)
    }
}
