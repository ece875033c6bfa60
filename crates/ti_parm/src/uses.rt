//! A run's first use of each static variable.
ghost use Rattle.std.specs.Prelude.{◌≡◌, ◌↔◌, Contains, IsTrue, slice_index_or};
ghost use Rattle.ti_parm.specs.{Uses.{further, noted}, declared.uses.FirstUse.TheVariants.{ReadFirst}};

/// A run's first use of a static variable.
#[derive(Clone, Copy, Debug, PartialEq, Eq)]
pub enum FirstUse {
    /// Not used so far.
    Unused,
    /// Read before it was set.
    ReadFirst,
    /// Set before it was read.
    SetFirst,
}

/// The first use of a variable whose first use was `so_far`, after one more use `now`.
fn further(so_far: FirstUse, now: FirstUse) -> FirstUse
    ensures { result ≡ further so_far now }
{
    match so_far {
        FirstUse::Unused => now,
        FirstUse::ReadFirst | FirstUse::SetFirst => so_far,
    }
}

/// The first use of the variable at `index`.
fn use_at(uses: &[FirstUse; 26], index: u8) -> FirstUse
    ensures { result ≡ slice_index_or uses.now index FirstUse.Unused }
{
    uses.get(usize::from(index))
        .copied()
        .unwrap_or(FirstUse::Unused)
}

/// Records that the variable at `index` is used.
pub fn note(uses: &mut [FirstUse; 26], index: u8, now: FirstUse)
    ensures { uses.new ≡ noted now index uses.old }
{
    if index < 26 {
        uses[usize::from(index)] = further(use_at(uses, index), now);
    }
}

/// Whether some variable was read before it was set.
pub fn reads_first(uses: &[FirstUse; 26]) -> bool
    ensures { IsTrue result ↔ Contains uses.now ReadFirst }
{
    uses.contains(&FirstUse::ReadFirst)
}
