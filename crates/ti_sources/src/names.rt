//! Finding an entry by its name.

ghost use Rattle.std.specs.Prelude.{◌≡◌, ◌<◌, IfSome, length};
ghost use Rattle.ti_resolve.specs.Uses.{is_name_in, place_named};

use ti_resolve::cut_name;
use ti_source::RawEntry;

/// Whether `name` is one of `names`, which `|` separates.
fn is_name_in(names: &[u8], name: &[u8]) -> bool
    ensures { result ≡ is_name_in names.now name.now }
{
    let mut rest = names;
    while let Some((own, behind)) = cut_name(rest) {
        if own == name {
            return true;
        }
        rest = behind;
    }
    rest == name
}

/// The place of the first entry of `raws` that has this `name`, which a `use=` of it leads to; `None` if there is none.
/// It takes one pass over the names.
#[tactic(auto, unfolding(ti_resolve::specs::Uses::place_named))]
pub fn place_named(raws: &[RawEntry], name: &[u8]) -> Option<usize>
    ensures place { result ≡ place_named raws.now name.now }
    ensures range { IfSome result (λ place. place < length raws.now) }
{
    raws.iter()
        .position(|raw| is_name_in(raw.names.as_slice(), name))
}
