//! Paths of one file.

ghost use Rattle.std.specs.Prelude.{◌≡◌};
ghost use Rattle.ti_printers.specs.Paths as spec;

use std::path::Path;

/// Whether both paths name one file from any folder: they are the same but for steps `.` and repeated slashes.
pub fn is_same_path(one: &str, other: &str) -> bool
    ensures { result ≡ spec.is_same_path one.now other.now }
{
    Path::new(within(one)) == Path::new(within(other))
}

/// The `path` without `./` at its start.
fn within(path: &str) -> &str
    ensures { result.now ≡ spec.within path.now }
{
    match path.strip_prefix("./") {
        Some(rest) => rest,
        None => path,
    }
}
