// Names, padded to 14 bytes with 0.
ghost use Rattle.std.specs.Prelude.{◌≡◌};
ghost use Rattle.rules.specs.Paths.{same_at, same_name, is_dots};

use crate::layout::NAME;
use crate::words::get_or;

// Byte k of two names is the same, each 0 past its end.
pub fn same_at(a: &[u8], b: &[u8], k: usize) -> bool
    ensures { result ≡ same_at a.now b.now k }
{
    get_or(a, k, 0) == get_or(b, k, 0)
}

// Two names, padded to 14 bytes with 0, are the same.
pub fn same_name(a: &[u8], b: &[u8]) -> bool
    ensures { result ≡ same_name a.now b.now }
{
    (0..NAME).all(|k| same_at(a, b, k))
}

// The name is "." or "..".
pub fn is_dots(name: &[u8]) -> bool
    ensures { result ≡ is_dots name.now }
{
    if same_name(name, b".") {
        return true;
    }
    same_name(name, b"..")
}
