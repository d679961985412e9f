// The form of a call: whether its numbers and paths are well formed.
ghost use Rattle.std.specs.Prelude.{◌≡◌, [], ◌∷◌, leb};
ghost use Rattle.rules.specs.Choice.{every};
ghost use Rattle.rules.specs.Layout.{BLOCK};
ghost use Rattle.rules.specs.Rights.{bits_known, mode_of, mode_known};
ghost use Rattle.rules.specs.Paths.{path_ok};
ghost use Rattle.rules.specs.Calls.{path_below_root, new_file_ok};

use resolution::paths::{path_below_root, path_ok};
use rules::rights::{Bits, OpenMode};
use tables::layout::BLOCK;

#[tactic(auto, unfolding(rules::specs::Choice::every))]
pub fn open_ok(n: u32, path: &[u8]) -> bool
    ensures { result ≡ every (mode_known (mode_of n) ∷ path_ok path.now ∷ []) }
{
    OpenMode::known(n) && path_ok(path)
}

#[tactic(auto, unfolding(rules::specs::Calls::new_file_ok, rules::specs::Choice::every))]
pub fn new_file_ok(n: u32, path: &[u8]) -> bool
    ensures { result ≡ new_file_ok n path.now }
{
    Bits::known(n) && path_below_root(path)
}

#[tactic(auto, unfolding(rules::specs::Choice::every))]
pub fn bits_and_path_ok(n: u32, path: &[u8]) -> bool
    ensures { result ≡ every (bits_known n ∷ path_ok path.now ∷ []) }
{
    Bits::known(n) && path_ok(path)
}

#[tactic(auto, unfolding(rules::specs::Choice::every))]
pub fn both_paths_ok(path: &[u8], data: &[u8]) -> bool
    ensures { result ≡ every (path_ok path.now ∷ path_below_root «data».now ∷ []) }
{
    path_ok(path) && path_below_root(data)
}

// A new path and a link's text.
#[tactic(auto, unfolding(rules::specs::Choice::every))]
pub fn symlink_ok(path: &[u8], text: &[u8]) -> bool
    ensures { result ≡ every (path_below_root path.now ∷ path_ok text.now ∷ []) }
{
    path_below_root(path) && path_ok(text)
}

// The two paths of a rename.
#[tactic(auto, unfolding(rules::specs::Choice::every))]
pub fn rename_ok(old: &[u8], new: &[u8]) -> bool
    ensures { result ≡ every (path_below_root old.now ∷ path_below_root new.now ∷ []) }
{
    path_below_root(old) && path_below_root(new)
}

pub fn offset_ok(n: u32) -> bool
    ensures { result ≡ leb n BLOCK }
{
    (n as usize) <= BLOCK
}
