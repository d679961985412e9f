// Symbolic links: named once, bits 0, a valid path as text, of the record's length, then 0.
ghost use Rattle.std.specs.Prelude.{◌≡◌};
ghost use Rattle.rules.specs.Store.{tree};
ghost use Rattle.rules.specs.Sound.{text_sound, link_sound};

use crate::bytes::all_zero;
use resolution::paths::path_ok;
use rules::ids::Slot;
use tables::files::{bits, length, link_text, links, shown};
use tables::parts::after;

// The text, and nothing after it.
#[tactic(auto, unfolding(rules::specs::Sound::text_sound, rules::specs::Choice::every))]
fn text_sound(files: &[u32], contents: &[u8], s: Slot) -> bool
    ensures { result ≡ text_sound (tree files.now contents.now) s.0 }
{
    path_ok(link_text(files, contents, s))
        && all_zero(after(shown(files, contents, s), length(files, s) as usize))
}

#[tactic(auto, unfolding(rules::specs::Sound::link_sound, rules::specs::Choice::every))]
pub fn link_sound(files: &[u32], contents: &[u8], s: Slot) -> bool
    ensures { result ≡ link_sound (tree files.now contents.now) s.0 }
{
    links(files, s) == 1 && bits(files, s).0 == 0 && text_sound(files, contents, s)
}
