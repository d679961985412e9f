// A file's record.
ghost use Rattle.std.specs.Prelude.{◌≡◌};
ghost use Rattle.rules.specs.Layout.{FILE_WIDTH};
ghost use Rattle.rules.specs.Store.{tab};
ghost use Rattle.rules.specs.Sound.{owners_free, access_free, record_free, owners_sound, access_sound, fields_sound, record_sound};

use rules::ids::Slot;
use rules::rights::Bits;
use tables::files::{bits, group, is_free, kind, label, length, links, owner, version};
use tables::layout::{GROUP_MAX, KIND_MAX, LABEL_MAX, USER_MAX, WORD_MAX};

#[tactic(auto, unfolding(rules::specs::Sound::owners_free, rules::specs::Choice::every))]
fn owners_free(files: &[u32], s: Slot) -> bool
    ensures { result ≡ owners_free (tab FILE_WIDTH files.now) s.0 }
{
    owner(files, s) == 0 && group(files, s) == 0
}

// Of a free record: what says who may do what.
#[tactic(auto, unfolding(rules::specs::Sound::access_free, rules::specs::Choice::every))]
fn access_free(files: &[u32], s: Slot) -> bool
    ensures { result ≡ access_free (tab FILE_WIDTH files.now) s.0 }
{
    owners_free(files, s) && bits(files, s).0 == 0 && label(files, s) == 0
}

#[tactic(auto, unfolding(rules::specs::Sound::record_free, rules::specs::Choice::every))]
fn record_free(files: &[u32], s: Slot) -> bool
    ensures { result ≡ record_free (tab FILE_WIDTH files.now) s.0 }
{
    access_free(files, s) && length(files, s) == 0 && links(files, s) == 0
}

#[tactic(auto, unfolding(rules::specs::Sound::owners_sound, rules::specs::Choice::every))]
fn owners_sound(files: &[u32], s: Slot) -> bool
    ensures { result ≡ owners_sound (tab FILE_WIDTH files.now) s.0 }
{
    owner(files, s) <= USER_MAX && group(files, s) <= GROUP_MAX
}

#[tactic(auto, unfolding(rules::specs::Sound::access_sound, rules::specs::Choice::every))]
fn access_sound(files: &[u32], s: Slot) -> bool
    ensures { result ≡ access_sound (tab FILE_WIDTH files.now) s.0 }
{
    owners_sound(files, s) && Bits::known(bits(files, s).0) && label(files, s) <= LABEL_MAX
}

// The fields of slot s are in range.
#[tactic(auto, unfolding(rules::specs::Sound::fields_sound, rules::specs::Choice::every))]
fn fields_sound(files: &[u32], s: Slot) -> bool
    ensures { result ≡ fields_sound (tab FILE_WIDTH files.now) s.0 }
{
    kind(files, s) <= KIND_MAX && access_sound(files, s) && version(files, s) <= WORD_MAX
}

// A free record is zero but for its version.
#[tactic(auto, unfolding(rules::specs::Sound::record_sound, rules::specs::Choice::every, rules::specs::Choice::implies))]
pub fn record_sound(files: &[u32], s: Slot) -> bool
    ensures { result ≡ record_sound (tab FILE_WIDTH files.now) s.0 }
{
    fields_sound(files, s) && (!is_free(files, s) || record_free(files, s))
}
