// "Policy": rights 0 to 7; a transition to a label, or 255.
ghost use Rattle.std.specs.Prelude.{◌≡◌, ◌+◌};
ghost use Rattle.rules.specs.Scan.{all};
ghost use Rattle.rules.specs.Layout.{RIGHTS_SIZE};
ghost use Rattle.rules.specs.Sound.{right_sound, transition_sound, policy_sound};

use rules::rights::Rights;
use tables::layout::{LABEL_MAX, NO_TRANSITION, POLICY_SIZE, RIGHTS_SIZE};
use tables::words::get_or;

// As bytes of a policy.
const MOVE_MAX: u8 = LABEL_MAX as u8;

const NO_MOVE: u8 = NO_TRANSITION as u8;

#[tactic(auto, unfolding(rules::specs::Sound::right_sound))]
fn right_sound(policy: &[u8], i: usize) -> bool
    ensures { result ≡ right_sound policy.now i }
{
    Rights::known(get_or(policy, i, 0) as u32)
}

#[tactic(auto, unfolding(rules::specs::Sound::transition_sound, rules::specs::Choice::some))]
fn transition_sound(policy: &[u8], i: usize) -> bool
    ensures { result ≡ transition_sound policy.now i }
{
    let to = get_or(policy, i, 0);
    to <= MOVE_MAX || to == NO_MOVE
}

// No exit between the tests, here and below: a loop over them looks at many bytes at once.
fn rights_sound(policy: &[u8]) -> bool
    ensures { result ≡ all (right_sound policy.now) 0 RIGHTS_SIZE }
{
    (0..RIGHTS_SIZE).fold(true, |fine, i| fine & right_sound(policy, i))
}

fn transitions_sound(policy: &[u8]) -> bool
    ensures { result ≡ all (transition_sound policy.now) RIGHTS_SIZE (RIGHTS_SIZE + RIGHTS_SIZE) }
{
    (RIGHTS_SIZE..POLICY_SIZE).fold(true, |fine, i| fine & transition_sound(policy, i))
}

#[tactic(auto, unfolding(rules::specs::Sound::policy_sound, rules::specs::Choice::every))]
pub fn policy_sound(policy: &[u8]) -> bool
    ensures { result ≡ policy_sound policy.now }
{
    policy.len() == POLICY_SIZE && rights_sound(policy) && transitions_sound(policy)
}
