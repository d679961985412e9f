// The policy: 256 rights, process label major, then 256 transitions.
ghost use Rattle.std.specs.Prelude.{◌≡◌};
ghost use Rattle.rules.specs.Rights.{policy_rights, transition};

use crate::layout::{LABELS, RIGHTS_SIZE};
use crate::words::get_or;
use rules::rights::Rights;

// The rights of process label l over file label m.
pub fn rights(policy: &[u8], l: u32, m: u32) -> Rights
    ensures { result ≡ policy_rights policy.now l m }
{
    Rights(get_or(policy, LABELS * (l as usize) + (m as usize), 0) as u32)
}

// Where process label l moves by program label m.
pub fn transition_of(policy: &[u8], l: u32, m: u32) -> u32
    ensures { result ≡ transition policy.now l m }
{
    get_or(
        policy,
        RIGHTS_SIZE + (LABELS * (l as usize) + (m as usize)),
        0,
    ) as u32
}
