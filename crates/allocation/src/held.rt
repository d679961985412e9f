// Processes in use, and descriptors that are held.
ghost use Rattle.std.specs.Prelude.{◌≡◌};
ghost use Rattle.rules.specs.Store.{proc_of, desc_of};
ghost use Rattle.rules.specs.Checks.{in_use, held, ofd_held};

use rules::ids::{Fd, Ofd, Pid};
use tables::ids::is_pid;

#[tactic(auto, unfolding(rules::specs::Checks::in_use, rules::specs::Choice::every))]
pub fn in_use(processes: &[u32], p: Pid) -> bool
    ensures { result ≡ in_use (proc_of processes.now) p }
{
    is_pid(p) && tables::processes::used(processes, p) == 1
}

#[tactic(auto, unfolding(rules::specs::Checks::held))]
pub fn is_held(processes: &[u32], p: Pid, i: Fd) -> bool
    ensures { result ≡ held (desc_of processes.now) p i }
{
    tables::processes::descriptor(processes, p, i) != 0
}

// The open file that a descriptor holds.
pub fn ofd_held(processes: &[u32], p: Pid, i: Fd) -> Ofd
    ensures { result ≡ ofd_held (desc_of processes.now) p i }
{
    Ofd(tables::processes::descriptor(processes, p, i).saturating_sub(1))
}
