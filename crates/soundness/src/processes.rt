// The processes.
ghost use Rattle.std.specs.Prelude.{◌≡◌};
ghost use Rattle.rules.specs.Scan.{all};
ghost use Rattle.rules.specs.Store.{desc_of, proc_of};
ghost use Rattle.rules.specs.Layout.{PROCESSES, DESCRIPTORS};
ghost use Rattle.rules.specs.Sound.{desc_sound, desc_free, subject_free, proc_free, subject_sound, proc_used, proc_sound};

use rules::ids::{Fd, Pid};
use tables::layout::{DESCRIPTORS, GROUP_MAX, LABEL_MAX, OPEN_FILES, PROCESSES, USER_MAX};
use tables::processes::{descriptor, group, label, used, user};

fn all_desc_sound(processes: &[u32], p: Pid) -> bool
    ensures { result ≡ all (desc_sound (desc_of processes.now) p.0) 0 DESCRIPTORS }
{
    (0..DESCRIPTORS).all(|i| descriptor(processes, p, Fd(i)) <= OPEN_FILES)
}

fn all_desc_free(processes: &[u32], p: Pid) -> bool
    ensures { result ≡ all (desc_free (desc_of processes.now) p.0) 0 DESCRIPTORS }
{
    (0..DESCRIPTORS).all(|i| descriptor(processes, p, Fd(i)) == 0)
}

#[tactic(auto, unfolding(rules::specs::Sound::subject_free, rules::specs::Choice::every))]
fn subject_free(processes: &[u32], p: Pid) -> bool
    ensures { result ≡ subject_free (proc_of processes.now) p.0 }
{
    user(processes, p) == 0 && group(processes, p) == 0 && label(processes, p) == 0
}

#[tactic(auto, unfolding(rules::specs::Sound::proc_free, rules::specs::Choice::every))]
fn proc_free(processes: &[u32], p: Pid) -> bool
    ensures { result ≡ proc_free (proc_of processes.now) (desc_of processes.now) p.0 }
{
    subject_free(processes, p) && all_desc_free(processes, p)
}

#[tactic(auto, unfolding(rules::specs::Sound::subject_sound, rules::specs::Choice::every))]
fn subject_sound(processes: &[u32], p: Pid) -> bool
    ensures { result ≡ subject_sound (proc_of processes.now) p.0 }
{
    user(processes, p) <= USER_MAX
        && group(processes, p) <= GROUP_MAX
        && label(processes, p) <= LABEL_MAX
}

#[tactic(auto, unfolding(rules::specs::Sound::proc_used, rules::specs::Choice::every))]
fn proc_used(processes: &[u32], p: Pid) -> bool
    ensures { result ≡ proc_used (proc_of processes.now) (desc_of processes.now) p.0 }
{
    used(processes, p) == 1 && subject_sound(processes, p) && all_desc_sound(processes, p)
}

#[tactic(auto, unfolding(rules::specs::Sound::proc_sound))]
fn proc_sound(processes: &[u32], p: Pid) -> bool
    ensures { result ≡ proc_sound (proc_of processes.now) (desc_of processes.now) p.0 }
{
    if used(processes, p) == 0 {
        proc_free(processes, p)
    } else {
        proc_used(processes, p)
    }
}

pub fn processes_sound(processes: &[u32]) -> bool
    ensures { result ≡ all (proc_sound (proc_of processes.now) (desc_of processes.now)) 0 PROCESSES }
{
    (0..PROCESSES).all(|p| proc_sound(processes, Pid(p)))
}
