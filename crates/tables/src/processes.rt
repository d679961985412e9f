// The processes, 8 records of 12 words: in use, user, group, label, 8 descriptors.
ghost use Rattle.std.specs.Prelude.{◌≡◌};
ghost use Rattle.rules.specs.Layout.{PROCESS_USED, PROCESS_USER, PROCESS_GROUP, PROCESS_LABEL};
ghost use Rattle.rules.specs.Store.{proc_of, desc_of, subject_of};

use crate::layout::{
    DESCRIPTORS, PROCESS_DESCRIPTOR, PROCESS_GROUP, PROCESS_LABEL, PROCESS_USED, PROCESS_USER,
    PROCESS_WIDTH,
};
use crate::words::get_or;
use rules::ids::{Fd, Pid};
use rules::request::Subject;

pub fn used(processes: &[u32], p: Pid) -> u32
    ensures { result ≡ proc_of processes.now p.0 PROCESS_USED }
{
    get_or(processes, PROCESS_WIDTH * (p.0 as usize) + PROCESS_USED, 0)
}

pub fn user(processes: &[u32], p: Pid) -> u32
    ensures { result ≡ proc_of processes.now p.0 PROCESS_USER }
{
    get_or(processes, PROCESS_WIDTH * (p.0 as usize) + PROCESS_USER, 0)
}

pub fn group(processes: &[u32], p: Pid) -> u32
    ensures { result ≡ proc_of processes.now p.0 PROCESS_GROUP }
{
    get_or(processes, PROCESS_WIDTH * (p.0 as usize) + PROCESS_GROUP, 0)
}

pub fn label(processes: &[u32], p: Pid) -> u32
    ensures { result ≡ proc_of processes.now p.0 PROCESS_LABEL }
{
    get_or(processes, PROCESS_WIDTH * (p.0 as usize) + PROCESS_LABEL, 0)
}

// Who asks.
pub fn subject(processes: &[u32], p: Pid) -> Subject
    ensures { result ≡ subject_of (proc_of processes.now) p }
{
    Subject {
        user: user(processes, p),
        group: group(processes, p),
        label: label(processes, p),
    }
}

// What a descriptor holds: 0 nothing, e + 1 open file e.
pub fn descriptor(processes: &[u32], p: Pid, i: Fd) -> u32
    ensures { result ≡ desc_of processes.now p.0 i.0 }
{
    let known = i.0 < DESCRIPTORS;
    if known {
        return get_or(
            processes,
            PROCESS_WIDTH * (p.0 as usize) + (PROCESS_DESCRIPTOR + (i.0 as usize)),
            0,
        );
    }
    0
}
