// The descriptors that a process holds, as the bits of one word: bit n is set exactly when descriptor n is held.
ghost use Rattle.std.specs.Prelude.{◌≡◌, cond};
ghost use Rattle.rules.specs.Store.{desc_of};
ghost use Rattle.rules.specs.Checks.{fd_free};
ghost use Rattle.allocation.specs.Word.{used_word, BitsHeld};

use rules::ids::{Fd, Pid};
use tables::layout::{DESCRIPTORS, PROCESS_WIDTH};

#[tactic(auto, unfolding(rules::specs::Checks::fd_free))]
fn fd_free(processes: &[u32], p: Pid, i: Fd) -> bool
    ensures { result ≡ fd_free (desc_of processes.now) p i.0 }
{
    tables::processes::descriptor(processes, p, i) == 0
}

#[tactic(auto, using(rules::proofs::Choices::steps))]
fn bit_if_free(processes: &[u32], p: Pid, i: Fd, bit: u8) -> u8
    ensures { result ≡ cond (fd_free (desc_of processes.now) p i.0) bit 0 }
{
    if fd_free(processes, p, i) {
        return bit;
    }
    0
}

// All eight bits, less those of the free descriptors: so the compiler has eight steps alike, and compares all the words at once. With
// the held ones added up from 0, it makes bit 0 in another way than the others, and does not.
fn word_of(processes: &[u32], p: Pid) -> u8
    ensures { result ≡ used_word (desc_of processes.now) p }
{
    let mut w: u8 = 255;
    for i in 0..DESCRIPTORS {
        w -= bit_if_free(processes, p, Fd(i), 1 << i);
    }
    w
}

// The process's record is handed on alone, as a table of one process: its length is known, so no word is tested against the table's end.
pub fn used_descriptors(processes: &[u32], p: Pid) -> u8
    ensures word { result ≡ used_word (desc_of processes.now) p }
    ensures bits { BitsHeld (desc_of processes.now) p result }
{
    let start = PROCESS_WIDTH * (p.0 as usize);
    let end = start + PROCESS_WIDTH;
    if end <= processes.len() {
        return word_of(&processes[start..end], Pid(0));
    }
    word_of(processes, p)
}
