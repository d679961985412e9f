// Processes: made, freed, relabelled. Fork and exit go through the descriptors first, by `open_files`.
ghost use Rattle.std.specs.Prelude.{◌≡◌, List, [], ◌∷◌, ℕ};
ghost use Rattle.rules.specs.Layout.{PROCESS_LABEL};
ghost use Rattle.rules.specs.Store.{store, proc_word, proc_zero, apply_all};
ghost use Rattle.rules.specs.Effects.{fork_changes};

use rules::ids::Pid;
use rules::request::Subject;
use tables::layout::{PROCESS_GROUP, PROCESS_LABEL, PROCESS_USED, PROCESS_USER, PROCESS_WIDTH};
use tables::words::{fill, put};

pub fn make_process(processes: &mut [u32], child: Pid, who: Subject)
    ensures { (F C E : List ℕ) → store F C E processes.new ≡ apply_all (fork_changes child who) (store F C E processes.old) }
{
    let at = PROCESS_WIDTH * (child.0 as usize);
    put(processes, at + PROCESS_USED, 1);
    put(processes, at + PROCESS_USER, who.user);
    put(processes, at + PROCESS_GROUP, who.group);
    put(processes, at + PROCESS_LABEL, who.label);
}

pub fn free_process(processes: &mut [u32], p: Pid)
    ensures { (F C E : List ℕ) → store F C E processes.new ≡ apply_all (proc_zero p.0 ∷ []) (store F C E processes.old) }
{
    fill(processes, PROCESS_WIDTH * (p.0 as usize), PROCESS_WIDTH, 0);
}

pub fn relabel_process(processes: &mut [u32], p: Pid, label: u32)
    ensures { (F C E : List ℕ) → store F C E processes.new ≡ apply_all (proc_word p.0 PROCESS_LABEL label ∷ []) (store F C E processes.old) }
{
    put(
        processes,
        PROCESS_WIDTH * (p.0 as usize) + PROCESS_LABEL,
        label,
    );
}
