// The calls whose form is tested: the form, then the call's own checks. The two are one function for each call, so that a call is matched
// once: every match on the operation is a jump that the processor cannot foresee.
ghost use Rattle.std.specs.Prelude.{◌≡◌, [], ◌∷◌, leb, length};
ghost use Rattle.rules.specs.Choice.{every};
ghost use Rattle.rules.specs.Layout.{BLOCK, PLAIN, DIRECTORY};
ghost use Rattle.rules.specs.Store.{desc_of};
ghost use Rattle.tables.specs.Tables.{open_in, desc_in, tree_seen};
ghost use Rattle.rules.specs.Rights.{bits_known, bits_of, mode_of, mode_known};
ghost use Rattle.rules.specs.Paths.{path_ok};
ghost use Rattle.rules.specs.Calls.{path_below_root, new_file_ok};
ghost use Rattle.rules.specs.Checks.{need};
ghost use Rattle.rules.specs.DecidePaths.{decide_open, decide_create, decide_unlink, decide_remove, decide_link, decide_list, decide_change_bits, decide_stat, decide_execute, decide_symlink, decide_read_link, decide_rename};
ghost use Rattle.rules.specs.Decide.{decide_seek};
ghost use Rattle.rules.specs.declared.refusal.Refusal.TheVariants.{Malformed};

use crate::form::{
    bits_and_path_ok, both_paths_ok, new_file_ok, offset_ok, open_ok, rename_ok, symlink_ok,
};
use create_calls::create::decide_create;
use create_calls::link::decide_link;
use create_calls::symlink::decide_symlink;
use file_calls::change_bits::decide_change_bits;
use file_calls::execute::decide_execute;
use file_calls::list::decide_list;
use file_calls::read_link::decide_read_link;
use file_calls::stat::decide_stat;
use open_call::open::decide_open;
use remove_calls::remove::decide_remove;
use remove_calls::unlink::decide_unlink;
use rename_call::rename::decide_rename;
use resolution::paths::{path_below_root, path_ok};
use rules::decision::Decision;
use rules::ids::{Fd, Pid};
use rules::refusal::Refusal;
use rules::request::Subject;
use rules::rights::Bits;
use tables::layout::{DIRECTORY, PLAIN};
use tables::lent::Tables;
use tables::numbers::word_of;
use transfer_calls::seek::decide_seek;

#[tactic(auto, using(rules::proofs::Choices::steps))]
pub fn formed_open(t: &Tables, p: Pid, who: Subject, n: u32, path: &[u8]) -> Decision
    ensures { result ≡ need (every (mode_known (mode_of n) ∷ path_ok path.now ∷ [])) Malformed (decide_open t.now.policy.now (tree_seen t.now) (open_in t.now) (desc_in t.now) p who n path.now) }
{
    if !open_ok(n, path) {
        return Err(Refusal::Malformed.into());
    }
    decide_open(t, p, who, n, path)
}

// Create and make directory are two, for `decide_create` then has two callers and stays one function; as one with it this one would be called twice and be handed
// everything in memory.
#[tactic(auto, using(rules::proofs::Choices::steps))]
pub fn formed_create(t: &Tables, who: Subject, n: u32, path: &[u8]) -> Decision
    ensures { result ≡ need (new_file_ok n path.now) Malformed (decide_create t.now.policy.now (tree_seen t.now) who PLAIN (bits_of n) path.now) }
{
    if !new_file_ok(n, path) {
        return Err(Refusal::Malformed.into());
    }
    decide_create(t, who, PLAIN, Bits::new(n), path)
}

#[tactic(auto, using(rules::proofs::Choices::steps))]
pub fn formed_make_directory(t: &Tables, who: Subject, n: u32, path: &[u8]) -> Decision
    ensures { result ≡ need (new_file_ok n path.now) Malformed (decide_create t.now.policy.now (tree_seen t.now) who DIRECTORY (bits_of n) path.now) }
{
    if !new_file_ok(n, path) {
        return Err(Refusal::Malformed.into());
    }
    decide_create(t, who, DIRECTORY, Bits::new(n), path)
}

#[tactic(auto, using(rules::proofs::Choices::steps))]
pub fn formed_unlink(t: &Tables, who: Subject, path: &[u8]) -> Decision
    ensures { result ≡ need (path_below_root path.now) Malformed (decide_unlink t.now.policy.now (tree_seen t.now) (open_in t.now) who path.now) }
{
    if !path_below_root(path) {
        return Err(Refusal::Malformed.into());
    }
    decide_unlink(t, who, path)
}

#[tactic(auto, using(rules::proofs::Choices::steps))]
pub fn formed_remove(t: &Tables, who: Subject, path: &[u8]) -> Decision
    ensures { result ≡ need (path_below_root path.now) Malformed (decide_remove t.now.policy.now (tree_seen t.now) who path.now) }
{
    if !path_below_root(path) {
        return Err(Refusal::Malformed.into());
    }
    decide_remove(t, who, path)
}

#[tactic(auto, using(rules::proofs::Choices::steps))]
pub fn formed_link(t: &Tables, who: Subject, path: &[u8], data: &[u8]) -> Decision
    ensures { result ≡ need (every (path_ok path.now ∷ path_below_root «data».now ∷ [])) Malformed (decide_link t.now.policy.now (tree_seen t.now) who path.now «data».now) }
{
    if !both_paths_ok(path, data) {
        return Err(Refusal::Malformed.into());
    }
    decide_link(t, who, path, data)
}

#[tactic(auto, using(rules::proofs::Choices::steps))]
pub fn formed_list(t: &Tables, who: Subject, n: u32, path: &[u8]) -> Decision
    ensures { result ≡ need (path_ok path.now) Malformed (decide_list t.now.policy.now (tree_seen t.now) who n path.now) }
{
    if !path_ok(path) {
        return Err(Refusal::Malformed.into());
    }
    decide_list(t, who, n, path)
}

#[tactic(auto, using(rules::proofs::Choices::steps))]
pub fn formed_change_bits(t: &Tables, who: Subject, n: u32, path: &[u8]) -> Decision
    ensures { result ≡ need (every (bits_known n ∷ path_ok path.now ∷ [])) Malformed (decide_change_bits t.now.policy.now (tree_seen t.now) who (bits_of n) path.now) }
{
    if !bits_and_path_ok(n, path) {
        return Err(Refusal::Malformed.into());
    }
    decide_change_bits(t, who, Bits::new(n), path)
}

#[tactic(auto, using(rules::proofs::Choices::steps))]
pub fn formed_stat(t: &Tables, who: Subject, path: &[u8]) -> Decision
    ensures { result ≡ need (path_ok path.now) Malformed (decide_stat t.now.policy.now t.now.rom.now (tree_seen t.now) who path.now) }
{
    if !path_ok(path) {
        return Err(Refusal::Malformed.into());
    }
    decide_stat(t, who, path)
}

#[tactic(auto, using(rules::proofs::Choices::steps))]
pub fn formed_seek(processes: &[u32], p: Pid, i: Fd, n: u32) -> Decision
    ensures { result ≡ need (leb n BLOCK) Malformed (decide_seek (desc_of processes.now) p i n) }
{
    if !offset_ok(n) {
        return Err(Refusal::Malformed.into());
    }
    decide_seek(processes, p, i, n)
}

#[tactic(auto, using(rules::proofs::Choices::steps))]
pub fn formed_execute(t: &Tables, who: Subject, path: &[u8]) -> Decision
    ensures { result ≡ need (path_ok path.now) Malformed (decide_execute t.now.policy.now (tree_seen t.now) who path.now) }
{
    if !path_ok(path) {
        return Err(Refusal::Malformed.into());
    }
    decide_execute(t, who, path)
}

#[tactic(auto, using(rules::proofs::Choices::steps))]
pub fn formed_symlink(t: &Tables, who: Subject, path: &[u8], data: &[u8]) -> Decision
    ensures { result ≡ need (every (path_below_root path.now ∷ path_ok «data».now ∷ [])) Malformed (decide_symlink t.now.policy.now (tree_seen t.now) who (length «data».now) path.now) }
{
    if !symlink_ok(path, data) {
        return Err(Refusal::Malformed.into());
    }
    decide_symlink(t, who, word_of(data.len()), path)
}

#[tactic(auto, using(rules::proofs::Choices::steps))]
pub fn formed_read_link(t: &Tables, who: Subject, size: usize, path: &[u8]) -> Decision
    ensures { result ≡ need (path_ok path.now) Malformed (decide_read_link t.now.policy.now (tree_seen t.now) who size path.now) }
{
    if !path_ok(path) {
        return Err(Refusal::Malformed.into());
    }
    decide_read_link(t, who, size, path)
}

#[tactic(auto, using(rules::proofs::Choices::steps))]
pub fn formed_rename(t: &Tables, who: Subject, path: &[u8], data: &[u8]) -> Decision
    ensures { result ≡ need (every (path_below_root path.now ∷ path_below_root «data».now ∷ [])) Malformed (decide_rename t.now.policy.now (tree_seen t.now) who path.now «data».now) }
{
    if !rename_ok(path, data) {
        return Err(Refusal::Malformed.into());
    }
    decide_rename(t, who, path, data)
}
