// The entries that a directory is seen with: the root has one more, that of /rom, and /rom has those of the prompts there are.
ghost use Rattle.std.specs.Prelude.{◌≡◌, false, [], ◌∷◌, ◌*◌, eqb};
ghost use Rattle.rules.specs.Choice.{every};
ghost use Rattle.rules.specs.Layout.{DIRENT_WIDTH, PROMPTS};
ghost use Rattle.rules.specs.Store.{slot, is_dirent};
ghost use Rattle.rules.specs.Directories.{dirent_ranked};
ghost use Rattle.rules.specs.Rom.{prompt_count, prompt_dirents, rom_dirents, with_rom};
ghost use Rattle.tables.specs.Tables.{shown_in, tree_seen};
ghost use Rattle.directories.specs.ByWords.{stored_by};
ghost use Rattle.directories.specs.Seen.{ROM_LOW, found_in, found, root_slot, store_dirents};

use crate::entries::{dirent_by, dirent_ranked, has_words, seventeenth, stored_by};
use rom::part::prompt_count;
use rules::ids::{Dirent, Slot};
use tables::directories::dirent_slot;
use tables::files::shown;
use tables::ids::is_dirent;
use tables::layout::{DIRENT_WIDTH, DIRENTS, ROM};
use tables::lent::Tables;
use tables::parts::upto;
use tables::words::copy;

// An entry that is looked for, 17 where it is missing, and the slot that it names.
#[derive(Clone, Copy)]
pub struct Found {
    pub dirent: Dirent,
    pub slot: Slot,
}

// The word of "rom"; that of the six bytes after it is 0.
pub const ROM_LOW: u64 = 7171954;

// The entries of all prompts: two digits, padded, and the prompt's number.
#[tactic(auto, using(crate::proofs::Seventeenth::copied), unfolding(rules::specs::Rom::prompt_dirents, rules::specs::Directories::dirent, rules::specs::Directories::padded))]
pub fn prompt_entries() -> [u8; 256]
    ensures { result ≡ prompt_dirents 0 PROMPTS }
{
    let mut all = [0u8; 256];
    copy(
        &mut all,
        0,
        b"00\0\0\0\0\0\0\0\0\0\0\0\0\x80\001\0\0\0\0\0\0\0\0\0\0\0\0\x81\002\0\0\0\0\0\0\0\0\0\0\0\0\x82\003\0\0\0\0\0\0\0\0\0\0\0\0\x83\004\0\0\0\0\0\0\0\0\0\0\0\0\x84\005\0\0\0\0\0\0\0\0\0\0\0\0\x85\006\0\0\0\0\0\0\0\0\0\0\0\0\x86\007\0\0\0\0\0\0\0\0\0\0\0\0\x87\008\0\0\0\0\0\0\0\0\0\0\0\0\x88\009\0\0\0\0\0\0\0\0\0\0\0\0\x89\010\0\0\0\0\0\0\0\0\0\0\0\0\x8a\011\0\0\0\0\0\0\0\0\0\0\0\0\x8b\012\0\0\0\0\0\0\0\0\0\0\0\0\x8c\013\0\0\0\0\0\0\0\0\0\0\0\0\x8d\014\0\0\0\0\0\0\0\0\0\0\0\0\x8e\015\0\0\0\0\0\0\0\0\0\0\0\0\x8f\0",
    );
    all
}

// How many bytes of them /rom is seen with.
pub fn rom_size(rom: &[u8]) -> usize
    ensures { result ≡ DIRENT_WIDTH * prompt_count PROMPTS rom.now }
{
    DIRENT_WIDTH * (prompt_count(rom) as usize)
}

// The root's own entries, and that of /rom.
#[tactic(auto, using(crate::proofs::Seventeenth::written))]
pub fn root_entries(dir: &[u8]) -> [u8; 272]
    ensures { result ≡ with_rom dir.now }
{
    let mut all = [0u8; 272];
    copy(&mut all, 0, upto(dir, 256));
    copy(
        &mut all,
        256,
        b"rom\x00\x00\x00\x00\x00\x00\x00\x00\x00\x00\x00\x90\x00",
    );
    all
}

#[tactic(auto, unfolding(rules::specs::Choice::every))]
fn is_rom(low: u64, high: u64) -> bool
    ensures { result ≡ every (eqb ROM_LOW low ∷ eqb 0 high ∷ []) }
{
    ROM_LOW == low && 0 == high
}

// What an entry of the root names, in which there is no eighteenth.
#[tactic(auto, unfolding(crate::specs::Seen::root_slot))]
fn slot_in_root(dir: &[u8], i: Dirent) -> Slot
    ensures { result ≡ root_slot dir.now i }
{
    if is_dirent(i) {
        return dirent_slot(dir, i);
    }
    if i.0 == DIRENTS {
        return Slot(ROM);
    }
    Slot(0)
}

// An entry of a directory that is seen as it is stored.
fn found_at(dir: &[u8], i: Dirent) -> Found
    ensures { result ≡ found dir.now i }
{
    Found {
        dirent: i,
        slot: dirent_slot(dir, i),
    }
}

// The entry after the root's own, for a name that none of them has.
#[tactic(auto, using(crate::proofs::Seventeenth::root_past))]
fn last_in_root(dir: &[u8], low: u64, high: u64) -> Found
    requires { is_dirent (stored_by dir.now low high) ≡ false }
    ensures { result ≡ found_in (with_rom dir.now) low high }
{
    let i = seventeenth(is_rom(low, high));
    Found {
        dirent: i,
        slot: slot_in_root(dir, i),
    }
}

// And that of another directory of the store.
#[tactic(auto, using(crate::proofs::Seventeenth::own_last))]
fn last_in_own(dir: &[u8], low: u64, high: u64) -> Found
    requires { is_dirent (stored_by dir.now low high) ≡ false }
    ensures { result ≡ found_in dir.now low high }
{
    found_at(dir, seventeenth(has_words(dir, low, high, Dirent(DIRENTS))))
}

#[tactic(auto, using(crate::proofs::Seventeenth::last_root, crate::proofs::Seventeenth::last_own))]
fn last_in(dir: &[u8], d: Slot, low: u64, high: u64) -> Found
    requires { is_dirent (stored_by dir.now low high) ≡ false }
    ensures { result ≡ found_in (store_dirents dir.now d.0) low high }
{
    if d.0 == 0 {
        return last_in_root(dir, low, high);
    }
    last_in_own(dir, low, high)
}

// In directory d of the store, whose bytes are `dir`. No other function of a call makes this search, so that the compiler can put it into the walk.
#[tactic(auto, using(crate::proofs::Seventeenth::in_store, crate::proofs::Seventeenth::none_own))]
fn found_in_store(dir: &[u8], d: Slot, low: u64, high: u64) -> Found
    ensures { result ≡ found_in (store_dirents dir.now d.0) low high }
{
    let i = stored_by(dir, low, high);
    if is_dirent(i) {
        return found_at(dir, i);
    }
    last_in(dir, d, low, high)
}

fn found_in(dir: &[u8], low: u64, high: u64) -> Found
    ensures { result ≡ found_in dir.now low high }
{
    found_at(dir, dirent_by(dir, low, high))
}

fn found_in_rom(rom: &[u8], low: u64, high: u64) -> Found
    ensures { result ≡ found_in (rom_dirents rom.now) low high }
{
    let all = prompt_entries();
    found_in(upto(&all, rom_size(rom)), low, high)
}

// The entry of directory d that has the name of these words.
#[tactic(auto, using(crate::proofs::Seventeenth::found_rom, crate::proofs::Seventeenth::found_store))]
pub fn find_in(t: &Tables, d: Slot, low: u64, high: u64) -> Found
    ensures { result ≡ found_in ((tree_seen t.now).dirents d.0) low high }
{
    if d.0 == ROM {
        return found_in_rom(t.rom, low, high);
    }
    found_in_store(shown(t.files, t.contents, d), d, low, high)
}

fn ranked_at_root(t: &Tables, k: u32) -> Dirent
    ensures { result ≡ dirent_ranked (with_rom (shown_in t.now 0)) k }
{
    let all = root_entries(shown(t.files, t.contents, Slot(0)));
    dirent_ranked(&all, k)
}

fn ranked_in_own(t: &Tables, d: Slot, k: u32) -> Dirent
    ensures { result ≡ dirent_ranked (shown_in t.now d.0) k }
{
    dirent_ranked(shown(t.files, t.contents, d), k)
}

fn ranked_in_rom(rom: &[u8], k: u32) -> Dirent
    ensures { result ≡ dirent_ranked (rom_dirents rom.now) k }
{
    let all = prompt_entries();
    dirent_ranked(upto(&all, rom_size(rom)), k)
}

// The entry of the k-th name of directory d.
#[tactic(auto, using(crate::proofs::Seventeenth::ranked_root, crate::proofs::Seventeenth::ranked_rom, crate::proofs::Seventeenth::ranked_own))]
pub fn ranked_in(t: &Tables, d: Slot, k: u32) -> Dirent
    ensures { result ≡ dirent_ranked ((tree_seen t.now).dirents d.0) k }
{
    if d.0 == 0 {
        return ranked_at_root(t, k);
    }
    if d.0 == ROM {
        return ranked_in_rom(t.rom, k);
    }
    ranked_in_own(t, d, k)
}
