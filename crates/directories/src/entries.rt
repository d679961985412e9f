// The entries of a directory. `dir` is what is seen of it.
ghost use Rattle.std.specs.Prelude.{◌≡◌, cond, length, ◌*◌, ◌<◌, ◌≤◌};
ghost use Rattle.rules.specs.Scan.{count, first};
ghost use Rattle.rules.specs.Layout.{NAME, DIRENTS, ENTRIES, DIRENT_WIDTH};
ghost use Rattle.rules.specs.Store.{entry};
ghost use Rattle.rules.specs.Directories.{dirent_at, is_empty, free_dirent, differs_at, precedes, is_before, is_ranked, dirent_ranked, is_padding, dirent_name};
ghost use Rattle.tables.specs.NameWords.{low_word, high_word};
ghost use Rattle.directories.specs.ByWords.{has_words, stored_by, dirent_by};

use rules::ids::Dirent;
use tables::directories::{dirent_at, high_at, is_empty, is_padding, low_at};
use tables::ids::is_dirent;
use tables::layout::{DIRENT_WIDTH, DIRENTS, ENTRIES, NAME};
use tables::name_words::{eight_of, six_of};
use tables::parts::upto;
use tables::words::get_or;

// The words of the name of entry i, of a directory that is whole.
fn low_in(dir: &[u8], i: Dirent) -> u64
    requires i_bound { i.0 < DIRENTS }
    requires in_bounds { DIRENTS * DIRENT_WIDTH ≤ length dir.now }
    ensures { result ≡ low_word (dirent_at dir.now i.0) }
{
    let at = DIRENT_WIDTH * (i.0 as usize);
    eight_of(
        dir[at],
        dir[at + 1],
        dir[at + 2],
        dir[at + 3],
        dir[at + 4],
        dir[at + 5],
        dir[at + 6],
        dir[at + 7],
    )
}

fn high_in(dir: &[u8], i: Dirent) -> u64
    requires i_bound { i.0 < DIRENTS }
    requires in_bounds { DIRENTS * DIRENT_WIDTH ≤ length dir.now }
    ensures { result ≡ high_word (dirent_at dir.now i.0) }
{
    let at = DIRENT_WIDTH * (i.0 as usize);
    six_of(
        dir[at + 8],
        dir[at + 9],
        dir[at + 10],
        dir[at + 11],
        dir[at + 12],
        dir[at + 13],
    )
}

#[tactic(auto, unfolding(crate::specs::ByWords::has_words, rules::specs::Choice::every))]
fn has_words_in(dir: &[u8], low: u64, high: u64, i: Dirent) -> bool
    requires i_bound { i.0 < DIRENTS }
    requires in_bounds { DIRENTS * DIRENT_WIDTH ≤ length dir.now }
    ensures { result ≡ has_words dir.now low high i.0 }
{
    low_in(dir, i) == low && high_in(dir, i) == high
}

// The entries of a directory that is whole: no byte is tested against its end.
fn dirent_in_whole(dir: &[u8], low: u64, high: u64) -> Dirent
    requires { DIRENTS * DIRENT_WIDTH ≤ length dir.now }
    ensures { result ≡ stored_by dir.now low high }
{
    for i in 0..DIRENTS {
        if has_words_in(dir, low, high, Dirent(i)) {
            return Dirent(i);
        }
    }
    Dirent(DIRENTS)
}

// Entry i has the name of these words.
#[tactic(auto, unfolding(crate::specs::ByWords::has_words, rules::specs::Choice::every))]
pub(crate) fn has_words(dir: &[u8], low: u64, high: u64, i: Dirent) -> bool
    ensures { result ≡ has_words dir.now low high i.0 }
{
    low_at(dir, i) == low && high_at(dir, i) == high
}

fn dirent_in_part(dir: &[u8], low: u64, high: u64) -> Dirent
    ensures { result ≡ stored_by dir.now low high }
{
    Dirent(
        (0..DIRENTS)
            .find(|i| has_words(dir, low, high, Dirent(*i)))
            .unwrap_or(DIRENTS),
    )
}

// Of a directory's own entries the one that has the name of these words, 16 where none has.
pub fn stored_by(dir: &[u8], low: u64, high: u64) -> Dirent
    ensures { result ≡ stored_by dir.now low high }
{
    if (DIRENTS as usize) * DIRENT_WIDTH <= dir.len() {
        return dirent_in_whole(dir, low, high);
    }
    dirent_in_part(dir, low, high)
}

// The seventeenth entry if it has the name, 17 else.
pub(crate) fn seventeenth(has: bool) -> Dirent
    ensures { result ≡ entry (cond has DIRENTS ENTRIES) }
{
    if has {
        return Dirent(DIRENTS);
    }
    Dirent(ENTRIES)
}

// The entry that has the name of these words, 17 where none has, in bytes that need be no whole directory.
#[tactic(auto, using(crate::proofs::Seventeenth::by_there, crate::proofs::Seventeenth::by_last))]
pub fn dirent_by(dir: &[u8], low: u64, high: u64) -> Dirent
    ensures { result ≡ dirent_by dir.now low high }
{
    let i = dirent_in_part(dir, low, high);
    if is_dirent(i) {
        return i;
    }
    seventeenth(has_words(dir, low, high, Dirent(DIRENTS)))
}

// The lowest free entry, 16 where there is none.
pub fn free_dirent(dir: &[u8]) -> Dirent
    ensures { result ≡ free_dirent dir.now }
{
    Dirent(
        (0..DIRENTS)
            .find(|i| is_empty(dir, Dirent(*i)))
            .unwrap_or(DIRENTS),
    )
}

#[tactic(auto, unfolding(rules::specs::Directories::differs_at))]
fn differs_at(a: &[u8], b: &[u8], k: usize) -> bool
    ensures { result ≡ differs_at a.now b.now k }
{
    get_or(a, k, 0) != get_or(b, k, 0)
}

// Name a comes before name b.
fn precedes(a: &[u8], b: &[u8]) -> bool
    ensures { result ≡ precedes a.now b.now }
{
    match (0..NAME).find(|k| differs_at(a, b, *k)) {
        Some(k) => get_or(a, k, 0) < get_or(b, k, 0),
        None => false,
    }
}

// Entry j has a name that comes before that of entry i.
#[tactic(auto, unfolding(rules::specs::Directories::is_before, rules::specs::Choice::every))]
fn is_before(dir: &[u8], i: Dirent, j: Dirent) -> bool
    ensures { result ≡ is_before dir.now i.0 j.0 }
{
    !is_empty(dir, j) && precedes(dirent_at(dir, j), dirent_at(dir, i))
}

// How many names come before that of entry i.
fn rank_of(dir: &[u8], i: Dirent) -> usize
    ensures { result ≡ count (is_before dir.now i.0) 0 ENTRIES }
{
    (0..ENTRIES)
        .filter(|j| is_before(dir, i, Dirent(*j)))
        .count()
}

#[tactic(auto, unfolding(rules::specs::Directories::is_ranked, rules::specs::Choice::every))]
fn is_ranked(dir: &[u8], k: u32, i: Dirent) -> bool
    ensures { result ≡ is_ranked dir.now k i.0 }
{
    !is_empty(dir, i) && rank_of(dir, i) == k as usize
}

// The entry of the k-th name in byte order, 17 where there are not so many.
pub fn dirent_ranked(dir: &[u8], k: u32) -> Dirent
    ensures { result ≡ dirent_ranked dir.now k }
{
    Dirent(
        (0..ENTRIES)
            .find(|i| is_ranked(dir, k, Dirent(*i)))
            .unwrap_or(ENTRIES),
    )
}

fn name_length(name: &[u8]) -> usize
    ensures { result ≡ first (is_padding name.now) 0 NAME }
{
    (0..NAME).find(|k| is_padding(name, *k)).unwrap_or(NAME)
}

// The name of entry i, without its padding.
#[tactic(auto, unfolding(rules::specs::Directories::dirent_name))]
pub fn dirent_name(dir: &[u8], i: Dirent) -> &[u8]
    ensures { result.now ≡ dirent_name dir.now i }
{
    let name = dirent_at(dir, i);
    upto(name, name_length(name))
}
