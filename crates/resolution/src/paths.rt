// Paths: names between runs of slashes. Parts of the caller's slice are handed on, never copied, and each function reads the path once.
ghost use Rattle.std.specs.Prelude.{◌≡◌, ℕ, Bool, [], ◌∷◌, ◌+◌, eqb, drop};
ghost use Rattle.rules.specs.Paths.{span, is_slash, not_slash, names, is_dots, path_ok, last_name};
ghost use Rattle.rules.specs.Choice.{some};
ghost use Rattle.rules.specs.Calls.{path_below_root};
ghost use Rattle.rules.specs.Layout.{NAMES};
ghost use Rattle.resolution.specs.Parse.{Tests, inner, word_ok, words_read, start_ok, last_ok, parsed_by};

use tables::layout::{NAME, NAMES, PATH};
use tables::words::get_or;

#[tactic(auto, unfolding(rules::specs::Paths::is_slash))]
pub fn is_slash(b: u8) -> bool
    ensures { result ≡ is_slash b }
{
    b == b'/'
}

#[tactic(auto, unfolding(rules::specs::Paths::not_slash))]
pub fn not_slash(b: u8) -> bool
    ensures { result ≡ not_slash b }
{
    b != b'/'
}

// A byte that may stand in a name.
#[tactic(auto, unfolding(crate::specs::Parse::inner, rules::specs::Paths::not_slash, rules::specs::Paths::not_zero, rules::specs::Choice::every))]
pub fn is_inner(b: u8) -> bool
    ensures { result ≡ inner b }
{
    not_slash(b) && b != 0
}

// Where the run of bytes that pass the test, which starts at `at`, ends.
fn span_end<F: Fn(u8) -> bool>(path: &[u8], at: usize, test: F) -> usize
    requires { F.IsAlwaysCallable test }
    ensures { (t : ℕ → Bool) → Tests (F.post test) t → result ≡ at + span t (drop at path.now) }
{
    for i in at..path.len() {
        if !test(path[i]) {
            return i;
        }
    }
    at.max(path.len())
}

pub fn slashes_end(path: &[u8], at: usize) -> usize
    ensures { result ≡ at + span is_slash (drop at path.now) }
{
    span_end(path, at, is_slash)
}

pub fn name_end(path: &[u8], at: usize) -> usize
    ensures { result ≡ at + span not_slash (drop at path.now) }
{
    span_end(path, at, not_slash)
}

pub fn inner_end(path: &[u8], at: usize) -> usize
    ensures { result ≡ at + span inner (drop at path.now) }
{
    span_end(path, at, is_inner)
}

// Most names are told from dots by their first byte.
#[tactic(auto, using(crate::proofs::FirstBytes::no_dots))]
fn is_dots(name: &[u8]) -> bool
    ensures { result ≡ is_dots name.now }
{
    get_or(name, 0, 0) == b'.' && tables::names::is_dots(name)
}

#[tactic(auto, unfolding(crate::specs::Parse::word_ok, rules::specs::Choice::every))]
fn word_ok(word: &[u8]) -> bool
    ensures { result ≡ word_ok word.now }
{
    1 <= word.len() && word.len() <= NAME && !is_dots(word)
}

// The names counted, or none where one is no name or a byte is 0: after a 0 the next word is empty.
fn read_words(path: &[u8]) -> Option<u8>
    ensures { result ≡ words_read (NAMES + 1) path.now 0 }
{
    let mut at = 0;
    for k in 0..NAMES + 1 {
        let start = slashes_end(path, at);
        if path.len() <= start {
            return Some(k);
        }
        let end = inner_end(path, start);
        if !word_ok(&path[start..end]) {
            return None;
        }
        at = end;
    }
    None
}

// 1 to 64 bytes, of which the first is a slash.
#[tactic(auto, unfolding(crate::specs::Parse::start_ok, rules::specs::Choice::every))]
fn start_ok(path: &[u8]) -> bool
    ensures { result ≡ start_ok path.now }
{
    1 <= path.len() && path.len() <= PATH && is_slash(get_or(path, 0, 0))
}

// No names, or no slash after the last.
#[tactic(auto, unfolding(rules::specs::Choice::some))]
fn end_ok(path: &[u8], k: u8) -> bool
    ensures { result ≡ some (eqb k 0 ∷ last_ok path.now ∷ []) }
{
    k == 0 || not_slash(get_or(path, path.len().saturating_sub(1), 0))
}

// How many names a well-formed path has.
#[tactic(auto, unfolding(crate::specs::Parse::parsed_by, crate::specs::Parse::on_read, crate::specs::Parse::ended))]
fn parse(path: &[u8]) -> Option<u8>
    ensures { result ≡ parsed_by path.now }
{
    if !start_ok(path) {
        return None;
    }
    let k = read_words(path)?;
    if end_ok(path, k) { Some(k) } else { None }
}

// The path is well formed.
#[tactic(auto, using(crate::proofs::Parsing::path_ok_is))]
pub fn path_ok(path: &[u8]) -> bool
    ensures { result ≡ path_ok path.now }
{
    parse(path).is_some()
}

// The path is well formed and not the root.
#[tactic(auto, using(crate::proofs::Parsing::below_root_is), unfolding(crate::specs::Parse::has_names))]
pub fn path_below_root(path: &[u8]) -> bool
    ensures { result ≡ path_below_root path.now }
{
    parse(path).is_some_and(|k| k != 0)
}

// The last name of the path, empty where there is none.
pub fn last_name(path: &[u8]) -> &[u8]
    ensures { result.now ≡ last_name (names path.now) }
{
    let mut name = &path[0..0];
    let mut at = 0;
    for k in 0..NAMES + 1 {
        let start = slashes_end(path, at);
        if path.len() <= start {
            return name;
        }
        at = name_end(path, start);
        name = &path[start..at];
    }
    name
}
