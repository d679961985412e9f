// A path is resolved one name at a time, from the root. The walk calls the follower of links, which calls the walk along a link's text.
ghost use Rattle.std.specs.Prelude.{◌≡◌, cond, [], ◌∷◌, ◌≤◌};
ghost use Rattle.rules.specs.Choice.{every};
ghost use Rattle.rules.specs.Layout.{FOLLOWS};
ghost use Rattle.rules.specs.Rom.{files_in};
ghost use Rattle.tables.specs.Tables.{tree_seen};
ghost use Rattle.rules.specs.Paths.{names};
ghost use Rattle.rules.specs.Walk.{is_link, deeper, start, stop_at, follows, follower, walk, walk_path, follow_path, walk_new, ROOT};
ghost use Rattle.rules.specs.declared.decision.Intent.TheVariants.{Follow};
ghost use Rattle.resolution.specs.Walks.{location_by, entered_by, lookup_by, rest_from, none_left, names_left, RestOf};

use crate::path_names::read_name;
use crate::paths::slashes_end;
use directories::seen::{Found, find_in};
use rights::rights::permission_over;
use rules::decision::{Intent, Location, Walk};
use rules::ids::{Dirent, Slot};
use rules::refusal::Refusal;
use rules::request::Subject;
use rules::rights::Rights;
use tables::ids::is_entry;
use tables::layout::{FOLLOWS, NAMES};
use tables::lent::Tables;

// What is left of a path: from `start` on, where the k-th name starts if there is one.
#[derive(Clone, Copy)]
struct Rest {
    start: usize,
    k: u32,
}

// How deep a directory may lie.
const DEPTH: u32 = NAMES as u32;

// Names of a path that are read: one more than it may have.
const MOST: u32 = DEPTH + 1;

#[tactic(auto, unfolding(rules::specs::Walk::deeper))]
fn one_deeper(d: u32) -> u32
    ensures { result ≡ deeper d }
{
    if d <= DEPTH { d + 1 } else { d }
}

// The entry that was found in the directory at a location.
fn reach(at: Location, found: Found) -> Location
    ensures { result ≡ location_by at found }
{
    Location {
        dir: at.slot,
        dirent: found.dirent,
        slot: found.slot,
        depth: one_deeper(at.depth),
        follows: at.follows,
    }
}

// A name that is missing stops a walk for a file.
#[tactic(auto, unfolding(crate::specs::Walks::entered_by, rules::specs::Walk::need_at))]
fn enter(at: Location, k: u32, intent: Intent, found: Found) -> Walk
    ensures { result ≡ entered_by intent at k found }
{
    match intent {
        Intent::Create => {}
        Intent::Find | Intent::Follow => {
            if !is_entry(found.dirent) {
                return Err(Refusal::NameMissing.at(k));
            }
        }
    }
    Ok(reach(at, found))
}

// The k-th name, by its words, is looked for in the directory at a location.
fn look_up(
    t: &Tables,
    who: Subject,
    at: Location,
    low: u64,
    high: u64,
    k: u32,
    intent: Intent,
) -> Walk
    ensures { result ≡ lookup_by intent (tree_seen t.now) t.now.policy.now who at low high k }
{
    if !rom::seen::is_directory(t.files, at.slot) {
        return Err(Refusal::NotADirectory.at(k));
    }
    permission_over(t, who, at.slot, Rights::EXECUTE).map_err(|refusal| refusal.at(k))?;
    enter(at, k, intent, find_in(t, at.slot, low, high))
}

// The root, where so many links may still be followed.
fn from_root(follows: u32) -> Location
    ensures { result ≡ start follows }
{
    Location {
        dir: Slot(0),
        dirent: Dirent(0),
        slot: Slot(0),
        depth: 0,
        follows: follows,
    }
}

// From `at` on, past the slashes there.
fn rest_from(path: &[u8], at: usize, k: u32) -> Rest
    ensures { result ≡ rest_from path.now at k }
{
    Rest {
        start: slashes_end(path, at),
        k: k,
    }
}

// No name is left: the path ends, or as many were read as tell.
#[tactic(auto, unfolding(rules::specs::Choice::some))]
fn none_left(path: &[u8], rest: Rest) -> bool
    ensures { result ≡ none_left path.now rest }
{
    path.len() <= rest.start || MOST < rest.k
}

// The intent is that of the last name; those before it must be there, and a link there is followed.
fn here(last: bool, intent: Intent) -> Intent
    ensures { result ≡ cond last intent Follow }
{
    if last { intent } else { Intent::Follow }
}

#[tactic(auto, unfolding(rules::specs::Walk::follows, rules::specs::Choice::every))]
fn is_followed(files: &[u32], s: Slot, intent: Intent) -> bool
    ensures { result ≡ every (follows intent ∷ is_link (files_in files.now) s ∷ []) }
{
    match intent {
        Intent::Follow => rom::seen::is_link(files, s),
        Intent::Find | Intent::Create => false,
    }
}

// A refusal out of a link's text counts at the name that met the link.
#[tactic(auto, unfolding(rules::specs::Walk::stop_at))]
fn stop_at(k: u32, w: Walk) -> Walk
    ensures { result ≡ stop_at k w }
{
    w.map_err(|stop| stop.refusal.at(k))
}

// Where the k-th name leads: through a link that is to be followed, to where the walk along its text comes.
#[cycle(follow_walk_from)]
fn follow(t: &Tables, who: Subject, at: Location, k: u32, intent: Intent) -> Walk
    requires { at.follows ≤ FOLLOWS }
    ensures { result ≡ follower FOLLOWS (tree_seen t.now) t.now.policy.now who intent k at }
{
    if !is_followed(t.files, at.slot, intent) {
        return Ok(at);
    }
    if at.follows == 0 {
        return Err(Refusal::TooDeep.at(k));
    }
    let root = from_root(at.follows - 1);
    let text = rom::seen::link_text(t.files, t.contents, at.slot);
    let rest = rest_from(text, 0, 1);
    let w = walk_from(t, who, text, rest, root, Intent::Follow);
    stop_at(k, w)
}

// The names that are left, from a location on: the first is looked for there, and those after it where it leads.
#[cycle(follow_walk_from)]
fn walk_from(
    t: &Tables,
    who: Subject,
    path: &[u8],
    rest: Rest,
    at: Location,
    intent: Intent,
) -> Walk
    requires rest_of { RestOf path.now rest }
    requires follows_bound { at.follows ≤ FOLLOWS }
    ensures { result ≡ walk intent (tree_seen t.now) t.now.policy.now who at rest.k (names_left path.now rest) }
{
    if none_left(path, rest) {
        return Ok(at);
    }
    let k = rest.k;
    let name = read_name(path, rest.start);
    let ns = rest_from(path, name.end, k + 1);
    let last = none_left(path, ns);
    let it = here(last, intent);
    let met = look_up(t, who, at, name.low, name.high, k, it)?;
    let to = follow(t, who, met, k, it)?;
    if last {
        return Ok(to);
    }
    walk_from(t, who, path, ns, to, intent)
}

// The names of the path, from the root on.
fn walk_names(t: &Tables, who: Subject, path: &[u8], intent: Intent) -> Walk
    ensures { result ≡ walk intent (tree_seen t.now) t.now.policy.now who ROOT 1 (names path.now) }
{
    let root = from_root(FOLLOWS);
    let rest = rest_from(path, 0, 1);
    walk_from(t, who, path, rest, root, intent)
}

// To the file that the path names, be it a link.
pub fn walk_path(t: &Tables, who: Subject, path: &[u8]) -> Walk
    ensures { result ≡ walk_path (tree_seen t.now) t.now.policy.now who path.now }
{
    walk_names(t, who, path, Intent::Find)
}

// To the file that a link by that name leads to.
pub fn follow_path(t: &Tables, who: Subject, path: &[u8]) -> Walk
    ensures { result ≡ follow_path (tree_seen t.now) t.now.policy.now who path.now }
{
    walk_names(t, who, path, Intent::Follow)
}

// To the parent of the last name, with the parent's three checks, and that name's entry there; 17 where it is missing.
pub fn walk_new(t: &Tables, who: Subject, path: &[u8]) -> Walk
    ensures { result ≡ walk_new (tree_seen t.now) t.now.policy.now who path.now }
{
    walk_names(t, who, path, Intent::Create)
}
