// 2. Create, 3. Make directory.
ghost use Rattle.std.specs.Prelude.{◌≡◌};
ghost use Rattle.rules.specs.Rom.{files_in};
ghost use Rattle.rules.specs.DecidePaths.{new_record, making, create_room, depth_ok, create_at, create_new, decide_create};
ghost use Rattle.tables.specs.Tables.{file_in, shown_in, tree_seen};

use allocation::free::free_slot;
use directories::changes::{free_in, gaining, is_absent};
use resolution::walk::walk_new;
use rights::rights::permission_over;
use rules::decision::{Decision, DirChange, Effect, Location, NewFile, Record, granted};
use rules::ids::{Dirent, Slot};
use rules::refusal::Refusal;
use rules::request::Subject;
use rules::rights::{Bits, Rights};
use tables::ids::{is_dirent, is_slot};
use tables::layout::{DIRECTORY, LINK, NAMES};
use tables::lent::Tables;

// A new file in slot s, named in directory d.
fn new_record(files: &[u32], who: Subject, new: NewFile, d: Slot, s: Slot) -> Record
    ensures { result ≡ new_record (files_in files.now) who new d s }
{
    Record {
        kind: new.kind,
        owner: who.user,
        group: who.group,
        bits: new.bits,
        label: rom::seen::label(files, d),
        length: new.length,
        links: 1,
        version: rom::seen::version(files, s),
    }
}

// A link gets its text too.
#[tactic(auto, unfolding(rules::specs::DecidePaths::making))]
fn make(kind: u32, d: DirChange, s: Slot, r: Record) -> Effect
    ensures { result ≡ making kind d s r }
{
    if kind == LINK {
        Effect::Symlinked(d, s, r)
    } else {
        Effect::Created(d, s, r)
    }
}

#[tactic(auto, using(rules::proofs::Choices::steps), unfolding(rules::specs::DecidePaths::create_room))]
fn create_room(files: &[u32], who: Subject, new: NewFile, d: Slot, s: Slot, i: Dirent) -> Decision
    ensures { result ≡ create_room (files_in files.now) who new d s i }
{
    if !is_slot(s) {
        return Err(Refusal::TableFull.into());
    }
    if !is_dirent(i) {
        return Err(Refusal::TableFull.into());
    }
    let r = new_record(files, who, new, d, s);
    granted(s.0, make(new.kind, gaining(files, d, i), s, r))
}

// A directory lies at most 8 names deep.
#[tactic(auto, unfolding(rules::specs::Choice::implies))]
fn depth_ok(kind: u32, at: Location) -> bool
    ensures { result ≡ depth_ok kind at }
{
    kind != DIRECTORY || at.depth <= (NAMES as u32)
}

// The name's entry in its parent is looked up.
#[tactic(auto, using(rights::proofs::Permissions::asked), unfolding(rules::specs::DecidePaths::create_at))]
fn create_at(t: &Tables, who: Subject, new: NewFile, at: Location) -> Decision
    ensures { result ≡ create_at t.now.policy.now (file_in t.now) (shown_in t.now) who new at }
{
    if !is_absent(at) {
        return Err(Refusal::NameThere.into());
    }
    permission_over(t, who, at.dir, Rights::WRITE)?;
    if !depth_ok(new.kind, at) {
        return Err(Refusal::TooDeep.into());
    }
    create_room(
        t.files,
        who,
        new,
        at.dir,
        free_slot(t.files),
        free_in(t, at.dir),
    )
}

// What every call that makes a file does, once its form is right.
#[tactic(auto, using(rules::proofs::Choices::steps), unfolding(rules::specs::Checks::after))]
pub fn create_new(t: &Tables, who: Subject, new: NewFile, path: &[u8]) -> Decision
    ensures { result ≡ create_new t.now.policy.now (tree_seen t.now) who new path.now }
{
    let at = walk_new(t, who, path)?;
    create_at(t, who, new, at)
}

// A plain file or a directory, still empty.
#[tactic(auto, using(rules::proofs::Choices::steps), unfolding(rules::specs::DecidePaths::decide_create))]
pub fn decide_create(
    t: &Tables,
    who: Subject,
    kind: u32,
    bits: Option<Bits>,
    path: &[u8],
) -> Decision
    ensures { result ≡ decide_create t.now.policy.now (tree_seen t.now) who kind bits path.now }
{
    let bits = bits.ok_or(Refusal::Malformed)?;
    let new = NewFile {
        kind: kind,
        bits: bits,
        length: 0,
    };
    create_new(t, who, new, path)
}
