// What an open file is open for, who may still use it so, and its file's length.
ghost use Rattle.std.specs.Prelude.{◌≡◌};
ghost use Rattle.rules.specs.Layout.{OPEN_FILE_WIDTH, OPEN_SLOT, OPEN_MODE, FILE_LENGTH};
ghost use Rattle.rules.specs.Store.{tab, mode_at};
ghost use Rattle.rules.specs.Rom.{files_in};
ghost use Rattle.rules.specs.Rights.{reads, writes, appends};
ghost use Rattle.rules.specs.Decide.{label_allows_open};
ghost use Rattle.tables.specs.Tables.{file_in, open_in};

use rights::rights::label_allows;
use rules::ids::Ofd;
use rules::request::Subject;
use rules::rights::{OpenMode, Rights};
use tables::lent::Tables;
use tables::open_files::{mode, slot_of};

#[tactic(auto, unfolding(rules::specs::Rights::reads, rules::specs::Choice::some))]
pub fn open_reads(open_files: &[u32], e: Ofd) -> bool
    ensures { result ≡ reads (mode_at (tab OPEN_FILE_WIDTH open_files.now e.0 OPEN_MODE)) }
{
    let m = mode(open_files, e).0;
    m == OpenMode::READ.0 || m == OpenMode::BOTH.0
}

#[tactic(auto, unfolding(rules::specs::Rights::writes))]
pub fn open_writes(open_files: &[u32], e: Ofd) -> bool
    ensures { result ≡ writes (mode_at (tab OPEN_FILE_WIDTH open_files.now e.0 OPEN_MODE)) }
{
    mode(open_files, e).0 != OpenMode::READ.0
}

#[tactic(auto, unfolding(rules::specs::Rights::appends))]
pub fn open_appends(open_files: &[u32], e: Ofd) -> bool
    ensures { result ≡ appends (mode_at (tab OPEN_FILE_WIDTH open_files.now e.0 OPEN_MODE)) }
{
    mode(open_files, e).0 == OpenMode::APPEND.0
}

// The label of who grants the rights over the file of open file e: asked at each use, since an open file is no right.
pub fn label_allows_open(t: &Tables, who: Subject, e: Ofd, want: Rights) -> bool
    ensures { result ≡ label_allows_open (file_in t.now) (open_in t.now) t.now.policy.now who e want }
{
    label_allows(t, who, slot_of(t.open_files, e), want)
}

pub fn open_length(files: &[u32], open_files: &[u32], e: Ofd) -> u32
    ensures { result ≡ files_in files.now (tab OPEN_FILE_WIDTH open_files.now e.0 OPEN_SLOT) FILE_LENGTH }
{
    rom::seen::length(files, slot_of(open_files, e))
}
