// Whether an open file is a slot's last, and the record of a slot that goes.
ghost use Rattle.std.specs.Prelude.{◌≡◌, not};
ghost use Rattle.rules.specs.Layout.{OPEN_FILE_WIDTH};
ghost use Rattle.rules.specs.Store.{tab, open_but};
ghost use Rattle.rules.specs.Rom.{files_in};
ghost use Rattle.rules.specs.Checks.{freed};

use rules::decision::Record;
use rules::ids::{Ofd, Slot};
use rules::rights::Bits;
use tables::layout::FREE;
use tables::numbers::up_one;
use tables::open_files::open_but;

// No open file but x is on slot s.
pub fn none_but(open_files: &[u32], x: Ofd, s: Slot) -> bool
    ensures { result ≡ not (open_but (tab OPEN_FILE_WIDTH open_files.now) x s) }
{
    !open_but(open_files, x, s)
}

// The record of slot s once it is freed.
pub fn freed_record(files: &[u32], s: Slot) -> Record
    ensures { result ≡ freed (files_in files.now) s }
{
    Record {
        kind: FREE,
        owner: 0,
        group: 0,
        bits: Bits(0),
        label: 0,
        length: 0,
        links: 0,
        version: up_one(rom::seen::version(files, s)),
    }
}
