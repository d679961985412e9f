// What a record makes of the tables.
ghost use Rattle.std.specs.Prelude.{◌≡◌};
ghost use Rattle.recorded.specs.Taken.{kind_taken, record_taken};

use crate::borrows::borrow_record;
use crate::calls::call_record;
use crate::kinds::Kind;
use crate::records::{Rom, Stop, Tables, empty, put_bytes, put_words, sizes_in};

#[tactic(auto, unfolding(crate::specs::Taken::kind_taken))]
fn take_kind(mut t: Tables, kind: Kind, body: &[u8]) -> Result<Tables, Stop>
    ensures { result ≡ kind_taken kind body.now t }
{
    match kind {
        Kind::Sizes => t.sizes = sizes_in(body),
        Kind::Files => put_words(&mut t.files, body),
        Kind::Contents => put_bytes(&mut t.contents, body),
        Kind::OpenFiles => put_words(&mut t.open_files, body),
        Kind::Processes => put_words(&mut t.processes, body),
        Kind::Policy => put_bytes(&mut t.policy, body),
        Kind::Call => return call_record(t, body),
        Kind::Empty => t = empty(),
        Kind::Rom => t.rom = Rom::of(body),
        Kind::Borrow => return borrow_record(t, body),
    }
    Ok(t)
}

// A record of which `size` bytes should have been read.
#[tactic(auto, unfolding(crate::specs::Taken::record_taken, crate::specs::Taken::known_taken))]
pub(crate) fn take(s: Tables, kind: u8, size: usize, body: &[u8]) -> Result<Tables, Stop>
    ensures { result ≡ record_taken kind size body.now s }
{
    if body.len() < size {
        return Err(Stop::Broken);
    }
    take_kind(s, Kind::try_from(kind)?, body)
}
