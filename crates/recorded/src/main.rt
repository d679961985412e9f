// Runs stored calls on stored tables, and writes a line for each call: its answer, and a digest of the tables and the
// buffer afterwards. docs/recorded.md has the input and the lines.
#![tactic(auto)]

mod borrows;
mod calls;
mod digest;
mod kinds;
mod printing;
mod records;
mod taken;

ghost use Rattle.std.specs.Prelude.{◌≡◌};
ghost use Rattle.recorded.specs.Records.{short_at};

use records::{Stop, Tables, empty, short_at};
use tables::parts::upto;
use taken::take;

// No input has more records.
const MOST: u64 = 4294967296;

// Reads and takes a record, whose size is known.
fn take_rest(s: Tables, kind: u8, size: u16) -> Result<Tables, Stop> {
    let size = usize::from(size);
    let mut rest = io::large_buffer();
    let n = io::read_full(0, &mut rest[..size]);
    take(s, kind, size, upto(&rest, n))
}

// How many bytes follow, of the record that begins so.
fn size_of(start: &[u8; 3]) -> u16
    ensures { result ≡ short_at start.now 1 }
{
    short_at(start, 1)
}

// A record is its kind, how many bytes follow (2 bytes, little end first), and these.
fn turn(s: Tables) -> Result<Tables, Stop> {
    let mut start = [0u8; 3];
    match io::read_full(0, &mut start) {
        0 => Err(Stop::Ended),
        1 | 2 => Err(Stop::Broken),
        _ => take_rest(s, start[0], size_of(&start)),
    }
}

fn say_broken(n: u64) {
    io::write_all(1, b"broken: record ");
    io::print_decimal(1, n);
    io::write_all(1, b"\n");
}

fn main() {
    let mut s = empty();
    for n in 1..=MOST {
        match turn(s) {
            Ok(t) => s = t,
            Err(Stop::Broken) => {
                say_broken(n);
                return;
            }
            Err(Stop::Ended) => return,
        }
    }
}
