// Runs a script of calls on the test console, and writes each line with its answer. docs/console.md has the lines.
#![tactic(auto)]

mod borrows;
mod calls;
mod numbers;
mod printing;
mod settings;
mod texts;
mod words;

ghost use Rattle.std.specs.Prelude.{◌≡◌};
ghost use Rattle.console.specs.Lines.{is_silent, kind_of, kind_taken, kind_known, line_taken, line_known};

use borrows::asked_line;
use settings::{Console, empty, fresh, set_line, show_line};
use tables::words::get_or;
use words::{index_of, line_at, next_line, word};

// What a line begins with that is no call and no borrowing read.
#[derive(Clone, Copy)]
enum Kind {
    Fresh,
    Set,
    Show,
}

const KINDS: [Kind; 3] = [Kind::Fresh, Kind::Set, Kind::Show];

// Empty lines and comments.
#[tactic(auto, unfolding(crate::specs::Lines::is_silent, rules::specs::Choice::some))]
fn is_silent(line: &[u8]) -> bool
    ensures { result ≡ is_silent line.now }
{
    get_or(line, 0, 0) == 0 || get_or(line, 0, 0) == b'#'
}

fn kind_of(line: &[u8]) -> Option<Kind>
    ensures { result ≡ kind_of line.now }
{
    let k = index_of(b"fresh set show", word(line, 0))?;
    KINDS.get(k).copied()
}

// A line that says something; none of the kinds is a call or a borrowing read.
#[tactic(auto, unfolding(crate::specs::Lines::kind_taken, crate::specs::Lines::kind_known))]
fn take_kind(s: &mut Console, kind: Option<Kind>, script: &[u8], line: &[u8]) -> bool
    ensures known { result ≡ kind_known kind line.now }
    ensures tables { s.new ≡ kind_taken kind script.now line.now s.old }
{
    match kind {
        Some(Kind::Fresh) => {
            *s = fresh(script);
            true
        }
        Some(Kind::Set) => set_line(s, line),
        Some(Kind::Show) => show_line(s, line),
        None => asked_line(s, line),
    }
}

// Whether the line is understood.
#[tactic(auto, unfolding(crate::specs::Lines::line_taken, crate::specs::Lines::line_known))]
fn take(s: &mut Console, script: &[u8], line: &[u8]) -> bool
    ensures known { result ≡ line_known line.now }
    ensures tables { s.new ≡ line_taken script.now line.now s.old }
{
    is_silent(line) || take_kind(s, kind_of(line), script, line)
}

fn end_line(known: bool, n: usize) {
    if !known {
        io::write_all(1, b": not understood, line ");
        io::print_decimal(1, n as u64);
    }
    io::write_all(1, b"\n");
}

// A script has at most as many lines as bytes.
fn run(script: &[u8]) {
    let mut s = empty();
    let mut at = 0;
    for n in 1..=script.len() {
        if script.len() <= at {
            return;
        }
        let line = line_at(script, at);
        io::write_all(1, line);
        let known = take(&mut s, script, line);
        end_line(known, n);
        at = next_line(script, at);
    }
}

fn main() {
    let mut script = io::large_buffer();
    let n = io::read_full(0, &mut script);
    run(&script[..n]);
}
