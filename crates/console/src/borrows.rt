// A line that makes a borrowing read: the process, `borrow`, the descriptor and the count.
ghost use Rattle.std.specs.Prelude.{◌≡◌};
ghost use Rattle.std.specs.Option.{is_some};
ghost use Rattle.console.specs.Borrows.{borrows, borrow_in, borrowed_tables, line_borrowed, line_asked, asked_known};

use crate::calls::{call_line, print_named, request};
use crate::numbers::number_at;
use crate::printing::print_text;
use crate::settings::Console;
use crate::words::word;
use rules::request::Request;

#[tactic(auto, unfolding(crate::specs::Borrows::borrows))]
fn borrows(line: &[u8]) -> bool
    ensures { result ≡ borrows line.now }
{
    word(line, 1) == b"borrow".as_slice()
}

// The borrowing read that the line makes; none where its numbers are too large or more follows them.
#[tactic(auto, unfolding(crate::specs::Borrows::borrow_in))]
fn borrow_in(line: &[u8]) -> Option<Request>
    ensures { result ≡ borrow_in line.now }
{
    if word(line, 4).is_empty() {
        request(
            number_at(line, 0),
            Some(0),
            number_at(line, 2),
            number_at(line, 3),
        )
    } else {
        None
    }
}

// As a call's answer, of which the bytes handed back are the value.
fn print_borrowed(refusal: u32, bytes: &[u8]) {
    io::write_all(1, b":");
    print_named(b"answer=", refusal as u64);
    print_named(b"stop=", 0);
    print_named(b"value=", bytes.len() as u64);
    io::write_all(1, b" bytes=");
    print_text(bytes);
}

// The tables after the borrowing read; its answer is written.
fn serve_borrow(s: &mut Console, c: Request)
    ensures { s.new ≡ borrowed_tables s.old c }
{
    let mut refusal = 0u32;
    let bytes = borrow::read::borrow_read(
        &s.files,
        &s.contents,
        &mut s.open_files,
        &s.processes,
        &s.policy,
        s.rom.bytes(),
        c.process,
        c.fd,
        c.number as u32,
        &mut refusal,
    );
    print_borrowed(refusal, bytes);
}

// A line that makes a borrowing read: whether it does, and the tables after it.
#[tactic(auto, unfolding(crate::specs::Borrows::borrow_made))]
fn borrow_line(s: &mut Console, line: &[u8]) -> bool
    ensures known { result ≡ is_some (borrow_in line.now) }
    ensures tables { s.new ≡ line_borrowed line.now s.old }
{
    match borrow_in(line) {
        Some(c) => {
            serve_borrow(s, c);
            true
        }
        None => false,
    }
}

// A line that makes a borrowing read or a call.
#[tactic(auto, unfolding(crate::specs::Borrows::line_asked, crate::specs::Borrows::asked_known))]
pub(crate) fn asked_line(s: &mut Console, line: &[u8]) -> bool
    ensures known { result ≡ asked_known line.now }
    ensures tables { s.new ≡ line_asked line.now s.old }
{
    if borrows(line) {
        borrow_line(s, line)
    } else {
        call_line(s, line)
    }
}
