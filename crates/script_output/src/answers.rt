// The three lines of an answer. A function that writes from `at` on says where its text ends, and has the room for it: `write_answer` asks for that first.
ghost use Rattle.std.specs.Prelude.{◌≡◌, ◌+◌, ◌*◌, ◌/◌, ◌%◌, ◌≤◌, length, take};
ghost use Rattle.script_rules.specs.Text.{digits, decimal, hex_digit, hex_of};
ghost use Rattle.script_rules.specs.Answers.{stat_bytes, field_bytes, data_of, answer_text, line_with, DATA};
ghost use Rattle.script_output.specs.Writes.{Room, Wrote, data_hex, lines_of, writes, written};

use rules::answer::Answer;
use tables::parts::upto;
use tables::words::{copy, put};

// A word of 32 bits has at most ten digits.
const DIGITS: u8 = 10;

#[tactic(auto, unfolding(script_rules::specs::Text::hex_digit))]
fn hex_digit(n: u8) -> u8
    requires { n ≤ 15 }
    ensures { result ≡ hex_digit n }
{
    if n < 10 { b'0' + n } else { b'a' - 10 + n }
}

// The bytes in hex. Where they end.
fn write_hex(out: &mut [u8], at: usize, bytes: &[u8]) -> usize
    requires { Room out.old at (hex_of bytes.now) }
    ensures { Wrote out.old at (hex_of bytes.now) out.new result }
{
    let mut end = at;
    for b in bytes {
        out[end] = hex_digit(*b / 16);
        out[end + 1] = hex_digit(*b % 16);
        end += 2;
    }
    end
}

// How many of at most k digits n has.
fn digits_length(k: u8, n: u32) -> usize
    ensures is { result ≡ length (digits k n) }
    ensures few { result ≤ k }
{
    if k == 0 {
        return 0;
    }
    if n < 10 {
        return 1;
    }
    digits_length(k - 1, n / 10) + 1
}

// n in decimal, of at most k digits. Where it ends.
fn write_digits(out: &mut [u8], at: usize, k: u8, n: u32) -> usize
    requires { Room out.old at (digits k n) }
    ensures { Wrote out.old at (digits k n) out.new result }
{
    if k == 0 {
        return at;
    }
    if n < 10 {
        out[at] = b'0' + n as u8;
        return at + 1;
    }
    let end = write_digits(out, at, k - 1, n / 10);
    put(out, end, b'0' + (n % 10) as u8);
    end + 1
}

// Stat's bytes, little end first.
fn stat_bytes(f: [u32; 8]) -> [u8; 16]
    ensures { result ≡ stat_bytes f }
{
    let [kind, owner, group, bits, label, length, links, version] = f;
    let kind = kind.to_le_bytes();
    let owner = owner.to_le_bytes();
    let group = group.to_le_bytes();
    let bits = bits.to_le_bytes();
    let label = label.to_le_bytes();
    let length = length.to_le_bytes();
    let links = links.to_le_bytes();
    let version = version.to_le_bytes();
    [
        kind[0], owner[0], owner[1], group[0], group[1], bits[0], bits[1], label[0], length[0],
        length[1], links[0], links[1], version[0], version[1], version[2], version[3],
    ]
}

// How many bytes stat's fields are: none for an answer without fields.
fn fields_length(f: [u32; 8]) -> usize
    ensures is { result ≡ length (field_bytes f) }
    ensures few { result ≤ 16 }
{
    if f[0] == 0 { 0 } else { 16 }
}

fn write_fields(out: &mut [u8], at: usize, f: [u32; 8]) -> usize
    requires { Room out.old at (hex_of (field_bytes f)) }
    ensures { Wrote out.old at (hex_of (field_bytes f)) out.new result }
{
    if f[0] == 0 {
        return at;
    }
    let bytes = stat_bytes(f);
    write_hex(out, at, &bytes)
}

// The first n bytes in hex.
fn write_first(out: &mut [u8], at: usize, bytes: &[u8], n: u32) -> usize
    requires { Room out.old at (hex_of (take n bytes.now)) }
    ensures { Wrote out.old at (hex_of (take n bytes.now)) out.new result }
{
    let part = upto(bytes, n as usize);
    write_hex(out, at, part)
}

fn write_data(out: &mut [u8], at: usize, a: Answer, buffer: &[u8]) -> usize
    requires { Room out.old at (data_hex a buffer.now) }
    ensures { Wrote out.old at (data_hex a buffer.now) out.new result }
{
    let name = a.name;
    let fields = a.fields;
    let after_name = write_first(out, at, &name, a.name_length);
    let after_fields = write_fields(out, after_name, fields);
    write_first(out, after_fields, buffer, a.value)
}

fn write_bytes(out: &mut [u8], at: usize, bytes: &[u8]) -> usize
    requires { Room out.old at bytes.now }
    ensures { Wrote out.old at bytes.now out.new result }
{
    copy(out, at, bytes);
    at + bytes.len()
}

fn write_number(out: &mut [u8], at: usize, key: &[u8], n: u32) -> usize
    requires { Room out.old at (line_with key.now (decimal n)) }
    ensures { Wrote out.old at (line_with key.now (decimal n)) out.new result }
{
    let after_key = write_bytes(out, at, key);
    let end = write_digits(out, after_key, DIGITS, n);
    write_bytes(out, end, b"\n")
}

fn write_data_line(out: &mut [u8], at: usize, a: Answer, buffer: &[u8]) -> usize
    requires { Room out.old at (line_with DATA (data_hex a buffer.now)) }
    ensures { Wrote out.old at (line_with DATA (data_hex a buffer.now)) out.new result }
{
    let after_key = write_bytes(out, at, b"data=");
    let end = write_data(out, after_key, a, buffer);
    write_bytes(out, end, b"\n")
}

fn write_lines(out: &mut [u8], at: usize, a: Answer, buffer: &[u8]) -> usize
    requires { Room out.old at (lines_of a buffer.now) }
    ensures { Wrote out.old at (lines_of a buffer.now) out.new result }
{
    let value = write_number(out, at, b"answer=", a.refusal);
    let data = write_number(out, value, b"value=", a.value);
    write_data_line(out, data, a, buffer)
}

// How many the first n bytes are.
fn first_length(bytes: &[u8], n: u32) -> usize
    ensures is { result ≡ length (take n bytes.now) }
    ensures few { result ≤ n }
{
    bytes.len().min(n as usize)
}

// How many bytes an answer has beside its numbers.
fn data_length(a: Answer, buffer: &[u8]) -> usize
    ensures is { result ≡ length (data_of a buffer.now) }
    ensures few { result ≤ 8589934606 }
{
    let name = a.name;
    let fields = a.fields;
    first_length(&name, a.name_length) + fields_length(fields) + first_length(buffer, a.value)
}

fn answer_length(a: Answer, buffer: &[u8]) -> usize
    ensures { result ≡ length (answer_text a buffer.now) }
{
    let numbers = digits_length(DIGITS, a.refusal) + digits_length(DIGITS, a.value);
    21 + numbers + 2 * data_length(a, buffer)
}

// The answer's text from `at` on, and its length; nothing where there is no room for it.
pub fn write_answer(out: &mut [u8], at: usize, a: Answer, buffer: &[u8]) -> Option<usize>
    ensures { writes result out.new ≡ written out.old at (answer_text a buffer.now) }
{
    let n = answer_length(a, buffer);
    if out.len().saturating_sub(at) < n {
        return None;
    }
    write_lines(out, at, a, buffer);
    Some(n)
}
