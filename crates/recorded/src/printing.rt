// What is written of an answer, and of a digest.
use rules::answer::Answer;
use tables::parts::upto;

fn print_number(n: u64) {
    io::print_decimal(1, n);
    io::write_all(1, b" ");
}

fn print_bytes(bytes: &[u8]) {
    for b in bytes {
        io::print_hex(1, u64::from(*b), 2);
    }
}

// Kind 0 is no file's.
fn print_fields(fields: &[u32; 8]) {
    if fields[0] != 0 {
        for field in fields {
            print_number(u64::from(*field));
        }
    }
}

// Refusal, stop number, value; a file's fields; the listed name or the first bytes read, in hex.
pub(crate) fn print_answer(a: Answer, read: &[u8]) {
    print_number(u64::from(a.refusal));
    print_number(u64::from(a.stop));
    print_number(u64::from(a.value));
    print_fields(&a.fields);
    print_bytes(upto(&a.name, a.name_length as usize));
    print_bytes(upto(upto(read, a.value as usize), 8));
}

// A borrowing read's line is a read's: its value is the number of the bytes.
pub(crate) fn print_borrowed(refusal: u32, bytes: &[u8]) {
    print_number(u64::from(refusal));
    print_number(0);
    print_number(bytes.len() as u64);
    print_bytes(upto(bytes, 8));
}

pub(crate) fn print_digest(h: u32) {
    io::write_all(1, b"#");
    io::print_hex(1, u64::from(h), 8);
    io::write_all(1, b"\n");
}
