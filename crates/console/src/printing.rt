// What is written of numbers and bytes.
ghost use Rattle.std.specs.Prelude.{◌≡◌};
ghost use Rattle.console.specs.Texts.{is_plain};

// Bytes that stand for themselves in a text.
#[tactic(auto, unfolding(crate::specs::Texts::is_plain, rules::specs::Choice::every))]
fn is_plain(b: u8) -> bool
    ensures { result ≡ is_plain b }
{
    b != b'\\' && b'!' <= b && b <= b'~'
}

fn print_byte(b: u8) {
    if is_plain(b) {
        io::write_all(1, &[b]);
    } else {
        io::write_all(1, b"\\x");
        io::print_hex(1, b as u64, 2);
    }
}

// Bytes, as a script writes them.
pub(crate) fn print_text(text: &[u8]) {
    for b in text {
        print_byte(*b);
    }
}

fn print_word(n: u32) {
    io::write_all(1, b" ");
    io::print_decimal(1, n as u64);
}

// `width` words of a table, from `at` on.
pub(crate) fn print_record(table: &[u32], at: usize, width: usize) {
    io::write_all(1, b":");
    for n in table.iter().skip(at).take(width) {
        print_word(*n);
    }
}
