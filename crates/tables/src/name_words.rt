// Names as numbers: the 14 bytes of a padded name are a word of eight bytes and a word of six, each read at once and compared at once.
ghost use Rattle.std.specs.Prelude.{◌≡◌, ◌+◌, ◌*◌};
ghost use Rattle.tables.specs.NameWords.{pair, quad, low_word, high_word};

use crate::words::get_or;

fn pair_of(a: u8, b: u8) -> u64
    ensures { result ≡ pair a b }
{
    (a as u64) + 256 * (b as u64)
}

fn quad_of(a: u8, b: u8, c: u8, d: u8) -> u64
    ensures { result ≡ quad a b c d }
{
    pair_of(a, b) + 65536 * pair_of(c, d)
}

pub fn eight_of(a: u8, b: u8, c: u8, d: u8, e: u8, f: u8, g: u8, h: u8) -> u64
    ensures { result ≡ quad a b c d + 4294967296 * quad e f g h }
{
    quad_of(a, b, c, d) + 4294967296 * quad_of(e, f, g, h)
}

pub fn six_of(a: u8, b: u8, c: u8, d: u8, e: u8, f: u8) -> u64
    ensures { result ≡ quad a b c d + 4294967296 * pair e f }
{
    quad_of(a, b, c, d) + 4294967296 * pair_of(e, f)
}

// Of a name's first eight bytes, 0 past its end.
pub fn low_word(name: &[u8]) -> u64
    ensures { result ≡ low_word name.now }
{
    eight_of(
        get_or(name, 0, 0),
        get_or(name, 1, 0),
        get_or(name, 2, 0),
        get_or(name, 3, 0),
        get_or(name, 4, 0),
        get_or(name, 5, 0),
        get_or(name, 6, 0),
        get_or(name, 7, 0),
    )
}

// Of the six after them.
pub fn high_word(name: &[u8]) -> u64
    ensures { result ≡ high_word name.now }
{
    six_of(
        get_or(name, 8, 0),
        get_or(name, 9, 0),
        get_or(name, 10, 0),
        get_or(name, 11, 0),
        get_or(name, 12, 0),
        get_or(name, 13, 0),
    )
}
