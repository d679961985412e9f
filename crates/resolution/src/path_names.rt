// The names of a path, each read in one pass: its two words, and where it ends.
ghost use Rattle.std.specs.Prelude.{◌≡◌, ◌≤◌};
ghost use Rattle.resolution.specs.PathNames.{word_from, name_from};

use crate::paths::{is_slash, name_end};
use tables::words::get_or;

// At most eight bytes of a name as a word, the first byte the lowest.
#[derive(Clone, Copy)]
pub struct Word {
    pub word: u64,
    pub end: usize,
}

#[derive(Clone, Copy)]
pub struct PathName {
    pub low: u64,
    pub high: u64,
    pub end: usize,
}

// Bytes of a name in its first word, and in its second.
const LOW: u32 = 8;

const HIGH: u32 = 6;

// From `at` on, as far as the name goes and `most` bytes at most.
fn read_word(path: &[u8], at: usize, most: u32) -> Word
    requires { most ≤ 8 }
    ensures { result ≡ word_from most path.now at }
{
    let mut word: u64 = 0;
    for k in 0..most {
        let i = at + k as usize;
        if path.len() <= i {
            return Word { word: word, end: i };
        }
        let b = get_or(path, i, 0);
        if is_slash(b) {
            return Word { word: word, end: i };
        }
        word += (b as u64) << (8 * k);
    }
    Word {
        word: word,
        end: at + most as usize,
    }
}

// The name that starts at `start`, up to the next slash. Of a name of more than 14 bytes the words have the first 14.
pub fn read_name(path: &[u8], start: usize) -> PathName
    ensures { result ≡ name_from path.now start }
{
    let low = read_word(path, start, LOW);
    if low.end - start < (LOW as usize) {
        return PathName {
            low: low.word,
            high: 0,
            end: low.end,
        };
    }
    let high = read_word(path, low.end, HIGH);
    PathName {
        low: low.word,
        high: high.word,
        end: name_end(path, high.end),
    }
}
