// FNV-1a in 32 bits, a word or a byte a turn: a single changed word always shows.
ghost use Rattle.std.specs.Prelude.{◌≡◌};
ghost use Rattle.recorded.specs.Digest.{mixed, hashed, digest_of};

use crate::records::Tables;

#[tactic(auto, unfolding(crate::specs::Digest::mixed))]
fn mixed(h: u32, w: u32) -> u32
    ensures { result ≡ mixed h w }
{
    (h ^ w).wrapping_mul(16777619)
}

fn with_words(h: u32, words: &[u32]) -> u32
    ensures { result ≡ hashed h words.now }
{
    words.iter().fold(h, |d, w| mixed(d, *w))
}

fn with_bytes(h: u32, bytes: &[u8]) -> u32
    ensures { result ≡ hashed h bytes.now }
{
    bytes.iter().fold(h, |d, b| mixed(d, u32::from(*b)))
}

// Of the four tables, with what is past their sizes, and the buffer.
#[tactic(auto, unfolding(crate::specs::Digest::digest_of))]
pub(crate) fn digest(s: &Tables, buffer: &[u8]) -> u32
    ensures { result ≡ digest_of s.now buffer.now }
{
    let files = with_words(2166136261, &s.files);
    let contents = with_bytes(files, &s.contents);
    let open_files = with_words(contents, &s.open_files);
    let processes = with_words(open_files, &s.processes);
    with_bytes(processes, buffer)
}
