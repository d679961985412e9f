// The file table, a record of 8 words for each slot, and the contents, 512 bytes a slot.
ghost use Rattle.std.specs.Prelude.{◌≡◌, ◌==◌};
ghost use Rattle.rules.specs.Layout.{FILE_WIDTH, FILE_KIND, FILE_OWNER, FILE_GROUP, FILE_BITS, FILE_LABEL, FILE_LENGTH, FILE_LINKS, FILE_VERSION, FREE, PLAIN, DIRECTORY, LINK};
ghost use Rattle.rules.specs.Store.{tab, bits_at, block, hidden, shown_of, tree};
ghost use Rattle.rules.specs.Walk.{link_text};

use crate::layout::{
    BLOCK, DIRECTORY, FILE_BITS, FILE_GROUP, FILE_KIND, FILE_LABEL, FILE_LENGTH, FILE_LINKS,
    FILE_OWNER, FILE_VERSION, FILE_WIDTH, FREE, LINK, PLAIN,
};
use crate::parts::{after, upto};
use crate::words::get_or;
use rules::ids::Slot;
use rules::rights::Bits;

pub fn kind(files: &[u32], s: Slot) -> u32
    ensures { result ≡ tab FILE_WIDTH files.now s.0 FILE_KIND }
{
    get_or(files, FILE_WIDTH * (s.0 as usize) + FILE_KIND, 0)
}

pub fn owner(files: &[u32], s: Slot) -> u32
    ensures { result ≡ tab FILE_WIDTH files.now s.0 FILE_OWNER }
{
    get_or(files, FILE_WIDTH * (s.0 as usize) + FILE_OWNER, 0)
}

pub fn group(files: &[u32], s: Slot) -> u32
    ensures { result ≡ tab FILE_WIDTH files.now s.0 FILE_GROUP }
{
    get_or(files, FILE_WIDTH * (s.0 as usize) + FILE_GROUP, 0)
}

pub fn bits(files: &[u32], s: Slot) -> Bits
    ensures { result ≡ bits_at (tab FILE_WIDTH files.now s.0 FILE_BITS) }
{
    Bits(get_or(files, FILE_WIDTH * (s.0 as usize) + FILE_BITS, 0))
}

pub fn label(files: &[u32], s: Slot) -> u32
    ensures { result ≡ tab FILE_WIDTH files.now s.0 FILE_LABEL }
{
    get_or(files, FILE_WIDTH * (s.0 as usize) + FILE_LABEL, 0)
}

pub fn length(files: &[u32], s: Slot) -> u32
    ensures { result ≡ tab FILE_WIDTH files.now s.0 FILE_LENGTH }
{
    get_or(files, FILE_WIDTH * (s.0 as usize) + FILE_LENGTH, 0)
}

pub fn links(files: &[u32], s: Slot) -> u32
    ensures { result ≡ tab FILE_WIDTH files.now s.0 FILE_LINKS }
{
    get_or(files, FILE_WIDTH * (s.0 as usize) + FILE_LINKS, 0)
}

pub fn version(files: &[u32], s: Slot) -> u32
    ensures { result ≡ tab FILE_WIDTH files.now s.0 FILE_VERSION }
{
    get_or(files, FILE_WIDTH * (s.0 as usize) + FILE_VERSION, 0)
}

pub fn is_free(files: &[u32], s: Slot) -> bool
    ensures { result ≡ (tab FILE_WIDTH files.now s.0 FILE_KIND == FREE) }
{
    kind(files, s) == FREE
}

pub fn is_plain(files: &[u32], s: Slot) -> bool
    ensures { result ≡ (tab FILE_WIDTH files.now s.0 FILE_KIND == PLAIN) }
{
    kind(files, s) == PLAIN
}

pub fn is_directory(files: &[u32], s: Slot) -> bool
    ensures { result ≡ (tab FILE_WIDTH files.now s.0 FILE_KIND == DIRECTORY) }
{
    kind(files, s) == DIRECTORY
}

pub fn is_link(files: &[u32], s: Slot) -> bool
    ensures { result ≡ (tab FILE_WIDTH files.now s.0 FILE_KIND == LINK) }
{
    kind(files, s) == LINK
}

// The bytes of a slot.
pub fn bytes(contents: &[u8], s: Slot) -> &[u8]
    ensures { result.now ≡ block contents.now s.0 }
{
    upto(after(contents, BLOCK * (s.0 as usize)), BLOCK)
}

fn own_bytes(files: &[u32], s: Slot) -> u32
    ensures { result ≡ hidden files.now s.0 }
{
    if is_plain(files, s) {
        return length(files, s);
    }
    0
}

// The bytes of a slot that are not a plain file's own: what the rules may look at.
pub fn shown<'a>(files: &[u32], contents: &'a [u8], s: Slot) -> &'a [u8]
    ensures { result.now ≡ shown_of files.now contents.now s.0 }
{
    let own = own_bytes(files, s);
    let all = bytes(contents, s);
    after(all, own as usize)
}

// A link's text.
pub fn link_text<'a>(files: &[u32], contents: &'a [u8], s: Slot) -> &'a [u8]
    ensures { result.now ≡ link_text (tree files.now contents.now) s }
{
    let n = length(files, s);
    let all = shown(files, contents, s);
    upto(all, n as usize)
}
