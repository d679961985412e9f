// A file's bytes and permission bits.
ghost use Rattle.std.specs.Prelude.{◌≡◌, List, [], ◌∷◌, ℕ, ◌+◌, ◌*◌};
ghost use Rattle.std.proofs.lemmas.List.Edits.{sets};
ghost use Rattle.rules.specs.Layout.{FILE_BITS, BLOCK};
ghost use Rattle.rules.specs.Store.{store, zeros, file_word, apply_all};
ghost use Rattle.rules.specs.Effects.{store_changes};

use rules::decision::Placement;
use rules::ids::Slot;
use rules::rights::Bits;
use tables::layout::{
    BLOCK, FILE_BITS, FILE_LENGTH, FILE_VERSION, FILE_WIDTH, OPEN_FILE_WIDTH, OPEN_OFFSET,
};
use tables::words::{copy, fill, put};

// The gap past the file's end is filled with 0, then the bytes are written.
fn put_bytes(contents: &mut [u8], data: &[u8], w: Placement)
    ensures { contents.new ≡ sets (sets contents.old (BLOCK * w.slot.0 + w.end) (zeros w.gap)) (BLOCK * w.slot.0 + w.at) «data».now }
{
    let s = w.slot;
    let block = BLOCK * (s.0 as usize);
    fill(contents, block + (w.end as usize), w.gap as usize, 0);
    copy(contents, block + (w.at as usize), data);
}

pub fn write_bytes(
    files: &mut [u32],
    contents: &mut [u8],
    open_files: &mut [u32],
    data: &[u8],
    w: Placement,
)
    ensures { (P : List ℕ) → store files.new contents.new open_files.new P ≡ apply_all (store_changes «data».now w) (store files.old contents.old open_files.old P) }
{
    let s = w.slot;
    let e = w.ofd;
    put_bytes(contents, data, w);
    put(files, FILE_WIDTH * (s.0 as usize) + FILE_LENGTH, w.length);
    put(files, FILE_WIDTH * (s.0 as usize) + FILE_VERSION, w.version);
    put(
        open_files,
        OPEN_FILE_WIDTH * (e.0 as usize) + OPEN_OFFSET,
        w.offset,
    );
}

pub fn change_bits(files: &mut [u32], s: Slot, bits: Bits)
    ensures { (C E P : List ℕ) → store files.new C E P ≡ apply_all (file_word s.0 FILE_BITS bits.0 ∷ []) (store files.old C E P) }
{
    put(files, FILE_WIDTH * (s.0 as usize) + FILE_BITS, bits.0);
}
