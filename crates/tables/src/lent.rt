// What is lent to be read. What it says is in specs/Tables.antt.
ghost use Rattle.std.specs.Prelude.{ℕ, ◌<◌, slice_index};

use rules::request::Request;

// The store's four tables, the policy and the factory part.
#[derive(Clone, Copy)]
pub struct Tables<'a> {
    pub files: &'a [u32],
    pub contents: &'a [u8],
    pub open_files: &'a [u32],
    pub processes: &'a [u32],
    pub policy: &'a [u8],
    pub rom: &'a [u8],
    // What the contents hold are bytes: so names can be compared by their words.
    ghost bytes: { (i : ℕ) → slice_index contents.now i < 256 },
}

// A call, but for the reader's buffer: its numbers, its path, and its bytes, second path or link's text.
#[derive(Clone, Copy)]
pub struct Call<'a> {
    pub request: Request,
    pub path: &'a [u8],
    pub data: &'a [u8],
}
