// The answer of a call, as it crosses to C. The reader's buffer is lent beside it.
#[repr(C)]
#[derive(Clone, Copy)]
pub struct Answer {
    pub refusal: u32,
    pub stop: u32,
    pub value: u32,
    // Of a listed name, else 0.
    pub name_length: u32,
    // The listed name, then 0.
    pub name: [u8; 16],
    // Stat: kind, owner, group, bits, label, length, links, version; else all 0.
    pub fields: [u32; 8],
}
