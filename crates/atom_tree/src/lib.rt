// Atom headers, the children of a container, and the bodies of atoms (document 01, parts 1 and 2).
#![tactic(auto)]

mod body;
mod children;
mod header;

pub use body::{read_payload, read_payload_bounded};
pub use children::next_child;
pub use header::read_atom_header;

#[derive(Clone, Copy)]
pub struct AtomHeader {
    // The four type bytes as a big-endian number.
    pub fourcc: u32,
    // Header included; none: it runs to the end of its parent or of the file.
    pub total_size: Option<u64>,
    // 8 or 16.
    pub header_len: u64,
    // Where the body begins.
    pub payload_offset: u64,
}

// A child's header, and the place of the next child.
#[derive(Clone, Copy)]
pub struct Child {
    pub head: AtomHeader,
    pub next: u64,
}

// The place and the length of a body.
#[derive(Clone, Copy)]
pub struct BodyAt {
    pub place: u64,
    pub size: u64,
}
