// The atoms at the top of a film, read by place: of a film that is longer than what is held, the moov alone is.
ghost use Rattle.std.specs.Prelude.{◌≡◌};
ghost use Rattle.atom_tree.specs.Told.{header_of};
ghost use Rattle.cue_film.specs.TopAtoms.{told_top, placed_at, top_at};

use atom_tree::{AtomHeader, read_atom_header};
use base_fields::refusal::Refusal;
use std::fs::File;
use std::io;
use std::os::unix::fs::FileExt;

// The type of a moov, four bytes as one number.
const MOOV: u32 = 0x6d6f_6f76;

// The largest place of an atom's end, and the last one at which a file can have a byte.
const LARGEST: u64 = 18446744073709551615;

const LAST_PLACE: u64 = 9223372036854775807;

// The first moov at the top of a film: its place, and its size unless it ends with the film.
#[derive(Clone, Copy)]
pub struct Moov {
    pub place: u64,
    pub size: Option<u64>,
}

// Why there is no moov to hold.
#[derive(Drop)]
pub enum NoMoov {
    // The film has none, or the walk over the top refuses it.
    Refused(Refusal),
    // The file cannot be read.
    Failed(io::Error),
}

impl From<Refusal> for NoMoov {
    fn from(refusal: Refusal) -> NoMoov {
        NoMoov::Refused(refusal)
    }
}

impl From<io::Error> for NoMoov {
    fn from(error: io::Error) -> NoMoov {
        NoMoov::Failed(error)
    }
}

// An atom at the top: its type, and its size unless it ends with the film.
#[derive(Clone, Copy)]
struct TopAtom {
    fourcc: u32,
    size: Option<u64>,
}

// The atom of a header, at place `at` of the film.
fn placed(h: AtomHeader, at: u64) -> Result<Option<TopAtom>, Refusal>
    ensures { told_top result ≡ placed_at at (header_of h) }
{
    let size = h.total_size;
    if let Some(n) = size {
        if LARGEST - at < n {
            return Err(Refusal::FarEnd);
        }
    }
    Ok(Some(TopAtom {
        fourcc: h.fourcc,
        size,
    }))
}

// The atom whose header is in `window`, the bytes of the film from place `at` on.
fn top_atom(window: &[u8], at: u64) -> Result<Option<TopAtom>, Refusal>
    ensures { told_top result ≡ top_at window.now at }
{
    match read_atom_header(window, 0)? {
        Some(h) => placed(h, at),
        None => Ok(None),
    }
}

// The top is walked to its end, so that a fault behind the moov is told, as in a film that is held whole.
pub fn find_moov(file: &File) -> Result<Moov, NoMoov> {
    let mut window = [0u8; 16];
    let mut found = None;
    let mut at: u64 = 0;
    while at <= LAST_PLACE {
        let n = file.read_at(&mut window, at)?;
        let Some(atom) = top_atom(&window[..n], at)? else {
            break;
        };
        if found.is_none() && atom.fourcc == MOOV {
            found = Some(Moov {
                place: at,
                size: atom.size,
            });
        }
        match atom.size {
            Some(size) => at += size,
            None => break,
        }
    }
    Ok(found.ok_or(Refusal::NoTrack)?)
}
