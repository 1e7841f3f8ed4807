// Indices that are remembered with the stretch in hand, so that their entries are not compared with its own again.
ghost use Rattle.std.specs.Prelude.{◌≡◌, ◌%◌, set};
ghost use Rattle.listing_stretches.specs.Memory.{GivesKept, kept_next};

use base_ids::DescriptionIndex;

// How many indices there is room for.
const MEMORY: u32 = 16;

// Whether an index is remembered.
pub fn remembers(memory: &[u32; 16], kept: u32, index: DescriptionIndex) -> bool
    ensures { GivesKept kept memory.now index.0 result }
{
    for k in 0..MEMORY {
        if kept <= k {
            return false;
        }
        let at = k as usize;
        if memory[at] == index.0 {
            return true;
        }
    }
    false
}

// Remembers one index more, in the oldest one's place where all are taken.
pub fn remember(memory: &mut [u32; 16], kept: u32, index: DescriptionIndex) -> u32
    ensures { (result ≡ kept_next kept) × (memory.new ≡ set memory.old (kept % 16) index.0) }
{
    let at = (kept % MEMORY) as usize;
    memory[at] = index.0;
    if kept < 31 {
        return kept + 1;
    }
    MEMORY
}
