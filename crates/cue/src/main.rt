// Prints the cue listing of an stbl's body (document 01): four type bytes and the body on standard input, one line of lower-case hexadecimal on
// standard output, or why there is none.
#![tactic(auto)]

use cue_print::{print_listing, print_refused, read_full};
use std::io;

// Four type bytes, and as much of a body as is held.
const HELD: usize = 16388;

// The listing of a body, by what is lent for its rows and its bytes.
fn print_cue(
    rt: &impl Print,
    body: &[u8],
    grouping_type: u32,
    rows: &mut [u32],
    listing: &mut [u8],
) -> io::Result<()> {
    match listing_cue::cue_listing(body, grouping_type, rows, listing) {
        Ok(lengths) => {
            let end = lengths.listing;
            print_listing(rt, &listing[..end])
        }
        Err(refusal) => print_refused(rt, refusal.into()),
    }
}

fn main(rt: HostRuntime) -> io::Result<()> {
    // One byte more than is held tells that there is more.
    let mut input = [0u8; 16389];
    let n = read_full(&mut rt.stdin(), &mut input);
    if n < 4 {
        return println!(rt; "no type");
    }
    if HELD < n {
        return println!(rt; "too long");
    }
    let grouping_type = base_fields::read_u32(&input, 0);
    let mut rows = [0u32; 4096];
    let mut listing = [0u8; 16384];
    print_cue(&rt, &input[4..n], grouping_type, &mut rows, &mut listing)
}
