// Replays the stored answers (data/; docs/VECTORS.md says how they were made) and tells how many differ.
#![tactic(auto)]

ghost use Rattle.std.specs.Prelude.{◌≤◌};

use cue_print::read_full;
use std::fs::File;
use std::io;
use std::rt::Files;

// The file's bytes in front of `text`, and how many; 0 where it cannot be read.
fn read_file(rt: &(impl Files + Eprint), name: &str, text: &mut [u8]) -> io::Result<usize> {
    match File::open(rt, name) {
        Ok(mut file) => Ok(read_full(&mut file, text)),
        Err(e) => {
            eprintln!(rt; "{name}: {e}")?;
            Ok(0)
        }
    }
}

// Prints what was counted of a file.
fn print_counts(rt: &impl Print, name: &str, lines: u64, differ: u64) -> io::Result<()> {
    println!(rt; "{name}: {lines} vectors, {differ} differ")
}

// The library gives the answer that the record has, by the number of its entry.
fn agrees(record: &[u8]) -> bool {
    match test_vector_lines::entry(record) {
        0..=4 => test_vectors_atoms::agrees(record),
        5..=8 => test_vectors_tables::agrees(record),
        21..=22 => test_vectors_tables::agrees(record),
        23..=27 => test_vectors_listing::agrees(record),
        28..=31 => test_vectors_writing::agrees(record),
        32..=36 => test_vectors_tables::agrees(record),
        _ => test_vectors_descriptions::agrees(record),
    }
}

// 0 where the library gives the answer that the record has, else 1.
fn differs(record: &[u8]) -> u64
    ensures { result ≤ 1 }
{
    if agrees(record) { 0 } else { 1 }
}

// What was counted: lines, and lines whose answer differs or that cannot be read.
#[derive(Clone, Copy)]
struct Counts {
    lines: u64,
    differ: u64,
}

// Replays each line; `bytes` is room for a line's record.
fn count_lines(text: &[u8], bytes: &mut [u8]) -> Counts {
    let mut lines: u64 = 0;
    let mut differ: u64 = 0;
    let mut at: usize = 0;
    while at < text.len() {
        let end = test_vector_lines::line_end(text, at);
        let n = test_vector_lines::decode(text, at, end, bytes);
        differ = differ + differs(test_vector_lines::front(bytes, n));
        lines = lines + 1;
        at = end + 1;
    }
    Counts { lines, differ }
}

// Replays a file and prints its counts.
fn replay(rt: &(impl Files + Print + Eprint), name: &str) -> io::Result<()> {
    let mut text = [0u8; 65536];
    let n = read_file(rt, name, &mut text)?;
    let mut bytes = [0u8; 4096];
    let counts = count_lines(test_vector_lines::front(&text, n), &mut bytes);
    print_counts(rt, name, counts.lines, counts.differ)
}

fn main(rt: HostRuntime) -> io::Result<()> {
    let rt = &rt;
    replay(rt, "atoms")?;
    replay(rt, "films")?;
    replay(rt, "tables")?;
    replay(rt, "document")?;
    replay(rt, "descriptions")?;
    replay(rt, "records")?;
    replay(rt, "listing")?;
    replay(rt, "film_listings")?;
    replay(rt, "starts")?;
    replay(rt, "writing")?;
    replay(rt, "sync")?;
    replay(rt, "damaged")?;
    replay(rt, "damaged_listing")?;
    replay(rt, "damaged_requests")
}
