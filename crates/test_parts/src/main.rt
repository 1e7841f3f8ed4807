// Runs what no other program runs, and prints one line for each check: the entries of descriptions as parts of their payload, the
// samples of a table by runs, tables read into row structs, beside the same tables in flat rows, what a cue listing leaves as it was, and the starred calls.
#![tactic(auto)]

mod listing;
mod structs;

use base_fields::refusal::Refusal;
use base_ids::DescriptionIndex;
use std::io;
use table_front::TableKind;
use table_runs::{first_run, next_run, read_table};

fn tell(rt: &impl Print, name: &str, same: bool) -> io::Result<()> {
    if same {
        println!(rt; "{name}: ok")
    } else {
        println!(rt; "{name}: differs")
    }
}

// The first run of a table's samples has this count and this index.
fn first_run_is(s: &[u8], kind: TableKind, count: u32, index: u32) -> bool {
    match read_table(s, kind) {
        Ok(table) => match next_run(s, table, first_run(table)) {
            Some((n, i, _)) => n == count && i.0 == index,
            None => false,
        },
        Err(_) => false,
    }
}

fn is_two(part: &[u8], a: u8, b: u8) -> bool {
    if part.len() != 2 {
        return false;
    }
    part[0] == a && part[1] == b
}

// The refusal of the lookup over two descriptions.
fn refusal(film: &[u8], fragment: &[u8], raw: u32) -> Option<Refusal> {
    group_fragments::described_place(film, fragment, raw).err()
}

fn runs(rt: &impl Print) -> io::Result<()> {
    let sbgp =
        b"\x00\x00\x00\x00rap \x00\x00\x00\x02\x00\x00\x00\x03\x00\x00\x00\x01\x00\x00\x00\x02\x00\x00\x00\x09";
    tell(
        rt,
        "run of an sbgp",
        first_run_is(sbgp, TableKind::Sbgp, 3, 1),
    )?;
    let csgp = b"\x00\x00\x00\x00rap \x00\x00\x00\x02\x12\x23\x55\x60";
    tell(
        rt,
        "run of a csgp",
        first_run_is(csgp, TableKind::Csgp, 2, 5),
    )
}

fn parts(rt: &impl Print, film: &[u8]) -> io::Result<()> {
    tell(
        rt,
        "entry",
        is_two(group_sgpd::entry(film, DescriptionIndex(2)), 0x64, 0x65),
    )?;
    tell(
        rt,
        "described in the film",
        is_two(group_fragments::described(film, film, 2), 0x64, 0x65),
    )?;
    let fragment = b"\x00\x00\x00\x00abcd\x00\x00\x00\x03qrstuvwxy";
    tell(
        rt,
        "described in the fragment",
        is_two(
            group_fragments::described(film, fragment, 0x8000_0002),
            0x74,
            0x75,
        ),
    )
}

fn refusals(rt: &impl Print) -> io::Result<()> {
    let short = b"\x00\x00\x00\x00abcd\x00\x00\x00";
    let cut = b"\x02\x00\x00\x00abcd\x00\x00\x00\x00";
    tell(
        rt,
        "the film's refusal first",
        refusal(short, cut, 0x8000_0001) == Some(Refusal::ShortSgpd),
    )
}

// Of document 01's starred calls crates/test_starred_calls says every answer. The csgp [1,2,2] over 7 samples ends behind its wrap.
fn wraps() -> bool {
    let csgp = test_starred_calls::tables::csgp_calls();
    let rows = csgp.period_rows;
    rows[8] == 1 && rows[9] == 1
}

// All of them at once; the listing has the distance -2.
fn starred() -> bool {
    let answers = test_starred_calls::starred();
    let listing = answers.listing;
    let bytes = listing.listing;
    bytes[7] == 0xfe && bytes[8] == 0xff
}

fn main(rt: HostRuntime) -> io::Result<()> {
    let rt = &rt;
    let film = b"\x00\x00\x00\x00abcd\x00\x00\x00\x03abcdefghi";
    runs(rt)?;
    parts(rt, film)?;
    refusals(rt)?;
    tell(
        rt,
        "no entry",
        group_sgpd::entry(film, DescriptionIndex(4)).len() == 0,
    )?;
    structs::run(rt)?;
    listing::run(rt)?;
    tell(rt, "starred csgp, the row behind the wrap", wraps())?;
    tell(rt, "starred calls, the listing's distance", starred())
}
