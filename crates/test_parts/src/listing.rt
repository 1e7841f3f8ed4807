// What a cue listing writes, and what it leaves as it was: the order of its refusals.
use super::tell;
use base_fields::refusal::Refusal;
use std::io;

// The refusal of a cue listing of type roll.
fn cue_refusal(body: &[u8], rows: &mut [u32], out: &mut [u8]) -> Option<Refusal> {
    listing_cue::cue_listing(body, 0x726f_6c6c, rows, out).err()
}

fn accepted(rt: &impl Print, body: &[u8]) -> io::Result<()> {
    let mut rows = [7u32; 5];
    let mut out = [7u8; 13];
    tell(
        rt,
        "listed",
        cue_refusal(body, &mut rows, &mut out).is_none(),
    )?;
    tell(rt, "the byte behind the listing", out[12] == 7)?;
    tell(rt, "the number behind the rows", rows[4] == 7)
}

fn no_room(rt: &impl Print, body: &[u8]) -> io::Result<()> {
    let mut rows = [7u32; 4];
    let mut out = [7u8; 11];
    tell(
        rt,
        "no room",
        cue_refusal(body, &mut rows, &mut out) == Some(Refusal::OutputTooShort),
    )?;
    tell(rt, "its rows", rows[0] == 7)?;
    tell(rt, "its bytes", out[0] == 7)
}

// With no room for a listing another refusal comes first.
fn comes_first(rt: &impl Print, name: &str, body: &[u8], refusal: Refusal) -> io::Result<()> {
    let mut rows = [7u32; 4];
    let mut out = [7u8; 3];
    tell(
        rt,
        name,
        cue_refusal(body, &mut rows, &mut out) == Some(refusal),
    )
}

pub fn run(rt: &impl Print) -> io::Result<()> {
    // document 01's starred listing has 12 bytes
    let starred =
        b"\x00\x00\x00\x24sbgp\x00\x00\x00\x00roll\x00\x00\x00\x02\x00\x00\x00\x02\x00\x00\x00\x01\x00\x00\x00\x01\x00\x00\x00\x00\x00\x00\x00\x1asgpd\x01\x00\x00\x00roll\x00\x00\x00\x02\x00\x00\x00\x01\xff\xfe";
    accepted(rt, starred)?;
    no_room(rt, starred)?;
    comes_first(
        rt,
        "a decoder's refusal before 54",
        b"\x00\x00\x00\x24sbgp\x00\x00\x00\x00roll\x00\x00\x00\x02\x00\x00\x00\x02\x00\x00\x00\x01\x00\x00\x00\x01\x00\x00\x00\x00\x00\x00\x00\x19sgpd\x01\x00\x00\x00roll\x00\x00\x00\x01\x00\x00\x00\x01\xff",
        Refusal::ShortEntry,
    )?;
    comes_first(
        rt,
        "the table's refusal before the sgpd's",
        b"\x00\x00\x00\x1csbgp\x00\x00\x00\x00roll\x00\x00\x00\x02\x00\x00\x00\x02\x00\x00\x00\x01\x00\x00\x00\x19sgpd\x01\x00\x00\x00roll\x00\x00\x00\x02\x00\x00\x00\x01\xff",
        Refusal::RowsCut,
    )
}
