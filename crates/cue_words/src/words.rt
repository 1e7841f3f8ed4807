// A cue listing in words, decoded from its own bytes (document 01, part 8). On any bytes it is told as far as it goes, and then that it is cut.
use crate::rest::{Rest, Stop};
use group_entries::{EntryLayout, layout_of};
use std::io;

// The distance plus 32,768 is stored.
fn print_roll(rt: &impl Print, rest: &mut Rest) -> Result<(), Stop> {
    let n = rest.number()?;
    if n < 32768 {
        let back = 32768 - n;
        print!(rt; "distance -{back}")?;
    } else {
        let ahead = n - 32768;
        print!(rt; "distance {ahead}")?;
    }
    Ok(())
}

// A bit of the listing, in the words for each of its values.
fn print_bit(rt: &impl Print, rest: &mut Rest, one: &str, zero: &str) -> Result<(), Stop> {
    let word = if rest.number()? == 0 { zero } else { one };
    print!(rt; "{word}")?;
    Ok(())
}

// A number of the listing behind its name.
fn print_number(rt: &impl Print, rest: &mut Rest, name: &str) -> Result<(), Stop> {
    let n = rest.number()?;
    print!(rt; "{name}{n}")?;
    Ok(())
}

fn print_rap(rt: &impl Print, rest: &mut Rest) -> Result<(), Stop> {
    print_bit(
        rt,
        rest,
        "leading samples known",
        "leading samples not known",
    )?;
    print_number(rt, rest, ", ")
}

fn print_tele(rt: &impl Print, rest: &mut Rest) -> Result<(), Stop> {
    print_bit(
        rt,
        rest,
        "level independently decodable",
        "level not independently decodable",
    )
}

fn print_sap(rt: &impl Print, rest: &mut Rest) -> Result<(), Stop> {
    print_bit(rt, rest, "dependent", "not dependent")?;
    print_number(rt, rest, ", type ")
}

// So many pairs, each number behind its name.
fn print_pairs(
    rt: &impl Print,
    rest: &mut Rest,
    count: u64,
    first: &str,
    second: &str,
) -> Result<(), Stop> {
    for _ in 0..count {
        print_number(rt, rest, first)?;
        print_number(rt, rest, second)?;
    }
    Ok(())
}

fn print_rash(rt: &impl Print, rest: &mut Rest) -> Result<(), Stop> {
    let points = rest.number()?;
    print!(rt; "points {points}")?;
    print_pairs(rt, rest, points, ", bitrate ", " share ")?;
    print_number(rt, rest, ", maximum ")?;
    print_number(rt, rest, ", minimum ")?;
    print_number(rt, rest, ", priority ")
}

fn print_alst(rt: &impl Print, rest: &mut Rest) -> Result<(), Stop> {
    let rolls = rest.number()?;
    print!(rt; "roll count {rolls}")?;
    print_number(rt, rest, ", first output ")?;
    for _ in 0..rolls {
        print_number(rt, rest, ", offset ")?;
    }
    let pieces = rest.number()?;
    print_pairs(rt, rest, pieces, ", output ", " of ")
}

// So many bytes, unaltered.
fn print_raw(rt: &impl Print, rest: &mut Rest) -> Result<(), Stop> {
    let count = rest.number()?;
    print!(rt; "{count} bytes ")?;
    for _ in 0..count {
        let byte = rest.byte()?;
        print!(rt; "{byte:02x}")?;
    }
    Ok(())
}

// The decoded value of an entry, or its bytes.
fn print_value(rt: &impl Print, rest: &mut Rest, layout: EntryLayout) -> Result<(), Stop> {
    match layout {
        EntryLayout::Roll => print_roll(rt, rest),
        EntryLayout::Rap => print_rap(rt, rest),
        EntryLayout::Tele => print_tele(rt, rest),
        EntryLayout::Sap => print_sap(rt, rest),
        EntryLayout::Rash => print_rash(rt, rest),
        EntryLayout::Alst => print_alst(rt, rest),
        EntryLayout::Raw => print_raw(rt, rest),
    }
}

// What the samples of a stretch mean, by their kind.
fn print_meaning(rt: &impl Print, rest: &mut Rest, layout: EntryLayout) -> Result<(), Stop> {
    match rest.number()? {
        0 => print!(rt; "no group")?,
        1 => print!(rt; "an index past the entries")?,
        2 => print_value(rt, rest, layout)?,
        _ => return Err(Stop::Cut),
    }
    Ok(())
}

// A line for each stretch, until all covered samples are told. A line ends where the listing is cut.
fn print_stretches(
    rt: &impl Print,
    rest: &mut Rest,
    layout: EntryLayout,
    samples: u64,
) -> Result<(), Stop> {
    let mut first: u64 = 0;
    while first < samples {
        let n = rest.number()?;
        if n == 0 || samples - first < n {
            return Err(Stop::Cut);
        }
        let behind = first + n;
        let last = behind - 1;
        print!(rt; "samples {first} to {last}: ")?;
        let told = print_meaning(rt, rest, layout);
        if let Err(Stop::Failed(_)) = told {
            return told;
        }
        println!(rt; "")?;
        told?;
        first = behind;
    }
    Ok(())
}

// First the type and how many samples are covered.
fn print_listing(rt: &impl Print, listing: &[u8]) -> Result<(), Stop> {
    if listing.len() < 4 {
        return Err(Stop::Cut);
    }
    let layout = layout_of(base_fields::read_u32(listing, 0));
    let mut rest = Rest {
        bytes: &listing[4..],
    };
    let samples = rest.number()?;
    print!(rt; "type ")?;
    rt.write_all(&listing[..4])?;
    println!(rt; ", covered samples {samples}")?;
    print_stretches(rt, &mut rest, layout, samples)
}

pub fn print_words(rt: &impl Print, listing: &[u8]) -> io::Result<()> {
    match print_listing(rt, listing) {
        Ok(()) => Ok(()),
        Err(Stop::Cut) => println!(rt; "the listing is cut"),
        Err(Stop::Failed(error)) => Err(error),
    }
}
