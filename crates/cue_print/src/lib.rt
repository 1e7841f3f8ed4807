// What the programs share: lines on standard output, bytes in hexadecimal and refusals, and a read up to what is held.
#![tactic(auto)]

ghost use Rattle.std.specs.Prelude.{◌≤◌, length};

use std::io;
use std::io::Read;

// Two lower-case digits for each byte.
pub fn print_bytes(rt: &impl Print, bytes: &[u8]) -> io::Result<()> {
    for byte in bytes {
        print!(rt; "{byte:02x}")?;
    }
    Ok(())
}

pub fn print_listing(rt: &impl Print, listing: &[u8]) -> io::Result<()> {
    print_bytes(rt, listing)?;
    println!(rt; "")
}

pub fn print_refused(rt: &impl Print, n: u32) -> io::Result<()> {
    println!(rt; "refused {n}")
}

// Reads until `held` is full, the input ends or a read fails, and returns how many bytes it put at the start of `held`.
pub fn read_full(from: &mut impl Read, held: &mut [u8]) -> usize
    ensures { result ≤ length held.new }
{
    let mut done = 0;
    while done < held.len() {
        match from.read(&mut held[done..]) {
            Ok(0) => return done,
            Ok(n) => done += n,
            Err(_) => return done,
        }
    }
    done
}
