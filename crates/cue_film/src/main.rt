// Prints the cue listing of a track of a film (document 02, A1): the film's file name, the track from 0 and four type bytes as arguments, one line of
// lower-case hexadecimal on standard output, or why there is none. With the further argument `words` the listing is told in words, a stretch a line.
#![tactic(auto)]

mod arguments;
mod top;

ghost use Rattle.std.specs.Prelude.{◌≡◌, ◌≤◌, length};

use arguments::read_track;
use cue_print::{print_listing, print_refused, read_full};
use cue_words::words::print_words;
use std::env::{Env, FillError};
use std::fs::File;
use std::io;
use std::io::{Read, Seek, SeekFrom};
use std::rt::Files;
use top::{Moov, NoMoov, find_moov};

// What is asked of a film.
#[derive(Clone, Copy)]
struct Asked {
    track: u32,
    grouping_type: u32,
    in_words: bool,
}

// The listing that is asked for, by what is lent for its rows and its bytes.
fn print_cue(
    rt: &impl Print,
    film: &[u8],
    asked: Asked,
    rows: &mut [u32],
    listing: &mut [u8],
) -> io::Result<()> {
    match listing_file::file_cue_listing(film, asked.track, asked.grouping_type, rows, listing) {
        Ok(lengths) => {
            let told = &listing[..lengths.listing];
            if asked.in_words {
                print_words(rt, told)
            } else {
                print_listing(rt, told)
            }
        }
        Err(refusal) => print_refused(rt, refusal.into()),
    }
}

fn print_no_film(rt: &impl Print) -> io::Result<()> {
    println!(rt; "no film")
}

fn print_too_long(rt: &impl Print) -> io::Result<()> {
    println!(rt; "too long")
}

// The listing of the film in `film`, by what is lent here for its rows and its bytes.
fn print_track(rt: &impl Print, film: &[u8], asked: Asked) -> io::Result<()> {
    let mut rows = [0u32; 4096];
    let mut listing = [0u8; 16384];
    print_cue(rt, film, asked, &mut rows, &mut listing)
}

// A read that failed fails again; at the end of a file it gives 0.
fn read_failed(file: &mut File) -> bool {
    let mut behind = [0u8; 1];
    file.read(&mut behind).is_err()
}

// The listing of a film whose moov is known: of its bytes `held` takes all, or one more than there is room for where the moov ends with the film.
fn print_moov(
    rt: &impl Print,
    file: &mut File,
    held: &mut [u8],
    moov: Moov,
    asked: Asked,
) -> io::Result<()> {
    if 9223372036854775807 < moov.place {
        return print_no_film(rt);
    }
    let Ok(reached) = file.seek(SeekFrom::Start(moov.place)) else {
        return print_no_film(rt);
    };
    if reached != moov.place {
        return print_no_film(rt);
    }
    let n = read_full(file, held);
    if n < held.len() {
        if read_failed(file) {
            return print_no_film(rt);
        }
    } else if moov.size.is_none() {
        // One byte more than is held tells that there is more.
        return print_too_long(rt);
    }
    print_track(rt, &held[..n], asked)
}

// The listing of a film that is longer than its room: the top is read by place, and the moov alone is held.
fn print_long(rt: &impl Print, file: &mut File, film: &mut [u8], asked: Asked) -> io::Result<()> {
    let moov = match find_moov(file) {
        Ok(moov) => moov,
        Err(NoMoov::Refused(refusal)) => return print_refused(rt, refusal.into()),
        Err(NoMoov::Failed(_)) => return print_no_film(rt),
    };
    let Some(size) = moov.size else {
        return print_moov(rt, file, film, moov, asked);
    };
    if film.len() as u64 <= size {
        return print_too_long(rt);
    }
    let end = size as usize;
    print_moov(rt, file, &mut film[..end], moov, asked)
}

// The listing of the film in an open file.
fn print_read(rt: &impl Print, file: &mut File, film: &mut [u8], asked: Asked) -> io::Result<()> {
    let n = read_full(file, film);
    // A film that fills its room is longer than what is held.
    if film.len() <= n {
        return print_long(rt, file, film, asked);
    }
    if read_failed(file) {
        return print_no_film(rt);
    }
    print_track(rt, &film[..n], asked)
}

// What is held of a film, and one byte more, which tells that there is more.
fn film_room() -> [u8; 4194305]
    ensures { 4194305 ≡ length result }
{
    [0; 4194305]
}

// The listing of the film in a file. A name that is not UTF-8 text is none that can be opened.
fn print_file(rt: &(impl Files<File = File> + Print), name: &[u8], asked: Asked) -> io::Result<()> {
    let Ok(path) = str::from_utf8(name) else {
        return print_no_film(rt);
    };
    let Ok(mut file) = File::open(rt, path) else {
        return print_no_film(rt);
    };
    let mut film = film_room();
    print_read(rt, &mut file, &mut film, asked)
}

fn print_usage(rt: &impl Print) -> io::Result<()> {
    println!(rt; "usage: cue_film FILM TRACK TYPE [words]")
}

// The program was started with an argument of this number; argument 0 is its own name.
fn has_argument(rt: &impl Env, number: usize) -> bool {
    match rt.arg(number, &mut []) {
        Ok(_) => true,
        Err(FillError::TooLong) => true,
        Err(FillError::NotPresent) => false,
    }
}

// How many bytes of an argument are in front of its room: 0 where there is none or it is longer.
fn argument(rt: &impl Env, number: usize, room: &mut [u8]) -> usize
    ensures { result ≤ length room.new }
{
    rt.arg(number, room).unwrap_or(0)
}

fn main(rt: HostRuntime) -> io::Result<()> {
    if !has_argument(&rt, 3) || has_argument(&rt, 5) {
        return print_usage(&rt);
    }
    // An argument that is longer than its room has length 0.
    let mut name = [0u8; 4096];
    let name_end = argument(&rt, 1, &mut name);
    let mut digits = [0u8; 10];
    let digits_end = argument(&rt, 2, &mut digits);
    let mut fourcc = [0u8; 4];
    let fourcc_end = argument(&rt, 3, &mut fourcc);
    let mut word = [0u8; 5];
    let word_end = argument(&rt, 4, &mut word);
    let in_words = &word[..word_end] == b"words".as_slice();
    if has_argument(&rt, 4) && !in_words {
        return print_usage(&rt);
    }
    if fourcc_end != 4 {
        return print_usage(&rt);
    }
    let Some(track) = read_track(&digits[..digits_end]) else {
        return print_usage(&rt);
    };
    let grouping_type = base_fields::read_u32(&fourcc, 0);
    let asked = Asked {
        track,
        grouping_type,
        in_words,
    };
    print_file(&rt, &name[..name_end], asked)
}
