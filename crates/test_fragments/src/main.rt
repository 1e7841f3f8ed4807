// Runs a queue of fragments: rows that cover too many samples beside a full queue, what a refusal leaves, and which fragment leaves. Prints one line for each check.
#![tactic(auto)]

use base_fields::refusal::Refusal;
use std::io;

fn tell(rt: &impl Print, name: &str, same: bool) -> io::Result<()> {
    if same {
        println!(rt; "{name}: ok")
    } else {
        println!(rt; "{name}: differs")
    }
}

fn refused_with(told: Result<(), Refusal>, wanted: Refusal) -> bool {
    match told {
        Ok(()) => false,
        Err(refusal) => refusal == wanted,
    }
}

fn main(rt: HostRuntime) -> io::Result<()> {
    let rt = &rt;
    // 4,294,967,296 samples
    let over: [u32; 4] = [4294967295, 1, 1, 0];
    let mut full = [0u64; 132];
    full[1] = 64;
    full[4] = 5;
    let told = use_fragment_queue::fragment_arrive(&mut full, &over);
    tell(
        rt,
        "28 of a fragment in a full queue",
        refused_with(told, Refusal::RowCountOver),
    )?;
    tell(rt, "a queue after 28", full[1] == 64 && full[4] == 5)?;
    // fragments of 5 and of 9 samples
    let mut two = [0u64; 132];
    two[1] = 2;
    two[2] = 14;
    two[3] = 3;
    two[4] = 5;
    two[5] = 1;
    two[6] = 9;
    two[7] = 2;
    let departed = use_fragment_queue::fragment_depart(&mut two);
    let left = use_fragment_queue::fragment_sums(&two);
    tell(
        rt,
        "the oldest fragment leaves",
        departed.is_ok() && left.fragments == 1 && left.covered == 9 && left.members == 2,
    )
}
