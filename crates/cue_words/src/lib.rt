// A cue listing in words, for the programs.
#![tactic(auto)]

mod rest;
pub mod words;
