// The functions that C calls, by the names of include/film_index.h: each calls the function of that name in its film_ library, and says what that one says.
#![tactic(auto)]

mod atoms;
mod descriptions;
mod entries;
mod fragments;
mod groups;
mod listing;
mod play;
mod profile;
mod repaint;
mod starts;
mod sync;
mod tables;
mod writing;
