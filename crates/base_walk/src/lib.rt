// Proofs by hand walk a function's code statement by statement. This crate has no code: its proofs/ are what such walks share.
#![tactic(auto)]
