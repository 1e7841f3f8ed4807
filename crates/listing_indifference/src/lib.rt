// What cannot matter (document 02, A11) as a relation on the bits of two stbl bodies (specs/), and that related bodies get one cue listing, or one
// refusal (proofs/Indifferent.antt; of calls and films proofs/Calls.antt). There is no code here.
#![tactic(auto)]
