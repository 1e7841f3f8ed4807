// The starred cases of document 01 as one proved table: specs/All.antt has the rows, proofs/Starred.antt proves them all at once.
// That the code gives these answers is said by crates/test_starred_calls, which calls the entries on the same bytes.
#![tactic(auto)]
