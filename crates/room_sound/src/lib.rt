//! Lemmas on sound rows, for who changes a room and for who only looks at it: what each test of
//! them says, and that what is stored there is what the machine computes from the root.
#![tactic(auto)]
