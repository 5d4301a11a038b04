// What the calls on directories of rcore-fs-sfs share: the tests that more than one of them makes.
#![tactic(auto)]

pub mod judging;
