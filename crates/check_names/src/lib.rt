// Reading files and directories through their slots, on a card whose pointers are known to be good; a directory by itself: rule 6.
#![tactic(auto)]

pub mod directory;
pub mod loading;
