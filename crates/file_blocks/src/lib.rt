// A file's blocks, by its inode: `INodeImpl` of rcore-fs-sfs below its public calls. The definitions are here, and where a range of bytes falls; the
// walks over them are the crates reading, filling, growing and shrinking. Every function of theirs is total: a block number that is no block of the
// card is passed over, at the price of one compare. On a card that is whole none is.
#![tactic(auto)]

pub mod pieces;
pub mod slots;
