// The layout of a card: a port of `structs.rs` of rcore-fs-sfs (see NOTICE), with explicit fields in place of `as_buf`.
#![tactic(auto)]

pub mod entry;
pub mod inode;
pub mod slot;
pub mod superblock;

// A block's number, and an inode's, which is that of its block: two types, so that no call takes one for the other.
#[derive(Clone, Copy, Debug, PartialEq, Eq)]
pub struct BlockId(pub u32);

#[derive(Clone, Copy, Debug, PartialEq, Eq)]
pub struct INodeId(pub u32);

// The magic number of SFS.
pub const SFS_MAGIC: u32 = 0x2f8dbe2b;
// The size of a block in bytes.
pub const BLKSIZE: usize = 4096;
// The size of a directory entry.
pub const DIRENT_SIZE: usize = 260;
// The number of bits in a block of the map.
pub const MAP_BITS: u32 = 32768;
// The device number of an inode that is no device.
pub const NODEVICE: u64 = 100;
// The most links that a record can count.
pub const MAX_NLINKS: u16 = 65535;
// The least and the largest block count of a card.
pub const MIN_BLOCKS: u32 = 16;

pub const MAX_BLOCKS: u32 = 32768;
