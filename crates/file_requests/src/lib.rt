// Reading, writing and resizing an inode's bytes: `read_at`, `write_at` and `resize` of rcore-fs-sfs, with RULES' tests before any change.
#![tactic(auto)]

pub mod requests;
pub mod resizing;
