// The directory entry, 260 bytes.
ghost use Rattle.std.specs.Prelude.{◌≡◌, ◌≤◌, length};
ghost use Rattle.card_layout.specs.Entry.{name_in, entry_of};

use crate::{DIRENT_SIZE, INodeId};
use words::Number;

// The name, as a part of the entry's own bytes; empty where there is none, as RULES has it, and no Option.
pub fn name_of(e: &[u8]) -> &[u8]
    ensures { result.now ≡ name_in e.now }
{
    if e.len() != DIRENT_SIZE {
        return &e[..0];
    }
    for i in 4..DIRENT_SIZE {
        if e[i] == 0 {
            return &e[4..i];
        }
    }
    &e[..0]
}

// The entry of inode n under a name, zero after it.
pub fn entry_of(n: INodeId, name: &[u8]) -> [u8; DIRENT_SIZE]
    requires { length name.now ≤ 255 }
    ensures { result ≡ entry_of n.0 name.now }
{
    let mut e = [0u8; DIRENT_SIZE];
    n.0.put(&mut e, 0);
    words::copy(name, 0, &mut e, 4, name.len());
    e
}
