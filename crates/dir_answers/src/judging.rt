// The tests that the calls on directories share. What they look at is a whole card.
ghost use Rattle.std.specs.Prelude.{◌≡◌, ◌+◌, ◌*◌, ◌≤◌, Ok, length};
ghost use Rattle.card_layout.specs.Sizes.{block_size};
ghost use Rattle.dir_entries.specs.Entries.{there};
ghost use Rattle.dir_entries.specs.Inner.{CanAppend};
ghost use Rattle.dir_answers.specs.Inner.{Headed};
ghost use Rattle.dir_answers.specs.Answers.{in_dir, place_of, new_name, entry_needs, room_for};
ghost use Rattle.refusals.specs.Refusals.{done};

use card_layout::inode::{FileType, Head};
use card_layout::{DIRENT_SIZE, INodeId, inode, slot, superblock};
use dir_entries::finding;
use file_requests::resizing;
use refusals::Refusal;

// The head of directory n: 6 where it is none.
pub fn dir_head(image: &[u8], n: INodeId) -> Result<Head, Refusal>
    requires { block_size * n.0 + 80 ≤ length image.now }
    ensures { result ≡ in_dir image.now n.0 (λ h. Ok h) }
{
    match inode::decode(image, n) {
        Some(h) if h.type_ == FileType::Dir => Ok(h),
        _ => Err(Refusal::NotDir),
    }
}

// Where directory n, with head h, has the name x.
pub fn is_there(image: &[u8], n: INodeId, h: Head, x: &[u8]) -> Option<usize>
    requires { Headed image.now n.0 h }
    ensures { result ≡ there image.now n.0 x.now }
{
    finding::find_entry(image, n, h.size as usize / DIRENT_SIZE, x)
}

// 10: the place of the name x in directory p with head h.
pub fn place_of(image: &[u8], p: INodeId, h: Head, x: &[u8]) -> Result<usize, Refusal>
    requires { Headed image.now p.0 h }
    ensures { result ≡ place_of image.now p.0 x.now }
{
    is_there(image, p, h, x).ok_or(Refusal::EntryNotFound)
}

// 8 and 9: x is to be a new name in directory p with head h.
pub fn new_name(image: &[u8], p: INodeId, h: Head, x: &[u8]) -> Result<(), Refusal>
    requires { Headed image.now p.0 h }
    ensures { result ≡ new_name image.now p.0 x.now done }
{
    if !finding::storable_name(x) {
        return Err(Refusal::BadName);
    }
    if is_there(image, p, h, x).is_some() {
        return Err(Refusal::EntryExist);
    }
    Ok(())
}

// The blocks that one entry more takes, in a directory with head h.
pub fn entry_needs(h: Head) -> usize
    requires { CanAppend h }
    ensures { result ≡ entry_needs h }
{
    let a = h.blocks as usize;
    let b = resizing::blocks_for(h.size as usize + DIRENT_SIZE);
    let old = slot::blocks_owned(a);
    let new = slot::blocks_owned(b);
    new.saturating_sub(old)
}

// 14: k blocks are to be taken.
pub fn room_for(image: &[u8], k: usize) -> Result<(), Refusal>
    requires { 48 ≤ length image.now }
    ensures { result ≡ room_for image.now k done }
{
    let u = superblock::unused_blocks(image);
    if k > u as usize {
        return Err(Refusal::NoDeviceSpace);
    }
    Ok(())
}
