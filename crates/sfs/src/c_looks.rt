// Metadata, find and the entry at an index as C calls them (include/sfs.h): the answer's number, and each result behind a pointer.
ghost use Rattle.std.specs.Prelude.{◌≡◌, length};
ghost use Rattle.card_layout.specs.Entry.{name_in};
ghost use Rattle.sfs.specs.DirCallsC.{FoundC, ListedC, DescribedC};

use call_looks;
use call_said;
use card_layout::{DIRENT_SIZE, INodeId, entry, inode};

#[unsafe(no_mangle)]
pub extern "C" fn sfs_metadata(
    image: &[u8],
    scratch: &mut [u32],
    inode: u32,
    kind: &mut u32,
    size: &mut u32,
    blocks: &mut u32,
    links: &mut u32,
) -> u32
    ensures { DescribedC image.now scratch.old scratch.new
        inode result kind.new size.new blocks.new links.new }
{
    let r = call_looks::metadata(image, scratch, INodeId(inode));
    *kind = r.map_or(0, |m| inode::kind_no(m.kind) as u32);
    *size = r.map_or(0, |m| m.size);
    *blocks = r.map_or(0, |m| m.blocks);
    *links = r.map_or(0, |m| m.links as u32);
    call_said::number_of(r)
}

#[unsafe(no_mangle)]
pub extern "C" fn sfs_find(
    image: &[u8],
    scratch: &mut [u32],
    dir: u32,
    name: &[u8],
    number: &mut u32,
) -> u32
    ensures { FoundC image.now scratch.old scratch.new dir name.now result number.new }
{
    let r = call_looks::find(image, scratch, INodeId(dir), name);
    *number = call_said::inode_of(r);
    call_said::number_of(r)
}

#[unsafe(no_mangle)]
pub extern "C" fn sfs_entry(
    image: &[u8],
    scratch: &mut [u32],
    dir: u32,
    index: u64,
    bytes: &mut [u8; DIRENT_SIZE],
) -> u32
    ensures { ListedC image.now scratch.old scratch.new dir index result bytes.new }
{
    let r = call_looks::entry(image, scratch, INodeId(dir), index);
    *bytes = r.unwrap_or([0; DIRENT_SIZE]);
    call_said::number_of(r)
}

// The length of the name in an entry: 0 where there is no NUL, or another length.
#[unsafe(no_mangle)]
pub extern "C" fn sfs_entry_name(e: &[u8]) -> usize
    ensures { result ≡ length (name_in e.now) }
{
    let x = entry::name_of(e);
    x.len()
}
