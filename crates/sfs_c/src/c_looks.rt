// Metadata, find and the entry at an index (include/sfs.h).
ghost use Rattle.std.specs.Prelude.{◌≡◌, length};
ghost use Rattle.card_layout.specs.Entry.{name_in};
ghost use Rattle.sfs.specs.DirCallsC.{FoundC, ListedC, DescribedC};

use card_layout::DIRENT_SIZE;

#[unsafe(no_mangle)]
pub extern "C" fn sfs_metadata(
    image: &[u8],
    scratch: &mut [u32],
    inode: u32,
    kind: &mut u32,
    size: &mut u32,
    blocks: &mut u32,
    links: &mut u32,
) -> u32
    ensures { DescribedC image.now scratch.old scratch.new
        inode result kind.new size.new blocks.new links.new }
{
    sfs::c_looks::sfs_metadata(image, scratch, inode, kind, size, blocks, links)
}

#[unsafe(no_mangle)]
pub extern "C" fn sfs_find(
    image: &[u8],
    scratch: &mut [u32],
    dir: u32,
    name: &[u8],
    number: &mut u32,
) -> u32
    ensures { FoundC image.now scratch.old scratch.new dir name.now result number.new }
{
    sfs::c_looks::sfs_find(image, scratch, dir, name, number)
}

#[unsafe(no_mangle)]
pub extern "C" fn sfs_entry(
    image: &[u8],
    scratch: &mut [u32],
    dir: u32,
    index: u64,
    bytes: &mut [u8; DIRENT_SIZE],
) -> u32
    ensures { ListedC image.now scratch.old scratch.new dir index result bytes.new }
{
    sfs::c_looks::sfs_entry(image, scratch, dir, index, bytes)
}

// The length of the name in an entry: 0 where there is no NUL, or another length.
#[unsafe(no_mangle)]
pub extern "C" fn sfs_entry_name(e: &[u8]) -> usize
    ensures { result ≡ length (name_in e.now) }
{
    sfs::c_looks::sfs_entry_name(e)
}
