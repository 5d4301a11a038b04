// read, write and resize as C calls them (include/sfs.h): the answer's number, and its value behind a pointer.
ghost use Rattle.sfs.specs.FileCallsC.{ReadC, WrittenC, ResizedC};

use call_files;
use call_said;
use card_layout::INodeId;

#[unsafe(no_mangle)]
pub extern "C" fn sfs_read(
    image: &[u8],
    scratch: &mut [u32],
    inode: u32,
    offset: u64,
    buf: &mut [u8],
    count: &mut u32,
) -> u32
    ensures { ReadC image.now scratch.old scratch.new buf.old buf.new
        inode offset result count.new }
{
    let r = call_files::read(image, scratch, INodeId(inode), offset, buf);
    *count = call_said::count_of(r);
    call_said::number_of(r)
}

#[unsafe(no_mangle)]
pub extern "C" fn sfs_write(
    image: &mut [u8],
    scratch: &mut [u32],
    inode: u32,
    offset: u64,
    src: &[u8],
    count: &mut u32,
) -> u32
    ensures { WrittenC image.old image.new scratch.old scratch.new src.now
        inode offset result count.new }
{
    let r = call_files::write(image, scratch, INodeId(inode), offset, src);
    *count = call_said::count_of(r);
    call_said::number_of(r)
}

#[unsafe(no_mangle)]
pub extern "C" fn sfs_resize(image: &mut [u8], scratch: &mut [u32], inode: u32, len: u64) -> u32
    ensures { ResizedC image.old image.new scratch.old scratch.new inode len result }
{
    let r = call_files::resize(image, scratch, INodeId(inode), len);
    call_said::number_of(r)
}
