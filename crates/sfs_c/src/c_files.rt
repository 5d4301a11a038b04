// read, write and resize (include/sfs.h).
ghost use Rattle.sfs.specs.FileCallsC.{ReadC, WrittenC, ResizedC};

#[unsafe(no_mangle)]
pub extern "C" fn sfs_read(
    image: &[u8],
    scratch: &mut [u32],
    inode: u32,
    offset: u64,
    buf: &mut [u8],
    count: &mut u32,
) -> u32
    ensures { ReadC image.now scratch.old scratch.new buf.old buf.new
        inode offset result count.new }
{
    sfs::c_files::sfs_read(image, scratch, inode, offset, buf, count)
}

#[unsafe(no_mangle)]
pub extern "C" fn sfs_write(
    image: &mut [u8],
    scratch: &mut [u32],
    inode: u32,
    offset: u64,
    src: &[u8],
    count: &mut u32,
) -> u32
    ensures { WrittenC image.old image.new scratch.old scratch.new src.now
        inode offset result count.new }
{
    sfs::c_files::sfs_write(image, scratch, inode, offset, src, count)
}

#[unsafe(no_mangle)]
pub extern "C" fn sfs_resize(image: &mut [u8], scratch: &mut [u32], inode: u32, len: u64) -> u32
    ensures { ResizedC image.old image.new scratch.old scratch.new inode len result }
{
    sfs::c_files::sfs_resize(image, scratch, inode, len)
}
