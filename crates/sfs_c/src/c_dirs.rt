// The calls that change directories (include/sfs.h).
ghost use Rattle.sfs.specs.DirCallsC.{CreatedC, LinkedC, UnlinkedC, MovedC, FormattedC};

#[unsafe(no_mangle)]
pub extern "C" fn sfs_format(image: &mut [u8], space: u64) -> u32
    ensures { FormattedC image.old image.new space result }
{
    sfs::c_dirs::sfs_format(image, space)
}

#[unsafe(no_mangle)]
pub extern "C" fn sfs_create(
    image: &mut [u8],
    scratch: &mut [u32],
    dir: u32,
    name: &[u8],
    kind: u32,
    number: &mut u32,
) -> u32
    ensures { CreatedC image.old image.new scratch.old scratch.new
        dir name.now kind result number.new }
{
    sfs::c_dirs::sfs_create(image, scratch, dir, name, kind, number)
}

#[unsafe(no_mangle)]
pub extern "C" fn sfs_link(
    image: &mut [u8],
    scratch: &mut [u32],
    dir: u32,
    name: &[u8],
    inode: u32,
) -> u32
    ensures { LinkedC image.old image.new scratch.old scratch.new dir name.now inode result }
{
    sfs::c_dirs::sfs_link(image, scratch, dir, name, inode)
}

#[unsafe(no_mangle)]
pub extern "C" fn sfs_unlink(image: &mut [u8], scratch: &mut [u32], dir: u32, name: &[u8]) -> u32
    ensures { UnlinkedC image.old image.new scratch.old scratch.new dir name.now result }
{
    sfs::c_dirs::sfs_unlink(image, scratch, dir, name)
}

#[unsafe(no_mangle)]
pub extern "C" fn sfs_move(
    image: &mut [u8],
    scratch: &mut [u32],
    dir: u32,
    old: &[u8],
    target: u32,
    new: &[u8],
) -> u32
    ensures { MovedC image.old image.new scratch.old scratch.new
        dir old.now target new.now result }
{
    sfs::c_dirs::sfs_move(image, scratch, dir, old, target, new)
}
