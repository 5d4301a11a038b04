// The calls that change directories as C calls them (include/sfs.h): the answer's number, and its value behind a pointer.
ghost use Rattle.sfs.specs.DirCallsC.{CreatedC, LinkedC, UnlinkedC, MovedC, FormattedC};

use call_dirs;
use call_said;
use card_layout::INodeId;

#[unsafe(no_mangle)]
pub extern "C" fn sfs_format(image: &mut [u8], space: u64) -> u32
    ensures { FormattedC image.old image.new space result }
{
    let r = call_dirs::format(image, space);
    call_said::number_of(r)
}

#[unsafe(no_mangle)]
pub extern "C" fn sfs_create(
    image: &mut [u8],
    scratch: &mut [u32],
    dir: u32,
    name: &[u8],
    kind: u32,
    number: &mut u32,
) -> u32
    ensures { CreatedC image.old image.new scratch.old scratch.new
        dir name.now kind result number.new }
{
    let r = call_dirs::create(image, scratch, INodeId(dir), name, kind);
    *number = call_said::inode_of(r);
    call_said::number_of(r)
}

#[unsafe(no_mangle)]
pub extern "C" fn sfs_link(
    image: &mut [u8],
    scratch: &mut [u32],
    dir: u32,
    name: &[u8],
    inode: u32,
) -> u32
    ensures { LinkedC image.old image.new scratch.old scratch.new dir name.now inode result }
{
    let r = call_dirs::link(image, scratch, INodeId(dir), name, INodeId(inode));
    call_said::number_of(r)
}

#[unsafe(no_mangle)]
pub extern "C" fn sfs_unlink(image: &mut [u8], scratch: &mut [u32], dir: u32, name: &[u8]) -> u32
    ensures { UnlinkedC image.old image.new scratch.old scratch.new dir name.now result }
{
    let r = call_dirs::unlink(image, scratch, INodeId(dir), name);
    call_said::number_of(r)
}

#[unsafe(no_mangle)]
pub extern "C" fn sfs_move(
    image: &mut [u8],
    scratch: &mut [u32],
    dir: u32,
    old: &[u8],
    target: u32,
    new: &[u8],
) -> u32
    ensures { MovedC image.old image.new scratch.old scratch.new
        dir old.now target new.now result }
{
    let r = call_dirs::move_(image, scratch, INodeId(dir), old, INodeId(target), new);
    call_said::number_of(r)
}
