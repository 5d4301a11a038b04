// The act of a length change, of an inode of any kind: d is the record of inode n as the card has it, nb the card's block count. They are no struct with
// methods: the crates above call single steps, and each would make one for a single call.
ghost use Rattle.std.specs.Prelude.{◌≡◌, ◌*◌, ◌≤◌, ◌<◌, length};
ghost use Rattle.card_layout.specs.Sizes.{blocks_for, block_size};
ghost use Rattle.file_blocks.specs.Inner.{Sizes};
ghost use Rattle.file_requests.specs.Resizing.{of_length, lengthened, cleaned, file_blocks, shorter, fitted, new_zero, resized};

use card_layout::inode::DiskINode;
use card_layout::{BlockId, INodeId, inode};
use file_blocks::pieces;
use file_fill;
use file_grow;
use file_grow::Took;
use file_shrink;

pub fn blocks_for(len: usize) -> usize
    requires { len ≤ 4294967295 }
    ensures { result ≡ blocks_for len }
{
    pieces::after_of(len)
}

// The record with a length, and the blocks that it then has.
fn of_length(d: DiskINode, len: u32) -> DiskINode
    ensures { result ≡ of_length d len }
{
    let b = blocks_for(len as usize);
    let e = d.set_size(len);
    e.set_blocks(b as u32)
}

// The bytes off to end of file n zero.
fn clean_at(image: &mut [u8], nb: usize, n: INodeId, off: usize, end: usize)
    requires { (block_size * nb ≤ length image.old) × (n.0 < nb) × (off ≤ end) × (end ≤ 4294967295) }
    ensures { image.new ≡ cleaned nb n.0 off end image.old }
{
    file_fill::fill_at(image, nb, n, off, end, None);
}

// What is new of a longer file: its bytes from the old size, which d has, up to z, and no others.
pub fn clean_new(image: &mut [u8], nb: u32, n: INodeId, d: DiskINode, z: u32)
    requires { Sizes image.old nb × (n.0 < nb) }
    ensures { image.new ≡ new_zero nb n.0 d z image.old }
{
    let old = d.head.size;
    if old >= z {
        return;
    }
    clean_at(image, nb as usize, n, old as usize, z as usize);
}

// The blocks of a longer file taken, and the record written.
fn take_for(image: &mut [u8], nb: u32, n: INodeId, d: DiskINode, len: u32)
    requires { Sizes image.old nb × (n.0 < nb) × (d.head.blocks ≤ blocks_for len) }
    ensures { image.new ≡ lengthened nb n.0 d len image.old }
{
    let b = blocks_for(len as usize);
    let t = Took {
        inode: d,
        from: BlockId(0),
    };
    let r = file_grow::grow(image, nb, d.head.blocks as usize, b, t);
    let e = r.inode;
    inode::encode(image, n, of_length(e, len));
}

// The blocks that a record can stand for.
pub fn file_blocks(d: DiskINode) -> usize
    ensures { result ≡ file_blocks d }
{
    (d.head.blocks as usize).min(1048576)
}

// It gets less: blocks are freed, and no byte is zeroed.
fn shorten(image: &mut [u8], nb: u32, n: INodeId, d: DiskINode, len: u32)
    requires { Sizes image.old nb × (n.0 < nb) × (blocks_for len ≤ d.head.blocks) }
    ensures { image.new ≡ shorter nb n.0 d len image.old }
{
    let a = file_blocks(d);
    let b = blocks_for(len as usize);
    file_shrink::shrink(image, nb, n, d, b, a);
    let e = file_shrink::less_indirect(d, b, a);
    let f = file_shrink::less_double(e, b, a);
    inode::encode(image, n, of_length(f, len));
}

// The record of inode n gets a length, and the blocks that it takes; no byte is zeroed.
pub fn fit(image: &mut [u8], nb: u32, n: INodeId, d: DiskINode, len: u32)
    requires { Sizes image.old nb × (n.0 < nb) }
    ensures { image.new ≡ fitted nb n.0 d len image.old }
{
    let a = d.head.blocks as usize;
    let b = blocks_for(len as usize);
    if a < b {
        take_for(image, nb, n, d, len);
        return;
    }
    if b < a {
        shorten(image, nb, n, d, len);
        return;
    }
    inode::encode(image, n, d.set_size(len));
}

// The length of inode n becomes len, and what is new of it reads as zeros.
pub fn resize_to(image: &mut [u8], nb: u32, n: INodeId, d: DiskINode, len: u32)
    requires { Sizes image.old nb × (n.0 < nb) }
    ensures { image.new ≡ resized nb n.0 d len image.old }
{
    fit(image, nb, n, d, len);
    clean_new(image, nb, n, d, len);
}
