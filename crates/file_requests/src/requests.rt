// The calls on a file's bytes: RULES' tests, in its order, and then the act. Card and block count: see resizing.
ghost use Rattle.std.specs.Prelude.{◌≡◌, ◌+◌, ◌*◌, ◌≤◌, ◌<◌, false, Ok, Err, length};
ghost use Rattle.card_layout.specs.Sizes.{block_size};
ghost use Rattle.card_layout.specs.Inode.{decoded};
ghost use Rattle.refusals.specs.declared.Refusal.TheVariants.{NotFile};
ghost use Rattle.file_blocks.specs.Inner.{Sizes};
ghost use Rattle.file_requests.specs.Requests.{by_file, judged, record_with, end_of, write_judged, reaching, stored};
ghost use Rattle.file_requests.specs.Inner.{Resizes, Writes, Reads};

use crate::resizing;
use card_layout::inode::{DiskINode, FileType, Head};
use card_layout::{INodeId, inode, slot, superblock};
use file_fill;
use file_read;
use refusals::Refusal;

// The head of inode n, where it is no directory: 5 where it is.
fn file_head(image: &[u8], n: INodeId) -> Result<Head, Refusal>
    requires { block_size * n.0 + 80 ≤ length image.now }
    ensures { result ≡ by_file (decoded image.now n.0) (Err NotFile) (λ h. Ok h) }
{
    match inode::decode(image, n) {
        Some(h) if h.type_ != FileType::Dir => Ok(h),
        _ => Err(Refusal::NotFile),
    }
}

// A new length: 12, then 14.
fn judge(unused: u32, h: Head, len: usize) -> Result<(), Refusal>
    ensures { result ≡ judged unused h len }
{
    if len > 4294967295 {
        return Err(Refusal::InvalidParam);
    }
    let a = h.blocks as usize;
    let b = resizing::blocks_for(len);
    let old = slot::blocks_owned(a);
    let new = slot::blocks_owned(b);
    if new > old + unused as usize {
        return Err(Refusal::NoDeviceSpace);
    }
    Ok(())
}

// A write of k bytes at off, whose end may be more than a machine word holds.
fn judge_write(unused: u32, h: Head, off: u64, k: usize) -> Result<(), Refusal>
    ensures { result ≡ write_judged unused h (off + k) }
{
    let end = (off as usize).checked_add(k).ok_or(Refusal::InvalidParam)?;
    if end <= h.size as usize {
        return Ok(());
    }
    judge(unused, h, end)
}

// The record of inode n with the head h.
pub fn record_with(image: &[u8], n: INodeId, h: Head) -> DiskINode
    requires { block_size * n.0 + 80 ≤ length image.now }
    ensures { result ≡ record_with image.now n.0 h }
{
    let direct = inode::slots(image, n);
    DiskINode { head: h, direct }
}

pub fn resize(image: &mut [u8], nb: u32, n: INodeId, len: u64) -> Result<(), Refusal>
    requires { Sizes image.old nb × (n.0 < nb) }
    ensures { Resizes nb image.old image.new n.0 len result }
{
    let h = file_head(image, n)?;
    let unused = superblock::unused_blocks(image);
    judge(unused, h, len as usize)?;
    let d = record_with(image, n, h);
    resizing::resize_to(image, nb, n, d, len as u32);
    Ok(())
}

// The file with at least end bytes, and zeros up to off where it was shorter than that.
fn reach(image: &mut [u8], nb: u32, n: INodeId, h: Head, off: usize, end: usize)
    requires { Sizes image.old nb × (n.0 < nb) × (off ≤ end) × (end ≤ 4294967295) }
    ensures { image.new ≡ reaching nb n.0 (record_with image.old n.0 h) off end image.old }
{
    if end <= h.size as usize {
        return;
    }
    let d = record_with(image, n, h);
    resizing::fit(image, nb, n, d, end as u32);
    resizing::clean_new(image, nb, n, d, off as u32);
}

// The bytes of src at off, in a file that reaches them.
fn put_bytes(image: &mut [u8], nb: u32, n: INodeId, h: Head, off: usize, src: &[u8])
    requires { Sizes image.old nb × (n.0 < nb) × (end_of off src.now ≤ 4294967295) }
    ensures { image.new ≡ stored nb n.0 (record_with image.old n.0 h) off src.now image.old }
{
    let end = off + src.len();
    reach(image, nb, n, h, off, end);
    file_fill::fill_at(image, nb as usize, n, off, end, Some(src));
}

pub fn write(image: &mut [u8], nb: u32, n: INodeId, off: u64, src: &[u8]) -> Result<u32, Refusal>
    requires { Sizes image.old nb × (n.0 < nb) }
    ensures { Writes nb image.old image.new n.0 off src.now result }
{
    let h = file_head(image, n)?;
    let unused = superblock::unused_blocks(image);
    judge_write(unused, h, off, src.len())?;
    put_bytes(image, nb, n, h, off as usize, src);
    Ok(src.len() as u32)
}

pub fn read(image: &[u8], nb: u32, n: INodeId, off: u64, buf: &mut [u8]) -> Result<u32, Refusal>
    requires { Sizes image.now nb × (n.0 < nb) }
    ensures { Reads nb image.now n.0 off buf.old buf.new result }
{
    let size = file_head(image, n)?.size as usize;
    let lo = size.min(off as usize);
    let k = (size - lo).min(buf.len());
    file_read::read_at(image, nb as usize, n, lo, lo + k, buf);
    Ok(k as u32)
}
