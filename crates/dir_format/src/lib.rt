// Format: a card of the blocks that `space` bytes make, with nothing in it but the root. Card and block count: see dir_entries::editing.
#![tactic(auto)]

ghost use Rattle.std.specs.Prelude.{◌≡◌, ◌+◌, ◌-◌, ◌*◌, ◌/◌, ◌≤◌, length};
ghost use Rattle.card_layout.specs.Sizes.{most, maps_for, blocks_for};
ghost use Rattle.card_layout.specs.Super.{super_put};
ghost use Rattle.words.specs.Words.{Bytes};
ghost use Rattle.words.specs.Runs.{turns};
ghost use Rattle.card_map.specs.Bits.{set_bit};
ghost use Rattle.file_blocks.specs.Inner.{Sizes};
ghost use Rattle.refusals.specs.Refusals.{giving};
ghost use Rattle.dir_format.specs.Format.{format_answer, root_block, fresh_super, fresh_map, root_record, dots_put, formatted, format_card};

use card_layout::inode::{DiskINode, FileType};
use card_layout::superblock::SuperBlock;
use card_layout::{
    BLKSIZE, BlockId, DIRENT_SIZE, INodeId, MAP_BITS, MAX_BLOCKS, MIN_BLOCKS, SFS_MAGIC, entry,
    inode, superblock,
};
use card_map;
use file_requests::resizing;
use refusals::Refusal;

// The largest card in bytes, and the fewest blocks, as wide as they are compared.
const MAX_SPACE: u64 = MAX_BLOCKS as u64 * BLKSIZE as u64;

const FEWEST: usize = MIN_BLOCKS as usize;

// 12, and the blocks that `space` bytes make. The first test keeps the sum that rounds up below what a machine word holds.
#[tactic(auto, unfolding(crate::specs::Format::format_answer))]
fn judge_format(len: usize, space: u64) -> Result<u32, Refusal>
    ensures { result ≡ giving (format_answer len space) (blocks_for space) }
{
    if space > MAX_SPACE {
        return Err(Refusal::InvalidParam);
    }
    let nb = resizing::blocks_for(space as usize);
    if nb < FEWEST {
        return Err(Refusal::InvalidParam);
    }
    if len < BLKSIZE * nb {
        return Err(Refusal::InvalidParam);
    }
    Ok(nb as u32)
}

#[tactic(auto, unfolding(card_layout::specs::Sizes::maps_for))]
fn maps_for(nb: u32) -> u32
    requires { nb ≤ most }
    ensures { (result ≡ maps_for nb) × (result ≤ 1) }
{
    nb.div_ceil(MAP_BITS)
}

// The block of the root's entries.
#[tactic(auto, unfolding(card_layout::specs::Sizes::first_after_map))]
fn root_block(nb: u32) -> BlockId
    requires { nb ≤ most }
    ensures { (result.0 ≡ root_block nb) × (result.0 ≤ 3) }
{
    BlockId(2 + maps_for(nb))
}

fn put_super(image: &mut [u8], nb: u32)
    requires { Sizes image.old nb }
    ensures { image.new ≡ super_put image.old (fresh_super nb) }
{
    let text = b"simple file system";
    let mut info = [0u8; 32];
    info[..text.len()].copy_from_slice(text);
    let m = maps_for(nb);
    let r = root_block(nb);
    let s = SuperBlock {
        magic: SFS_MAGIC,
        blocks: nb,
        unused_blocks: nb - (r.0 + 1),
        info,
        freemap_blocks: m,
    };
    superblock::encode(image, s);
}

// A bit for each block from `from` on below e, one by one.
#[tactic(auto, using(words::proofs::Runs::turns_none, words::proofs::Runs::turns_more))]
fn set_each(image: &mut [u8], e: u32, from: BlockId)
    requires { (8192 + (e + 7) / 8 ≤ length image.old) × (e ≤ most) × (from.0 ≤ e) }
    ensures { image.new ≡ turns (λ b x. set_bit x b) from.0 (e - from.0) image.old }
{
    for b in from.0..e {
        card_map::set_bit(image, BlockId(b));
    }
}

// A bit for each block of the map bytes from i on below e, which are filled whole.
fn fill_bytes(image: &mut [u8], i: usize, e: usize)
    requires { (i ≤ e) × (8192 + e ≤ length image.old) × Bytes image.old }
    ensures { image.new ≡ turns (λ b x. set_bit x b) (8 * i) (8 * e - 8 * i) image.old }
{
    image[8192 + i..8192 + e].fill(255);
}

// A bit for each block from `from` on. Between the border bytes, which have other blocks too, bytes are filled whole.
fn set_bits(image: &mut [u8], nb: u32, from: BlockId)
    requires { Sizes image.old nb × (from.0 ≤ nb) }
    ensures { image.new ≡ turns (λ b x. set_bit x b) from.0 (nb - from.0) image.old }
{
    let i = from.0.div_ceil(8);
    let e = nb / 8;
    if i >= e {
        set_each(image, nb, from);
        return;
    }
    set_each(image, 8 * i, from);
    fill_bytes(image, i as usize, e as usize);
    set_each(image, nb, BlockId(8 * e));
}

#[tactic(auto, unfolding(crate::specs::Format::fresh_map))]
fn put_map(image: &mut [u8], nb: u32)
    requires { Sizes image.old nb }
    ensures { image.new ≡ fresh_map nb image.old }
{
    let m = maps_for(nb);
    let r = root_block(nb);
    words::zero(image, 8192, BLKSIZE * m as usize);
    set_bits(image, nb, BlockId(r.0 + 1));
}

fn root_record(nb: u32) -> DiskINode
    requires { nb ≤ most }
    ensures { result ≡ root_record nb }
{
    let b = root_block(nb);
    let d = DiskINode::new(FileType::Dir);
    d.set_nlinks(2).set_size(520).set_blocks(1).set_direct(0, b)
}

fn put_dots(image: &mut [u8], nb: u32)
    requires { Sizes image.old nb }
    ensures { image.new ≡ dots_put nb image.old }
{
    let b = root_block(nb);
    let at = BLKSIZE * b.0 as usize;
    let d = entry::entry_of(INodeId(1), b".");
    let u = entry::entry_of(INodeId(1), b"..");
    words::copy(&d, 0, image, at, DIRENT_SIZE);
    words::copy(&u, 0, image, at + DIRENT_SIZE, DIRENT_SIZE);
}

#[tactic(auto, unfolding(crate::specs::Format::formatted))]
fn format_card(image: &mut [u8], nb: u32)
    requires { Sizes image.old nb }
    ensures { image.new ≡ formatted nb image.old }
{
    put_super(image, nb);
    put_map(image, nb);
    inode::encode(image, INodeId(1), root_record(nb));
    put_dots(image, nb);
}

#[tactic(auto, unfolding(crate::specs::Format::format_card, crate::specs::Format::format_answer))]
pub fn format(image: &mut [u8], space: u64) -> Result<(), Refusal>
    ensures { (result ≡ format_answer (length image.old) space) × (image.new ≡ format_card image.old space) }
{
    let nb = judge_format(image.len(), space)?;
    format_card(image, nb);
    Ok(())
}
