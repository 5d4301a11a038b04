// A file's blocks and a directory's entries, of an inode all of whose blocks are on the card.
ghost use Rattle.std.specs.Prelude.{◌≡◌, ◌+◌, ◌*◌, ◌/◌, ◌<◌};
ghost use Rattle.card_layout.specs.Sizes.{block_size, entry_size};
ghost use Rattle.card_layout.specs.Inode.{count};
ghost use Rattle.card_rules.specs.View.{data_at, entry, file_bytes};
ghost use Rattle.check_names.specs.InnerReading.{Readable, EntryIn, EntryNear};

use card_layout::slot::Slot;
use card_layout::{BLKSIZE, BlockId, DIRENT_SIZE, INodeId, slot};
use words::Number;

// Block i of file n, by the slot that it falls in.
#[tactic(auto, unfolding(card_rules::specs::View::data_at))]
pub fn get_disk_block_id(image: &[u8], n: INodeId, i: usize) -> BlockId
    requires { Readable image.now n.0 × (i < count image.now n.0) }
    ensures { result.0 ≡ data_at image.now n.0 i }
{
    let at = BLKSIZE * n.0 as usize;
    match slot::slot_of(i) {
        Slot::Direct(k) => BlockId(u32::get(image, at + 12 + 4 * k)),
        Slot::Indirect(k) => {
            let p = BLKSIZE * u32::get(image, at + 60) as usize;
            BlockId(u32::get(image, p + 4 * k))
        }
        Slot::Double(j, k) => {
            let d = BLKSIZE * u32::get(image, at + 64) as usize;
            let q = BLKSIZE * u32::get(image, d + 4 * j) as usize;
            BlockId(u32::get(image, q + 4 * k))
        }
        Slot::Past => BlockId(0),
    }
}

// Block i of file n, of which b is block c: going along a file, most blocks need no look-up.
pub fn get_near(image: &[u8], n: INodeId, c: usize, b: BlockId, i: usize) -> BlockId
    requires { Readable image.now n.0 × (i < count image.now n.0) × (b.0 ≡ data_at image.now n.0 c) }
    ensures { result.0 ≡ data_at image.now n.0 i }
{
    if i == c {
        return b;
    }
    get_disk_block_id(image, n, i)
}

// The number of entry k. It never crosses a block: 260 k is a multiple of 4.
#[tactic(auto, using(crate::proofs::Entries::entry_word))]
pub fn entry_number(image: &[u8], n: INodeId, k: usize) -> INodeId
    requires { EntryIn image.now n.0 k }
    ensures { result.0 ≡ entry image.now n.0 k }
{
    let o = DIRENT_SIZE * k;
    let b = get_disk_block_id(image, n, o / BLKSIZE);
    INodeId(u32::get(image, BLKSIZE * b.0 as usize + o % BLKSIZE))
}

// Where a reader of entries stands: a file block, its number, and the number in the entry that was read last.
#[derive(Clone, Copy, Debug, PartialEq, Eq)]
pub struct Near {
    pub index: usize,
    pub block: BlockId,
    pub number: INodeId,
}

// The place before any entry: past the last slot, where block 0 stands for none. That is no case of its own, as an Option would be at each entry.
pub fn nowhere(n: INodeId) -> Near
    ensures { (result.index ≡ 1049612) × (result.block.0 ≡ 0) }
{
    Near {
        index: 1049612,
        block: BlockId(0),
        number: n,
    }
}

// Entry k, read from place p: its block is looked up only where it is another one.
#[tactic(auto, using(crate::proofs::Entries::entry_word))]
pub fn entry_after(image: &[u8], n: INodeId, p: Near, k: usize) -> Near
    requires { EntryNear image.now n.0 k p.index p.block.0 }
    ensures { (result.block.0 ≡ data_at image.now n.0 result.index) × (result.number.0 ≡ entry image.now n.0 k) × (result.index ≡ entry_size * k / block_size) }
{
    let o = DIRENT_SIZE * k;
    let i = o / BLKSIZE;
    let b = get_near(image, n, p.index, p.block, i);
    let number = INodeId(u32::get(image, BLKSIZE * b.0 as usize + o % BLKSIZE));
    Near {
        index: i,
        block: b,
        number,
    }
}

// The 260 bytes of entry k, a run for each block that it stands in.
pub fn load_entry(image: &[u8], n: INodeId, k: usize) -> [u8; DIRENT_SIZE]
    requires { EntryIn image.now n.0 k }
    ensures { result ≡ file_bytes image.now n.0 (entry_size * k) entry_size }
{
    let o = DIRENT_SIZE * k;
    let i = o / BLKSIZE;
    let r = o % BLKSIZE;
    let x = DIRENT_SIZE.min(BLKSIZE - r);
    let mut e = [0u8; DIRENT_SIZE];
    let b = get_disk_block_id(image, n, i);
    words::copy(image, BLKSIZE * b.0 as usize + r, &mut e, 0, x);
    if x < DIRENT_SIZE {
        let c = get_disk_block_id(image, n, i + 1);
        words::copy(image, BLKSIZE * c.0 as usize, &mut e, x, DIRENT_SIZE - x);
    }
    e
}
