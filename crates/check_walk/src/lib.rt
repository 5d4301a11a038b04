// The check of a whole card, and the opening of a card for a call: RULES' tests in RULES' order.
#![tactic(auto)]

ghost use Rattle.std.specs.Prelude.{◌≡◌, ◌+◌, ◌*◌, ◌≤◌, ◌<◌, length};
ghost use Rattle.words.specs.Inner.{Tells};
ghost use Rattle.words.specs.Runs.{zeroed};
ghost use Rattle.card_layout.specs.Super.{right_magic, blocks, maps};
ghost use Rattle.card_layout.specs.Inner.{super_at};
ghost use Rattle.card_rules.specs.Whole.{Sized};
ghost use Rattle.check_walk.specs.Opening.{Opening};
ghost use Rattle.check_walk.specs.Inner.{Judged};

use card_layout::superblock::SuperBlock;
use card_layout::{BLKSIZE, INodeId, MAP_BITS, MAX_BLOCKS, MIN_BLOCKS, SFS_MAGIC, superblock};
use check_names::directory;
use refusals::Refusal;

pub mod judge;
pub mod map;
pub mod queue;
pub mod visit;

// A card's block count and unused count.
#[derive(Clone, Copy, Debug, PartialEq, Eq)]
pub struct Counts {
    pub blocks: u32,
    pub unused: u32,
}

// Whether the sizes of a superblock with the right magic are right for the slice: rule 1.
#[tactic(auto, unfolding(card_layout::specs::Sizes::maps_for))]
fn sized(image: &[u8], s: SuperBlock) -> bool
    requires { (s ≡ super_at image.now) × (s.magic ≡ right_magic) }
    ensures { Tells result (Sized image.now) }
{
    MIN_BLOCKS <= s.blocks
        && s.blocks <= MAX_BLOCKS
        && s.freemap_blocks == s.blocks.div_ceil(MAP_BITS)
        && BLKSIZE * s.blocks as usize <= image.len()
}

// Judges between two clearings of the first 4 words a block.
fn cleared(
    image: &[u8],
    s: &mut [u32],
    nb: usize,
    f: usize,
    a: INodeId,
    b: INodeId,
) -> Result<(), Refusal>
    requires { (nb ≡ blocks image.now) × (f ≡ maps image.now) × Sized image.now × (4 * nb ≤ length s.old) }
    ensures { (s.new ≡ zeroed s.old 0 (4 * nb)) × Judged result image.now a.0 b.0 }
{
    let n = 4 * nb;
    directory::zero(s, n);
    let v = judge::judge(image, &mut s[..n], nb, f, a, b);
    directory::zero(s, n);
    v
}

// Opens a card for a call on inodes a and b: its counts, or one of RULES' refusals 1 to 4.
pub fn open_card(image: &[u8], s: &mut [u32], a: INodeId, b: INodeId) -> Result<Counts, Refusal>
    ensures { Opening image.now s.old s.new a.0 b.0 result }
{
    if image.len() < BLKSIZE {
        return Err(Refusal::Damaged);
    }
    let h = superblock::decode(image);
    if h.magic != SFS_MAGIC {
        return Err(Refusal::WrongFs);
    }
    if !sized(image, h) {
        return Err(Refusal::Damaged);
    }
    let nb = h.blocks as usize;
    if s.len() < 4 * nb {
        return Err(Refusal::ScratchShort);
    }
    cleared(image, s, nb, h.freemap_blocks as usize, a, b)?;
    Ok(Counts {
        blocks: h.blocks,
        unused: h.unused_blocks,
    })
}

// Checks a card: opening it for the root, which is an inode of every whole card.
pub fn check(image: &[u8], s: &mut [u32]) -> Result<Counts, Refusal>
    ensures { Opening image.now s.old s.new 1 1 result }
{
    open_card(image, s, INodeId(1), INodeId(1))
}
