// Marking the blocks that an inode uses, each at most once: what it names is followed only after it was marked, so that a
// damaged card costs no more than a whole one.
#![tactic(auto)]

ghost use Rattle.std.specs.Prelude.{◌≡◌, ◌+◌, ◌-◌, ◌*◌, ◌≤◌, ◌<◌, ltb, length};
ghost use Rattle.words.specs.Words.{pick};
ghost use Rattle.words.specs.Inner.{When, Tells};
ghost use Rattle.card_layout.specs.Sizes.{block_size};
ghost use Rattle.card_layout.specs.Inode.{Exact};
ghost use Rattle.card_rules.specs.View.{owns};
ghost use Rattle.check_marks.specs.Inner.{
  Room,
  Mark,
  NoMark,
  Marked,
  run_use,
  record_use,
  slots_at,
  level_use,
  LevelAsks,
  indirect_use,
  double_use,
  HeadOf,
  HeadFits,
};

use card_layout::inode::Head;
use card_layout::{BLKSIZE, BlockId, INodeId, slot};
use words::Number;

// Marks block b, if it is a block and is not in use yet. By index: with get_mut its proof did not close.
pub fn mark(u: &mut [u32], b: BlockId) -> bool
    ensures { When result (Mark u.old u.new b.0) (NoMark u.old u.new b.0) }
{
    let b = b.0 as usize;
    if u.len() <= b || u[b] != 0 {
        return false;
    }
    u[b] = 1;
    true
}

// Marks the c blocks whose numbers stand from byte `at` on.
fn mark_run(image: &[u8], u: &mut [u32], at: usize, c: usize) -> bool
    requires { (at + 4 * c ≤ length image.now) × (c ≤ 1024) }
    ensures { Marked result u.old u.new (run_use image.now at c) }
{
    for j in 0..c {
        if !mark(u, BlockId(u32::get(image, at + 4 * j))) {
            return false;
        }
    }
    true
}

// 1 from lim blocks on, 0 below.
fn one_from(lim: usize, c: usize) -> usize
    ensures { result ≡ pick (ltb c lim) 0 1 }
{
    usize::from(lim <= c)
}

// Marks the blocks named in inode n's record, of c blocks.
fn mark_record(image: &[u8], u: &mut [u32], n: INodeId, c: usize) -> bool
    requires { block_size * n.0 + 80 ≤ length image.now }
    ensures { Marked result u.old u.new (record_use image.now n.0 c) }
{
    let at = BLKSIZE * n.0 as usize;
    mark(u, BlockId(n.0))
        && mark_run(image, u, at + 12, c.min(12))
        && mark_run(image, u, at + 60, one_from(12, c))
        && mark_run(image, u, at + 64, one_from(1036, c))
}

// Marks the blocks named in the first k blocks of the second level that block d lists, of a file of c blocks. It goes over words as mark_run does, but one
// function of both would take a closure that marks, and each call would have to state that closure's contract.
fn mark_level(image: &[u8], u: &mut [u32], d: BlockId, c: usize, k: usize) -> bool
    requires { LevelAsks image.now u.old d.0 k }
    ensures { Marked result u.old u.new (level_use image.now d.0 c k) }
{
    let at = BLKSIZE * d.0 as usize;
    for j in 0..k {
        let q = BLKSIZE * u32::get(image, at + 4 * j) as usize;
        if !mark_run(image, u, q, slots_at(c, j)) {
            return false;
        }
    }
    true
}

// How many slots of second-level block j are in use, of a file of c blocks.
fn slots_at(c: usize, j: usize) -> usize
    requires { j < 1024 }
    ensures { result ≡ slots_at c j }
{
    c.saturating_sub(1036 + 1024 * j).min(1024)
}

// Marks the data blocks that the indirect block p names, of a file of c blocks.
fn mark_indirect(image: &[u8], u: &mut [u32], p: BlockId, c: usize) -> bool
    requires { Room image.now u.old × (12 ≤ c → p.0 < length u.old) }
    ensures { Marked result u.old u.new (indirect_use image.now p.0 c) }
{
    c < 12 || mark_run(image, u, BLKSIZE * p.0 as usize, c.min(1036) - 12)
}

// Marks the second level that the double indirect block d names, and then the data blocks below it, of a file of c blocks.
fn mark_double(image: &[u8], u: &mut [u32], d: BlockId, c: usize) -> bool
    requires { Room image.now u.old × (c ≤ 1048576) × (1036 ≤ c → d.0 < length u.old) }
    ensures { Marked result u.old u.new (double_use image.now d.0 c) }
{
    if c < 1036 {
        return true;
    }
    let k = slot::seconds_of(c);
    mark_run(image, u, BLKSIZE * d.0 as usize, k) && mark_level(image, u, d, c, k)
}

// Marks inode n, whose head is h, and all that it points to.
pub fn take_inode(image: &[u8], u: &mut [u32], n: INodeId, h: Head) -> bool
    requires { Room image.now u.old × (n.0 < length u.old) × HeadOf image.now n.0 h × (h.blocks ≤ 1048576) }
    ensures { Marked result u.old u.new (owns image.now n.0) }
{
    let c = h.blocks as usize;
    mark_record(image, u, n, c)
        && mark_indirect(image, u, h.indirect, c)
        && mark_double(image, u, h.db_indirect, c)
}

// Whether pointer p is there exactly from lim blocks on.
fn exact(lim: u32, c: u32, p: BlockId) -> bool
    ensures { Tells result (Exact lim c p.0) }
{
    (c < lim) == (p == BlockId(0))
}

// Whether a record's head is right by itself: rule 4. A head that is has at most 1,048,576 blocks.
pub fn head_ok(h: Head) -> bool
    ensures { When result (HeadFits h × (h.blocks ≤ 1048576)) (HeadFits h → ⊥) }
{
    h.blocks as usize == (h.size as usize + 4095) / BLKSIZE
        && exact(12, h.blocks, h.indirect)
        && exact(1036, h.blocks, h.db_indirect)
}
