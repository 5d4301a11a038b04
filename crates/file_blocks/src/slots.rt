// The walk over the slots of a file's blocks, by their three ranges; each pointer block is looked up once. What is done with slots that stand one after
// the other is the walker's: `file_read`, `file_fill`, `file_grow` and `file_shrink` have one each.
ghost use Rattle.std.specs.Prelude.{◌≡◌, ℕ, List, ◌+◌, ◌-◌, ◌*◌, ◌≤◌, ◌<◌, length};
ghost use Rattle.card_layout.specs.Sizes.{block_size};
ghost use Rattle.file_blocks.specs.Ranges.{in_record, in_indirect, in_second};
ghost use Rattle.file_blocks.specs.Inner.{in_double, in_file};

use crate::pieces;
use card_layout::{BLKSIZE, BlockId, INodeId};
use words::Number;

pub trait Walk {
    // The card that it holds, and how many blocks that has.
    ghost card: { Self → List ℕ };

    ghost nb: { Self → ℕ };

    // That it may go over file blocks i up to e.
    ghost Ready: { ℕ → ℕ → Self → Type 0 };

    // What it becomes by going over file blocks i up to e, whose numbers stand from byte `at` on.
    ghost turn: { ℕ → ℕ → ℕ → Self → Self };

    fn image(&self) -> &[u8]
        ensures { result.now ≡ card self.now };

    fn blocks(&self) -> usize
        ensures { result ≡ nb self.now };

    fn run(&mut self, at: usize, i: usize, e: usize)
        requires { Ready i e self.old × (at + 4 * (e - i) ≤ length (card self.old)) }
        ensures { self.new ≡ turn at i e self.old };

    ghost whole: { (i e : ℕ) (x : Self) → Ready i e x → block_size * nb x ≤ length (card x) };

    ghost part: { (i e j k : ℕ) (x : Self) → Ready i e x → (j < k → (i ≤ j) × (k ≤ e)) → Ready j k x };

    ghost stays: { (at i e j k : ℕ) (x : Self) → Ready i e x → Ready i e (turn at j k x) };

    ghost same_nb: { (at i e : ℕ) (x : Self) → nb (turn at i e x) ≡ nb x };
}

// The direct slots, in the record of inode n.
pub fn direct<W: Walk>(w: &mut W, n: INodeId, i: usize, e: usize)
    requires { W.Ready i e w.old × (n.0 < W.nb w.old) }
    ensures walked { w.new ≡ in_record W.turn n.0 i e w.old }
    ensures goes_on { W.Ready i e w.new × (W.nb w.new ≡ W.nb w.old) }
{
    let j = i.min(12);
    let k = e.min(12);
    w.run(BLKSIZE * n.0 as usize + 12 + 4 * j, j, k);
}

// The slots in the indirect block p.
pub fn indirect<W: Walk>(w: &mut W, p: BlockId, i: usize, e: usize)
    requires { W.Ready i e w.old }
    ensures walked { w.new ≡ in_indirect W.turn (W.nb w.old) p.0 i e w.old }
    ensures goes_on { W.Ready i e w.new × (W.nb w.new ≡ W.nb w.old) }
{
    let p = p.0 as usize;
    if p >= w.blocks() {
        return;
    }
    let j = i.clamp(12, 1036);
    let k = e.clamp(12, 1036);
    w.run(BLKSIZE * p + 4 * (j - 12), j, k);
}

// The slots in second-level block q, which is block s.
fn second<W: Walk>(w: &mut W, s: BlockId, q: usize, i: usize, e: usize)
    requires { W.Ready i e w.old × (q < 1024) × (i ≤ 1036 + 1024 * q + 1024) }
    ensures walked { w.new ≡ in_second W.turn (W.nb w.old) s.0 q i e w.old }
    ensures goes_on { W.Ready i e w.new × (W.nb w.new ≡ W.nb w.old) }
{
    let s = s.0 as usize;
    if s >= w.blocks() {
        return;
    }
    let j = pieces::part_from(i, q);
    let k = pieces::part_to(e, q);
    w.run(BLKSIZE * s + 4 * (j - (1036 + 1024 * q)), j, k);
}

// The slots below the double indirect block d.
pub fn double<W: Walk>(w: &mut W, d: BlockId, i: usize, e: usize)
    requires { W.Ready i e w.old × (e ≤ 1048576) }
    ensures walked { w.new ≡ in_double W.card W.turn (W.nb w.old) d.0 i e w.old }
    ensures goes_on { W.Ready i e w.new × (W.nb w.new ≡ W.nb w.old) }
{
    let d = d.0 as usize;
    if d >= w.blocks() {
        return;
    }
    for q in pieces::parts_from(i)..pieces::parts_to(e) {
        let s = BlockId(u32::get(w.image(), BLKSIZE * d + 4 * q));
        second(w, s, q, i, e);
    }
}

// All of inode n, whose pointers its record on the card has.
pub fn file<W: Walk>(w: &mut W, n: INodeId, i: usize, e: usize)
    requires { W.Ready i e w.old × (n.0 < W.nb w.old) × (e ≤ 1048576) }
    ensures { w.new ≡ in_file W.card W.turn (W.nb w.old) n.0 i e w.old }
{
    direct(w, n, i, e);
    let p = BlockId(u32::get(w.image(), BLKSIZE * n.0 as usize + 60));
    indirect(w, p, i, e);
    let d = BlockId(u32::get(w.image(), BLKSIZE * n.0 as usize + 64));
    double(w, d, i, e);
}
