// Growth: the blocks of a longer file are taken in RULES' order, each the lowest free one.
#![tactic(auto)]

ghost use Rattle.std.specs.Prelude.{◌≡◌, ◌+◌, ◌-◌, ◌*◌, ◌≤◌, ◌<◌, refl, length};
ghost use Rattle.card_map.specs.Free.{taken};
ghost use Rattle.file_blocks.specs.Taking.{next_free, grown};
ghost use Rattle.file_grow.specs.Inner.{growing_at, Grew};
ghost use Rattle.file_blocks.specs.Inner.{Sizes};

use card_layout::inode::DiskINode;
use card_layout::{BLKSIZE, BlockId, slot};
use file_blocks::slots::Walk;
use file_blocks::{pieces, slots};
use words::Number;

// A record in the making, and the block from which the next search goes on.
#[derive(Clone, Copy, Debug, PartialEq, Eq)]
pub struct Took {
    pub inode: DiskINode,
    pub from: BlockId,
}

// Takes the next free block; 0 where there is none, as `next_free` says, and no Option.
pub fn take_next(image: &mut [u8], nb: u32, from: BlockId) -> BlockId
    requires { Sizes image.old nb × (from.0 ≤ nb) }
    ensures { (result.0 ≡ next_free nb image.old from.0) × (image.new ≡ taken image.old from.0 nb) }
{
    card_map::alloc_block(image, from, nb).unwrap_or(BlockId(0))
}

// Takes blocks of a card of nb blocks. What it asks (`Fit`) is a clause of each step and no ghost field: what a step makes of it is said as the grower
// with another card, and with the field that would be a grower for some cards alone.
#[derive(Drop)]
struct Grower<'a> {
    image: &'a mut [u8],
    nb: u32,
    inode: DiskINode,
    from: BlockId,
}

impl<'a> Grower<'a> {
    ghost use Rattle.file_blocks.specs.Taking.{next_of, took_next, into_word, into_direct, grow_indirect, grow_double, grow_level, grow_direct};
    ghost use Rattle.file_grow.specs.Inner.{Fit, cursor, growing, with_cursor, with_growing};

    // The next free block; 0 where there is none.
    fn take(&mut self) -> BlockId
        requires { Fit self.old }
        ensures took { self.new ≡ with_cursor self.old (took_next self.old.nb (cursor self.old)) }
        ensures number { result.0 ≡ next_of self.old.nb (cursor self.old) }
        ensures fit { Fit self.new }
    {
        let b = take_next(self.image, self.nb, self.from);
        self.from = BlockId(b.0 + 1);
        b
    }

    // Its number goes to the word at `at`.
    fn into_word(&mut self, at: usize)
        requires { Fit self.old × (at + 4 ≤ length self.old.image.now) }
        ensures took { self.new ≡ with_cursor self.old (into_word self.old.nb at (cursor self.old)) }
        ensures fit { Fit self.new }
    {
        let b = self.take();
        b.0.put(self.image, at);
    }

    // Its number goes to direct slot i.
    fn into_direct(&mut self, i: usize)
        requires { Fit self.old × (i < 12) }
        ensures took { self.new ≡ with_growing self.old (into_direct self.old.nb i (growing self.old)) }
        ensures fit { Fit self.new }
    {
        let b = self.take();
        self.inode = self.inode.set_direct(i, b);
    }

    // The indirect block, if a file of b blocks has one and one of a blocks has not.
    fn grow_indirect(&mut self, a: usize, b: usize)
        requires { Fit self.old }
        ensures grew { self.new ≡ with_growing self.old (grow_indirect self.old.nb a b (growing self.old)) }
        ensures fit { Fit self.new }
    {
        if pieces::comes_with(12, a, b) {
            let x = self.take();
            self.inode = self.inode.set_indirect(x);
        }
    }

    // The double indirect block, likewise: a setter passed in, to make one of the two, would want a clause on what it sets.
    fn grow_double(&mut self, a: usize, b: usize)
        requires { Fit self.old }
        ensures grew { self.new ≡ with_growing self.old (grow_double self.old.nb a b (growing self.old)) }
        ensures fit { Fit self.new }
    {
        if pieces::comes_with(1036, a, b) {
            let x = self.take();
            self.inode = self.inode.set_db_indirect(x);
        }
    }

    // The second level, in rising order.
    fn grow_level(&mut self, a: usize, b: usize)
        requires { Fit self.old × (a ≤ b) × (b ≤ 1048576) }
        ensures grew { self.new ≡ with_growing self.old (grow_level self.old.nb a b (growing self.old)) }
        ensures fit { Fit self.new }
    {
        let p = self.inode.head.db_indirect;
        if p.0 >= self.nb {
            return;
        }
        let q = slot::seconds_of(a);
        let e = slot::seconds_of(b);
        self.run(BLKSIZE * p.0 as usize + 4 * q, q, e);
    }

    // The data blocks of the direct slots from a up to b.
    fn grow_direct(&mut self, a: usize, b: usize)
        requires { Fit self.old }
        ensures grew { self.new ≡ with_growing self.old (grow_direct self.old.nb a b (growing self.old)) }
        ensures fit { Fit self.new }
    {
        for i in a.min(12)..b.min(12) {
            self.into_direct(i);
        }
    }
}

impl<'a> Walk for Grower<'a> {
    ghost use Rattle.file_blocks.proofs.Growth.{run_fits};
    ghost use Rattle.file_grow.specs.Inner.{Fit, cursor, over};

    ghost card = { λ g. g.image.now };

    ghost nb = { λ g. g.nb };

    ghost Ready = { λ i e g. Fit g };

    ghost turn = { over };

    fn image(&self) -> &[u8] {
        self.image
    }

    fn blocks(&self) -> usize {
        self.nb as usize
    }

    fn run(&mut self, at: usize, i: usize, e: usize) {
        for j in i..e {
            self.into_word(at + 4 * (j - i));
        }
    }

    ghost whole = { λ i e g s. s.0.long };

    ghost part = { λ i e j k g s h. s };

    ghost stays = { λ at i e j k g s. run_fits g.nb at (k - j) (cursor g) s.0 s.1 };

    ghost same_nb = { λ at i e g. refl };
}

// All blocks that a file of b blocks has and one of a blocks has not, in RULES' order.
pub fn grow(image: &mut [u8], nb: u32, a: usize, b: usize, t: Took) -> Took
    requires { Sizes image.old nb × (t.from.0 ≤ nb) × (a ≤ b) × (b ≤ 1048576) }
    ensures { Grew (grown nb a b (growing_at image.old t)) image.new result }
{
    let mut g = Grower {
        image,
        nb,
        inode: t.inode,
        from: t.from,
    };
    g.grow_indirect(a, b);
    g.grow_double(a, b);
    g.grow_level(a, b);
    g.grow_direct(a, b);
    let p = g.inode.head.indirect;
    slots::indirect(&mut g, p, a, b);
    let d = g.inode.head.db_indirect;
    slots::double(&mut g, d, a, b);
    Took {
        inode: g.inode,
        from: g.from,
    }
}
