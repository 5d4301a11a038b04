// Shrinking: the blocks that a shorter file no longer has are freed. Nothing is zeroed.
#![tactic(auto)]

ghost use Rattle.std.specs.Prelude.{◌≡◌, ◌-◌, ◌*◌, ◌≤◌, ◌<◌, refl, length};
ghost use Rattle.file_blocks.specs.Taking.{shrunk, less_indirect, less_double};
ghost use Rattle.file_blocks.specs.Inner.{Sizes};

use card_layout::inode::DiskINode;
use card_layout::{BLKSIZE, BlockId, INodeId, slot};
use file_blocks::slots::Walk;
use file_blocks::{pieces, slots};
use words::Number;

// Frees blocks of a card of nb blocks. What it asks (`Sized`) is a clause of each step and no ghost field: what a step makes of it is said as the freer
// with another card, and with the field that would be a freer for some cards alone.
#[derive(Drop)]
struct Freer<'a> {
    image: &'a mut [u8],
    nb: u32,
}

impl<'a> Freer<'a> {
    ghost use Rattle.file_blocks.specs.Taking.{freed_in, free_level};
    ghost use Rattle.file_blocks.specs.Inner.{comes_with};
    ghost use Rattle.words.specs.Words.{pick};
    ghost use Rattle.file_shrink.specs.Inner.{Sized, with_card};

    // Block b, if it is one.
    #[tactic(auto, using(crate::proofs::Freers::freed_sized))]
    fn free(&mut self, b: BlockId)
        requires { Sized self.old }
        ensures freed { self.new ≡ with_card self.old (freed_in self.old.nb b.0 self.old.image.now) }
        ensures sized { Sized self.new }
    {
        if b.0 >= self.nb {
            return;
        }
        card_map::free_block(self.image, b);
    }

    // The pointer block p that comes with block m, if a file of a blocks has it and one of b blocks has not.
    fn free_pointer(&mut self, m: usize, p: BlockId, b: usize, a: usize)
        requires { Sized self.old }
        ensures freed { self.new ≡ with_card self.old (pick (comes_with m b a) (freed_in self.old.nb p.0 self.old.image.now) self.old.image.now) }
        ensures sized { Sized self.new }
    {
        if pieces::comes_with(m, b, a) {
            self.free(p);
        }
    }

    // The blocks of the second level, likewise: d is the record.
    fn free_level(&mut self, d: DiskINode, b: usize, a: usize)
        requires { Sized self.old × (b ≤ a) × (a ≤ 1048576) }
        ensures freed { self.new ≡ with_card self.old (free_level self.old.nb d b a self.old.image.now) }
        ensures sized { Sized self.new }
    {
        let p = d.head.db_indirect;
        if p.0 >= self.nb {
            return;
        }
        let q = slot::seconds_of(b);
        let e = slot::seconds_of(a);
        self.run(BLKSIZE * p.0 as usize + 4 * q, q, e);
    }
}

impl<'a> Walk for Freer<'a> {
    ghost use Rattle.file_blocks.proofs.Ranges.{same_room};
    ghost use Rattle.file_blocks.proofs.Lengths.{length-free_run};
    ghost use Rattle.file_shrink.specs.Inner.{Sized, over};

    ghost card = { λ f. f.image.now };

    ghost nb = { λ f. f.nb };

    ghost Ready = { λ i e f. Sized f };

    ghost turn = { over };

    fn image(&self) -> &[u8] {
        self.image
    }

    fn blocks(&self) -> usize {
        self.nb as usize
    }

    // No `run` of the trait's own over a step: that would take two more ghost members and a law, for three lines.
    fn run(&mut self, at: usize, i: usize, e: usize) {
        for j in i..e {
            let b = BlockId(u32::get(self.image(), at + 4 * (j - i)));
            self.free(b);
        }
    }

    ghost whole = { λ i e f s. s.long };

    ghost part = { λ i e j k f s h. s };

    ghost stays = { λ at i e j k f s. record { few = s.few; many = s.many; long = same_room _ _ _ (length-free_run f.nb at (k - j) f.image.now) s.long } };

    ghost same_nb = { λ at i e f. refl };
}

// All blocks that a file of a blocks has and one of b blocks has not. The record d of inode n stays as it is.
pub fn shrink(image: &mut [u8], nb: u32, n: INodeId, d: DiskINode, b: usize, a: usize)
    requires { Sizes image.old nb × (n.0 < nb) × (b ≤ a) × (a ≤ 1048576) }
    ensures { image.new ≡ shrunk nb n.0 d b a image.old }
{
    let mut freer = Freer { image, nb };
    slots::direct(&mut freer, n, b, a);
    slots::indirect(&mut freer, d.head.indirect, b, a);
    slots::double(&mut freer, d.head.db_indirect, b, a);
    freer.free_pointer(12, d.head.indirect, b, a);
    freer.free_level(d, b, a);
    freer.free_pointer(1036, d.head.db_indirect, b, a);
}

// The record without the indirect block, where that is freed.
pub fn less_indirect(d: DiskINode, b: usize, a: usize) -> DiskINode
    ensures { result ≡ less_indirect b a d }
{
    if pieces::comes_with(12, b, a) {
        d.set_indirect(BlockId(0))
    } else {
        d
    }
}

// The other pointer, likewise: a setter passed in, to make one of the two, would want a clause on what it sets.
pub fn less_double(d: DiskINode, b: usize, a: usize) -> DiskINode
    ensures { result ≡ less_double b a d }
{
    if pieces::comes_with(1036, b, a) {
        d.set_db_indirect(BlockId(0))
    } else {
        d
    }
}
