// The walk: each inode of the queue is tested by itself, its blocks are marked, and then its children are noted. Image, scratch and block count stay three
// parameters: of a struct with the three each step would have to promise that the image and the count are as they were.
ghost use Rattle.std.specs.Prelude.{◌≡◌, ◌+◌, ◌*◌, ◌≤◌, ◌<◌};
ghost use Rattle.words.specs.Inner.{When};
ghost use Rattle.card_layout.specs.Super.{blocks};
ghost use Rattle.card_layout.specs.Inode.{decoded, kind};
ghost use Rattle.card_rules.specs.Whole.{Dir, Whole};
ghost use Rattle.check_marks.specs.Inner.{HeadOf};
ghost use Rattle.check_walk.specs.Inner.{Space, Ends, head_kids, Takes, DirRule, DirAsks, Same, Met, Unmet, Progress, Next, Advances};

use crate::queue;
use card_layout::inode::{FileType, Head};
use card_layout::{DIRENT_SIZE, INodeId, inode};
use check_names::directory;

// How many children an inode with head h has.
pub fn kid_count(h: Head) -> usize
    ensures { (result ≡ head_kids h) × (result < 16777216) }
{
    match h.type_ {
        FileType::Dir => (h.size as usize / DIRENT_SIZE).saturating_sub(2),
        FileType::File | FileType::SymLink => 0,
    }
}

// Marks inode n and all that it points to.
fn take(image: &[u8], s: &mut [u32], nb: usize, n: INodeId, h: Head) -> bool
    requires { Space image.now s.old nb × (n.0 < nb) × HeadOf image.now n.0 h × (h.blocks ≤ 1048576) }
    ensures { Takes result image.now s.old s.new nb n.0 }
{
    let a = 3 * nb;
    check_marks::take_inode(image, &mut s[a..], n, h)
}

// Whether inode n, if it is a directory, is a good one. Names have the words from the queue's end to 2 nb.
fn dir_part(image: &[u8], s: &mut [u32], nb: usize, n: INodeId, h: Head, t: usize) -> bool
    requires { DirAsks image.now s.old nb n.0 h t }
    ensures { When result (Same s.old s.new nb t × DirRule image.now n.0) (DirRule image.now n.0 → ⊥) }
{
    h.type_ != FileType::Dir || directory::dir_ok(image, &mut s[t..2 * nb], n, h.size)
}

// Tests inode n, whose head is h, by itself, and marks its blocks before anything that it names is followed.
fn meet(image: &[u8], s: &mut [u32], nb: usize, n: INodeId, h: Head, t: usize) -> bool
    requires { Space image.now s.old nb × (n.0 < nb) × (t ≤ nb) × (decoded image.now n.0 ≡ Some h) }
    ensures { When result (Met image.now s.old s.new nb n.0 t) (Unmet image.now s.old nb n.0) }
{
    check_marks::head_ok(h) && take(image, s, nb, n, h) && dir_part(image, s, nb, n, h, t)
}

// Meets inode n, the next of the queue, whose head is h, and notes its children.
fn enter(
    image: &[u8],
    s: &mut [u32],
    nb: usize,
    n: INodeId,
    d: Head,
    h: usize,
    t: usize,
) -> Option<usize>
    requires { Next image.now s.old nb n.0 d h t }
    ensures { Advances result image.now s.new nb h }
{
    if !meet(image, s, nb, n, d, t) {
        return None;
    }
    let e = kid_count(d);
    queue::scan(image, s, nb, n, e, t)
}

// The step of the walk: inode h of the queue.
fn visit(image: &[u8], s: &mut [u32], nb: usize, h: usize, t: usize) -> Option<usize>
    requires { Space image.now s.old nb × (h < t) × Progress image.now s.old nb h t }
    ensures { Advances result image.now s.new nb h }
{
    let n = INodeId(s[h]);
    let d = inode::decode(image, n)?;
    enter(image, s, nb, n, d, h, t)
}

// Walks down from the root, which is in the queue, and answers how many inodes are in it at the end. None, here and in the steps below: the card is not whole.
pub fn walk(image: &[u8], s: &mut [u32], nb: usize) -> Option<usize>
    requires { Space image.now s.old nb × Progress image.now s.old nb 0 1 }
    ensures { Ends result (λ t. Progress image.now s.new nb t t) (nb ≡ blocks image.now → Whole image.now → ⊥) }
{
    let mut h = 0;
    let mut t = 1;
    // No range: the queue's end moves as it is followed.
    while h < t {
        t = visit(image, s, nb, h, t)?;
        h += 1;
    }
    Some(t)
}
