// What is judged after the walk: links and parents, the map, the unused count. Image and block count: see visit.
ghost use Rattle.std.specs.Prelude.{◌≡◌, ℕ, ◌+◌, ◌-◌, ◌*◌, ◌/◌, ◌≤◌, ◌<◌, eqb, length, get_or};
ghost use Rattle.words.specs.Inner.{When, Tells};
ghost use Rattle.card_layout.specs.Sizes.{fewest, most, block_size, map_bits};
ghost use Rattle.card_layout.specs.Super.{blocks, maps};
ghost use Rattle.card_layout.specs.Inode.{kind, decoded};
ghost use Rattle.card_map.specs.Bits.{map_bit};
ghost use Rattle.card_rules.specs.View.{kids};
ghost use Rattle.card_rules.specs.Whole.{Sized, Whole};
ghost use Rattle.check_walk.specs.Inner.{seen_at, Space, Family, Ups, Ends, Kept, Tally, Tallies, Bits, Past, Zero, started, Walked, Seen, Judged};

use crate::{map, visit};
use card_layout::inode::{FileType, Head};
use card_layout::{BlockId, INodeId, inode};
use check_names::loading;
use refusals::Refusal;
use words::Number;

// Whether inode n is a directory, by its record.
fn is_dir(image: &[u8], n: INodeId) -> bool
    requires { block_size * n.0 + 80 ≤ length image.now }
    ensures { result ≡ eqb (kind image.now n.0) 2 }
{
    matches!(inode::decode(image, n), Some(h) if h.type_ == FileType::Dir)
}

// How many of the e children of directory n are directories: none if one of these has another parent. Counted by hand,
// as the place that is read from goes along.
fn family(image: &[u8], n: INodeId, e: usize) -> Option<usize>
    requires { (e ≡ kids image.now n.0) × (e < 16777216) × Family image.now n.0 }
    ensures { Ends result (Kept image.now n.0) (Ups image.now n.0 → ⊥) }
{
    let mut c = 0;
    let mut p = loading::nowhere(n);
    for j in 0..e {
        p = loading::entry_after(image, n, p, 2 + j);
        let m = p.number;
        if is_dir(image, m) {
            let up = loading::entry_number(image, m, 1);
            if up != n {
                return None;
            }
            c += 1;
        }
    }
    Some(c)
}

// Whether the links of directory n, whose head is h and which was named v times, are right.
fn dir_links(image: &[u8], n: INodeId, h: Head, v: u32) -> bool
    requires { (decoded image.now n.0 ≡ Some h) × (kind image.now n.0 ≡ 2) × Family image.now n.0 }
    ensures { Tells result (Tally image.now n.0 v) }
{
    if v != 1 {
        return false;
    }
    match family(image, n, visit::kid_count(h)) {
        Some(c) => h.nlinks as usize == 2 + c,
        None => false,
    }
}

// Whether the links of inode n, which was named v times, are right: rules 6 and 7.
fn links_ok(image: &[u8], n: INodeId, v: u32) -> bool
    requires { Family image.now n.0 }
    ensures { Tells result (Tally image.now n.0 v) }
{
    match inode::decode(image, n) {
        Some(h) if h.type_ == FileType::Dir => dir_links(image, n, h, v),
        Some(h) => u32::from(h.nlinks) == v,
        None => false,
    }
}

// Whether the links of all t inodes of the queue are right.
fn tally(image: &[u8], s: &[u32], nb: usize, t: usize) -> bool
    requires { Space image.now s.now nb × (t ≤ nb) × ((i : ℕ) → i < t → (get_or s.now i 0 < nb) × Family image.now (get_or s.now i 0)) }
    ensures { Tells result (Tallies image.now s.now nb t) }
{
    for i in 0..t {
        let n = s[i];
        let v = s[2 * nb + n as usize];
        if !links_ok(image, INodeId(n), v) {
            return false;
        }
    }
    true
}

// Whether the bits of the map from nb up to e, of which there are few, are clear.
fn bits_clear(image: &[u8], nb: u32, e: u32) -> bool
    requires { (8192 + (e + 7) / 8 ≤ length image.now) × (e ≤ 1073741824) }
    ensures { Tells result ((b : ℕ) → nb ≤ b → b < e → map_bit image.now b ≡ 0) }
{
    for b in nb..e {
        if card_map::bit(image, BlockId(b)) != 0 {
            return false;
        }
    }
    true
}

// Whether the bits of the map in its groups of 64 from i up to e are clear.
fn groups_clear(image: &[u8], i: usize, e: usize) -> bool
    requires { (8192 + 8 * e ≤ length image.now) × (e ≤ 16777216) }
    ensures { Tells result ((b : ℕ) → 64 * i ≤ b → b < 64 * e → map_bit image.now b ≡ 0) }
{
    for j in i..e {
        if u64::get(image, 8192 + 8 * j) != 0 {
            return false;
        }
    }
    true
}

// Whether the bits of the map past the last block are clear.
fn past_ok(image: &[u8], nb: usize, f: usize) -> bool
    requires { (nb ≤ map_bits * f) × (f ≤ 32) × (8192 + block_size * f ≤ length image.now) }
    ensures { Tells result (Past image.now nb f) }
{
    let g = nb.div_ceil(64);
    bits_clear(image, nb as u32, (64 * g) as u32) && groups_clear(image, g, 512 * f)
}

// Whether each block is in use once or free, and the unused count is that of the bits.
fn bits(image: &[u8], s: &[u32], nb: usize) -> bool
    requires { Space image.now s.now nb }
    ensures { Tells result (Bits image.now s.now nb) }
{
    let n = nb / 8;
    map::bytes_agree(image, s, nb, n)
        && map::rest_agrees(image, s, nb, 8 * n)
        && map::free_count(image, nb) == u32::get(image, 8)
}

// The superblock and the f blocks of the map are in use, and the root alone is in the queue.
fn start(s: &mut [u32], nb: usize, f: usize)
    requires { (fewest ≤ nb) × (nb ≤ most) × (length s.old ≡ 4 * nb) × (2 + f ≤ nb) }
    ensures { s.new ≡ started s.old nb f }
{
    let a = 3 * nb;
    s[a] = 1;
    s[a + 2..a + 2 + f].fill(1);
    s[0] = 1;
    s[2 * nb + 1] = 1;
}

// What is left to judge after the walk, whose queue has t inodes.
fn rest(image: &[u8], s: &[u32], nb: usize, f: usize, t: usize) -> bool
    requires { Walked image.now s.now nb f t }
    ensures { When result (Whole image.now × Seen image.now s.now nb) (Whole image.now → ⊥) }
{
    loading::entry_number(image, INodeId(1), 1) == INodeId(1)
        && past_ok(image, nb, f)
        && bits(image, s, nb)
        && tally(image, s, nb, t)
}

// Whether a card of nb blocks is whole. The scratch, all zero before, tells the inodes of a whole card.
fn whole(image: &[u8], s: &mut [u32], nb: usize, f: usize) -> bool
    requires { Space image.now s.old nb × (nb ≡ blocks image.now) × (f ≡ maps image.now) × Sized image.now × Zero s.old }
    ensures { When result (Whole image.now × Seen image.now s.new nb) (Whole image.now → ⊥) }
{
    if !is_dir(image, INodeId(1)) {
        return false;
    }
    start(s, nb, f);
    match visit::walk(image, s, nb) {
        Some(t) => rest(image, s, nb, f, t),
        None => false,
    }
}

// Whether n is an inode of the card, by the counts that the walk left.
fn known(s: &[u32], nb: usize, n: INodeId) -> bool
    requires { (nb ≤ most) × (length s.now ≡ 4 * nb) }
    ensures { When result ((n.0 < nb) × (0 < seen_at s.now nb n.0)) ((n.0 < nb → 0 < seen_at s.now nb n.0 → ⊥)) }
{
    let m = n.0 as usize;
    m < nb && s[2 * nb + m] != 0
}

// Judges a card of nb blocks, f of them of map, and whether a and b are inodes of it. The scratch is all zero.
pub fn judge(
    image: &[u8],
    s: &mut [u32],
    nb: usize,
    f: usize,
    a: INodeId,
    b: INodeId,
) -> Result<(), Refusal>
    requires { Space image.now s.old nb × (nb ≡ blocks image.now) × (f ≡ maps image.now) × Sized image.now × Zero s.old }
    ensures { Judged result image.now a.0 b.0 }
{
    if !whole(image, s, nb, f) {
        return Err(Refusal::Damaged);
    }
    if !known(s, nb, a) || !known(s, nb, b) {
        return Err(Refusal::NoInode);
    }
    Ok(())
}
