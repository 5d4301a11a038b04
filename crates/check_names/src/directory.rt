// Rule 6 on one directory: its size, its first two entries, its names. Names are compared by chains of equal hashes in lent words, a window of
// entries at a time; a hostile card can make that slow, never wrong.
ghost use Rattle.std.specs.Prelude.{◌≡◌, [], ◌∷◌, ◌+◌, ◌-◌, ◌*◌, ◌/◌, ◌%◌, ◌≤◌, ◌<◌, min, length, get_or, drop, set};
ghost use Rattle.words.specs.Inner.{Tells};
ghost use Rattle.words.specs.Runs.{zeroed};
ghost use Rattle.card_layout.specs.Sizes.{block_size, entry_size};
ghost use Rattle.card_layout.specs.Inode.{size, count};
ghost use Rattle.card_layout.specs.Entry.{upto_nul, Name};
ghost use Rattle.card_rules.specs.View.{name};
ghost use Rattle.card_rules.specs.Whole.{Inode, Dots, Names, Dir};
ghost use Rattle.check_names.specs.InnerReading.{Readable, EntryIn, EntryNear};
ghost use Rattle.check_names.specs.InnerNames.{Scans, AloneAsks, Alone, WindowAsks, NamesAsk, Windowed};

use crate::loading;
use card_layout::{BLKSIZE, BlockId, DIRENT_SIZE, INodeId, entry};

// As wide as a size on the card; a name of its own in each crate that wants one (docs/DECISIONS.md, "One name for a number").
const ENTRY: u32 = DIRENT_SIZE as u32;

// A name's length and its hash.
#[derive(Clone, Copy, Debug, PartialEq, Eq)]
pub struct Scanned {
    pub len: usize,
    pub hash: u32,
}

// Scans the name that e begins with, None where it has no NUL.
fn scan(e: &[u8]) -> Option<Scanned>
    ensures { Scans result (upto_nul e.now) (length e.now) }
{
    let mut hash: u32 = 7;
    for (i, &x) in e.iter().enumerate() {
        if x == 0 {
            return Some(Scanned { len: i, hash });
        }
        hash = hash.wrapping_mul(2654435761).wrapping_add(u32::from(x));
    }
    None
}

// Scans the name of entry k, wherever it stands.
fn look_far(image: &[u8], n: INodeId, k: usize) -> Option<Scanned>
    requires { EntryIn image.now n.0 k }
    ensures { Scans result (name image.now n.0 k) 256 }
{
    let e = loading::load_entry(image, n, k);
    scan(&e[4..])
}

// Scans the name of entry k, which begins in block b: where it stands, if its NUL stands there too.
fn look(image: &[u8], n: INodeId, b: BlockId, k: usize) -> Option<Scanned>
    requires { EntryNear image.now n.0 k (entry_size * k / block_size) b.0 }
    ensures { Scans result (name image.now n.0 k) 256 }
{
    let r = DIRENT_SIZE * k % BLKSIZE;
    let at = BLKSIZE * b.0 as usize + r + 4;
    let end = at + (4092 - r).min(256);
    // No or_else: the closure's contract would have to be written out.
    match scan(&image[at..end]) {
        Some(s) => Some(s),
        None => look_far(image, n, k),
    }
}

// Whether entry k's name is x.
fn is_named(image: &[u8], n: INodeId, k: usize, x: &[u8]) -> bool
    requires { EntryIn image.now n.0 k × (0 < length x.now) × (length x.now < 256) }
    ensures { Tells result (name image.now n.0 k ≡ x.now) }
{
    let e = loading::load_entry(image, n, k);
    entry::name_of(&e) == x
}

// Whether entries i and k have the same name, which is one that can be stored.
fn same_name(image: &[u8], n: INodeId, i: usize, k: usize) -> bool
    requires { EntryIn image.now n.0 i × EntryIn image.now n.0 k × Name (name image.now n.0 k) }
    ensures { Tells result (name image.now n.0 i ≡ name image.now n.0 k) }
{
    let e = loading::load_entry(image, n, k);
    is_named(image, n, i, entry::name_of(&e))
}

// Makes the first n words 0. No function of this and words::zero: each is one line, and that one's bytes are in the middle of a card.
pub fn zero(w: &mut [u32], n: usize)
    requires { n ≤ length w.old }
    ensures { w.new ≡ zeroed w.old 0 n }
{
    w[..n].fill(0);
}

// Whether entry j's name, whose hash is v, differs from those of the k entries from lo on. Of a window's numbers only h and lo are those of other functions
// too, so no struct holds them. By while: it follows a chain.
fn alone(
    image: &[u8],
    w: &[u32],
    n: INodeId,
    h: usize,
    lo: usize,
    k: usize,
    j: usize,
    v: u32,
) -> bool
    requires { AloneAsks image.now w.now n.0 h lo k j v }
    ensures { Tells result (Alone image.now n.0 lo k (name image.now n.0 j)) }
{
    let t = v / 65536;
    let mut c = w[v as usize % h] as usize;
    while 0 < c {
        let x = w[h + (c - 1)];
        if x / 65536 == t && same_name(image, n, lo + (c - 1), j) {
            return false;
        }
        c = (x % 65536) as usize;
    }
    true
}

// Puts key x of the window, whose hash is v, at the end of its chain.
fn put(w: &mut [u32], h: usize, x: usize, v: u32)
    requires { (0 < h) × (x < 65535) × (h + x < length w.old) × (get_or w.old (v % h) 0 < 65536) }
    ensures { w.new ≡ set (set w.old (h + x) (v / 65536 * 65536 + get_or w.old (v % h) 0)) (v % h) (x + 1) }
{
    let q = v as usize % h;
    let c = w[q];
    w[h + x] = v / 65536 * 65536 + c;
    w[q] = (x + 1) as u32;
}

// Whether the names of the entries from lo on can be stored, and those of the first m of them differ from all later ones.
fn window(image: &[u8], w: &mut [u32], n: INodeId, e: usize, h: usize, m: usize, lo: usize) -> bool
    requires { WindowAsks image.now w.old n.0 e h m lo }
    ensures { (length w.new ≡ length w.old) × Windowed result image.now n.0 lo m e }
{
    zero(w, h);
    let mut p = loading::nowhere(n);
    for j in lo..e {
        p = loading::entry_after(image, n, p, j);
        let k = (j - lo).min(m);
        let Some(s) = look(image, n, p.block, j) else {
            return false;
        };
        if s.len == 0 || !alone(image, w, n, h, lo, k, j, s.hash) {
            return false;
        }
        if k < m {
            put(w, h, k, s.hash);
        }
    }
    true
}

// Whether all names of directory n, of e entries, can be stored and differ. As many chains as entries, at most a quarter of the words.
fn names_ok(image: &[u8], w: &mut [u32], n: INodeId, e: usize) -> bool
    requires { NamesAsk image.now w.old n.0 e }
    ensures { (length w.new ≡ length w.old) × Tells result (Names image.now n.0) }
{
    let q = w.len() / 4;
    let h = e.min(q);
    let m = (3 * q).min(65535);
    for lo in (0..e).step_by(m) {
        if !window(image, w, n, e, h, m, lo) {
            return false;
        }
    }
    true
}

// Whether the first two entries of n are "." with its own number and "..".
fn dots_ok(image: &[u8], n: INodeId) -> bool
    requires { Readable image.now n.0 × (520 ≤ block_size * count image.now n.0) }
    ensures { Tells result (Dots image.now n.0) }
{
    loading::entry_number(image, n, 0) == n
        && is_named(image, n, 0, b".")
        && is_named(image, n, 1, b"..")
}

// Whether directory n, of z bytes, is a good one by itself. The words of w are free to use.
pub fn dir_ok(image: &[u8], w: &mut [u32], n: INodeId, z: u32) -> bool
    requires { (16 ≤ length w.old) × (z ≡ size image.now n.0) × Readable image.now n.0 × Inode image.now n.0 }
    ensures { (length w.new ≡ length w.old) × Tells result (Dir image.now n.0) }
{
    z % ENTRY == 0
        && 520 <= z
        && dots_ok(image, n)
        && names_ok(image, w, n, z as usize / DIRENT_SIZE)
}
