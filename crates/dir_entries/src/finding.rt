// Names: entries found by them, on a card whose blocks are known to be good, and RULES' tests of a name that a call is given. A name is compared
// where it stands; only one that crosses into another block is copied.
ghost use Rattle.std.specs.Prelude.{◌≡◌, ◌+◌, ◌*◌, ◌/◌, ◌≤◌, ◌<◌, min, eqb, length, get_or};
ghost use Rattle.card_layout.specs.Sizes.{block_size, entry_size};
ghost use Rattle.card_layout.specs.Inode.{count};
ghost use Rattle.card_layout.specs.Entry.{upto_nul};
ghost use Rattle.card_rules.specs.View.{data_at, name};
ghost use Rattle.check_names.specs.InnerReading.{Readable};
ghost use Rattle.dir_entries.specs.Entries.{eqs, there};
ghost use Rattle.dir_entries.specs.Inner.{FindAsks, tail_differs};
ghost use Rattle.dir_entries.specs.Names.{is_dots, no_nul, storable};

use card_layout::{BLKSIZE, BlockId, DIRENT_SIZE, INodeId};
use check_names::loading;
use words::Number;

// Whether no name goes past byte k of e: a NUL is there, or nothing.
fn ends_at(e: &[u8], k: usize) -> bool
    ensures { result ≡ eqb (get_or e.now k 0) 0 }
{
    if k < e.len() {
        return e[k] == 0;
    }
    true
}

// Whether e begins with the name x, byte by byte: it ends where x does. As slices they would be gone through once more, for a NUL in x.
fn begins(e: &[u8], x: &[u8]) -> bool
    requires { (length x.now ≤ length e.now) × (get_or e.now (length x.now) 0 ≡ 0) }
    ensures { result ≡ eqs (upto_nul e.now) x.now }
{
    for i in 0..x.len() {
        if e[i] != x[i] {
            return false;
        }
        if e[i] == 0 {
            return false;
        }
    }
    true
}

// Whether the last eight bytes of x, if it has so many, are others in e: names of one kind differ near their end.
fn tail_differs(e: &[u8], x: &[u8]) -> bool
    requires { length x.now ≤ length e.now }
    ensures { result ≡ tail_differs e.now x.now }
{
    if x.len() < 8 {
        return false;
    }
    let at = x.len() - 8;
    u64::get(e, at) != u64::get(x, at)
}

// Whether what stands before the first NUL of e is x. Most names fall to the first test, and most others of x's length to the third.
fn same(e: &[u8], x: &[u8]) -> bool
    ensures { result ≡ eqs (upto_nul e.now) x.now }
{
    if !ends_at(e, x.len()) {
        return false;
    }
    if e.len() < x.len() {
        return false;
    }
    if tail_differs(e, x) {
        return false;
    }
    begins(e, x)
}

// Whether entry k has the name x, wherever it stands.
fn named_far(image: &[u8], n: INodeId, k: usize, x: &[u8]) -> bool
    requires { Readable image.now n.0 × (entry_size * k + entry_size ≤ block_size * count image.now n.0) }
    ensures { result ≡ eqs (name image.now n.0 k) x.now }
{
    let e = loading::load_entry(image, n, k);
    same(&e[4..260], x)
}

// Whether entry k, which begins in block b, has the name x: where it stands, if the w bytes that tell stand there.
fn named(image: &[u8], n: INodeId, b: BlockId, k: usize, w: usize, x: &[u8]) -> bool
    requires { Readable image.now n.0 × (entry_size * k + entry_size ≤ block_size * count image.now n.0)
        × (b.0 ≡ data_at image.now n.0 (entry_size * k / block_size)) × (w ≡ min (length x.now + 1) 256) }
    ensures { result ≡ eqs (name image.now n.0 k) x.now }
{
    let r = DIRENT_SIZE * k % BLKSIZE;
    if r + 4 + w > BLKSIZE {
        return named_far(image, n, k, x);
    }
    let at = BLKSIZE * b.0 as usize + r + 4;
    let end = at + w;
    same(&image[at..end], x)
}

// The first of the entries of n with the name x. Each block is looked up once.
pub fn find_entry(image: &[u8], n: INodeId, total: usize, x: &[u8]) -> Option<usize>
    requires { FindAsks image.now n.0 total }
    ensures { result ≡ there image.now n.0 x.now }
{
    // So many bytes of an entry's name tell whether it is x. No place of loading: that has the entry's number too, which is not wanted here.
    let w = (x.len() + 1).min(256);
    let p = loading::nowhere(n);
    let mut c = p.index;
    let mut b = p.block;
    for k in 0..total {
        let i = DIRENT_SIZE * k / BLKSIZE;
        b = loading::get_near(image, n, c, b, i);
        c = i;
        if named(image, n, b, k, w, x) {
            return Some(k);
        }
    }
    None
}

// Whether x is "." or "..".
pub fn is_dots(x: &[u8]) -> bool
    ensures { result ≡ is_dots x.now }
{
    let dot: &[u8] = b".";
    let dots: &[u8] = b"..";
    x == dot || x == dots
}

fn no_nul(x: &[u8]) -> bool
    ensures { result ≡ no_nul x.now }
{
    for b in x {
        if *b == 0 {
            return false;
        }
    }
    true
}

// Whether x can be stored as a name.
pub fn storable_name(x: &[u8]) -> bool
    ensures { result ≡ storable x.now }
{
    (1..=255).contains(&x.len()) && no_nul(x)
}
