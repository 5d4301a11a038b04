// The map beside the marks: each block is in use once or free. A map byte is read once, for its eight blocks. Image and block count: see visit.
ghost use Rattle.std.specs.Prelude.{◌≡◌, ℕ, ◌+◌, ◌*◌, ◌/◌, ◌%◌, ◌^◌, ◌≤◌, ◌<◌, length, get_or};
ghost use Rattle.words.specs.Inner.{Tells};
ghost use Rattle.card_layout.specs.Sizes.{most};
ghost use Rattle.card_map.specs.Bits.{map_bit, free_bits};
ghost use Rattle.check_walk.specs.Inner.{own_at, Space};

use card_layout::BlockId;
use words::Number;

// Whether the eight marks from `at` on are v.
fn eight_are(s: &[u32], at: usize, v: u32) -> bool
    requires { at + 8 ≤ length s.now }
    ensures { Tells result ((k : ℕ) → k < 8 → get_or s.now (at + k) 0 ≡ v) }
{
    s[at..at + 8].iter().all(|&m| m == v)
}

// Whether each of the eight blocks of map byte x, whose marks are those from `at` on, is in use once or free. In most bytes all are the one or the other.
fn eight_agree(s: &[u32], at: usize, x: u8) -> bool
    requires { at + 8 ≤ length s.now }
    ensures { Tells result ((k : ℕ) → k < 8 → get_or s.now (at + k) 0 + x / 2 ^ k % 2 ≡ 1) }
{
    if x == 0 {
        return eight_are(s, at, 1);
    }
    if x == 255 {
        return eight_are(s, at, 0);
    }
    for k in 0..8 {
        let f = (x >> k) % 2;
        if s[at + k] != 1 - f as u32 {
            return false;
        }
    }
    true
}

// Whether each block of the first n map bytes is in use once or free.
pub fn bytes_agree(image: &[u8], s: &[u32], nb: usize, n: usize) -> bool
    requires { Space image.now s.now nb × (8 * n ≤ nb) }
    ensures { Tells result ((b : ℕ) → b < 8 * n → own_at s.now nb b + map_bit image.now b ≡ 1) }
{
    for i in 0..n {
        if !eight_agree(s, 3 * nb + 8 * i, image[8192 + i]) {
            return false;
        }
    }
    true
}

// Whether each block from `from` on is in use once or free: those of the last byte, where it has bits past the last block.
pub fn rest_agrees(image: &[u8], s: &[u32], nb: usize, from: usize) -> bool
    requires { Space image.now s.now nb }
    ensures { Tells result ((b : ℕ) → from ≤ b → b < nb → own_at s.now nb b + map_bit image.now b ≡ 1) }
{
    for b in from..nb {
        let f = card_map::bit(image, BlockId(b as u32));
        if s[3 * nb + b] != 1 - f as u32 {
            return false;
        }
    }
    true
}

// How many blocks of the first n groups of 64 are free.
fn free_in_groups(image: &[u8], n: usize) -> u32
    requires { (8192 + 8 * n ≤ length image.now) × (64 * n ≤ most) }
    ensures { result ≡ free_bits image.now (64 * n) }
{
    let mut c = 0;
    for i in 0..n {
        c += u64::get(image, 8192 + 8 * i).count_ones();
    }
    c
}

// How many of the first nb blocks are free.
pub fn free_count(image: &[u8], nb: usize) -> u32
    requires { (8192 + nb ≤ length image.now) × (nb ≤ most) }
    ensures { result ≡ free_bits image.now nb }
{
    let n = nb / 64;
    let mut c = free_in_groups(image, n);
    for b in 64 * n..nb {
        c += card_map::bit(image, BlockId(b as u32)) as u32;
    }
    c
}
