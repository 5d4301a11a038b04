// The map of free blocks: `BitsetAlloc`, `alloc_block` and `free_block` of rcore-fs-sfs, on the card's own bytes.
#![tactic(auto)]

ghost use Rattle.std.specs.Prelude.{◌≡◌, ◌+◌, ◌-◌, ◌*◌, ◌/◌, ◌<◌, ◌≤◌, length};
ghost use Rattle.card_layout.specs.Sizes.{most};
ghost use Rattle.card_map.specs.Bits.{map_byte, map_bit, clear_bit, set_bit};
ghost use Rattle.card_map.specs.Free.{lowest, taken_at, taken, freed};
ghost use Rattle.card_map.specs.Inner.{found_below};

use card_layout::{BlockId, superblock};
use words::Number;

// Bit b: 1 where the block is free.
pub fn bit(image: &[u8], b: BlockId) -> u8
    requires { map_byte b.0 < length image.now }
    ensures { result ≡ map_bit image.now b.0 }
{
    let b = b.0;
    let x = image[8192 + (b / 8) as usize];
    (x >> (b % 8)) % 2
}

pub fn clear_bit(image: &mut [u8], b: BlockId)
    requires { map_byte b.0 < length image.old }
    ensures { image.new ≡ clear_bit image.old b.0 }
{
    let b = b.0;
    let at = 8192 + (b / 8) as usize;
    let x = image[at];
    let y = (x >> (b % 8)) % 2;
    image[at] = x - y * (1 << (b % 8));
}

pub fn set_bit(image: &mut [u8], b: BlockId)
    requires { map_byte b.0 < length image.old }
    ensures { image.new ≡ set_bit image.old b.0 }
{
    let b = b.0;
    let at = 8192 + (b / 8) as usize;
    let x = image[at];
    let y = (x >> (b % 8)) % 2;
    image[at] = x + (1 - y) * (1 << (b % 8));
}

// The lowest free block from `from` on in the first `bytes` map bytes, or 8 * bytes where there is none. Eight empty bytes are passed at a time, then
// one; the first byte that is not empty tells its lowest bit. In the byte of `from` the k bits below it are masked off.
// One loop with its own index: RULES, "Required forms by place", names it.
fn search(image: &[u8], from: BlockId, bytes: u32) -> BlockId
    requires { (8192 + bytes ≤ length image.now) × (8 * bytes ≤ most) × (from.0 ≤ 8 * bytes) }
    ensures { result.0 ≡ lowest image.now from.0 (8 * bytes) }
{
    let mut i = from.0 / 8;
    let mut k = from.0 % 8;
    let found = 'search: loop {
        if i + 8 <= bytes && u64::get(image, 8192 + i as usize) == 0 {
            i += 8;
        } else {
            if i >= bytes {
                break 'search 8 * bytes;
            }
            let x = image[8192 + i as usize] >> k << k;
            if x != 0 {
                break 'search 8 * i + u8::trailing_zeros(x);
            }
            i += 1;
        }
        k = 0;
    };
    BlockId(found)
}

// The lowest free block from `from` on below n.
pub fn find_free(image: &[u8], from: BlockId, n: u32) -> Option<BlockId>
    requires { (8192 + (n + 7) / 8 ≤ length image.now) × (n ≤ most) × (from.0 ≤ n) }
    ensures { result ≡ found_below n (lowest image.now from.0 n) }
{
    let b = search(image, from, (n + 7) / 8);
    if b.0 < n { Some(b) } else { None }
}

// Block b is taken.
#[tactic(auto, unfolding(crate::specs::Free::taken_at))]
pub fn take(image: &mut [u8], b: BlockId)
    requires { (48 ≤ length image.old) × (map_byte b.0 < length image.old) }
    ensures { image.new ≡ taken_at image.old b.0 }
{
    let v = superblock::unused_blocks(image);
    clear_bit(image, b);
    superblock::set_unused_blocks(image, v.saturating_sub(1));
}

// Takes the lowest free block from `from` on below n.
#[tactic(auto, unfolding(crate::specs::Free::taken))]
pub fn alloc_block(image: &mut [u8], from: BlockId, n: u32) -> Option<BlockId>
    requires { (8192 + (n + 7) / 8 ≤ length image.old) × (n ≤ most) × (from.0 ≤ n) }
    ensures { (result ≡ found_below n (lowest image.old from.0 n)) × (image.new ≡ taken image.old from.0 n) }
{
    let b = find_free(image, from, n)?;
    take(image, b);
    Some(b)
}

// Block b is freed.
#[tactic(auto, unfolding(crate::specs::Free::freed))]
pub fn free_block(image: &mut [u8], b: BlockId)
    requires { (48 ≤ length image.old) × (map_byte b.0 < length image.old) }
    ensures { image.new ≡ freed image.old b.0 }
{
    let v = superblock::unused_blocks(image);
    set_bit(image, b);
    superblock::set_unused_blocks(image, v.wrapping_add(1));
}
