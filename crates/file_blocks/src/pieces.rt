// Where a range of a file's bytes, off to end, falls.
ghost use Rattle.std.specs.Prelude.{◌≡◌, ◌+◌, ◌-◌, ◌*◌, ◌≤◌, ◌<◌};
ghost use Rattle.file_blocks.specs.Bytes.{first_of, after_of, piece_lo, piece_hi};
ghost use Rattle.file_blocks.specs.Ranges.{part_from, part_to, parts_from, parts_to};
ghost use Rattle.file_blocks.specs.Inner.{comes_with};

use card_layout::BLKSIZE;

// The file blocks that the range touches: from, up to.
pub fn first_of(off: usize) -> usize
    ensures { result ≡ first_of off }
{
    off / BLKSIZE
}

pub fn after_of(end: usize) -> usize
    requires { end ≤ 4294967295 }
    ensures { result ≡ after_of end }
{
    (end + 4095) / BLKSIZE
}

// The bytes of block j that it has: from, up to. By an `if` each: `saturating_sub` takes 24 instructions more for each block that is read.
pub fn piece_lo(off: usize, j: usize) -> usize
    requires { j ≤ 1048576 }
    ensures { result ≡ piece_lo off j }
{
    let at = BLKSIZE * j;
    if off < at { 0 } else { off - at }
}

pub fn piece_hi(end: usize, j: usize) -> usize
    requires { j ≤ 1048576 }
    ensures { result ≡ piece_hi end j }
{
    let at = BLKSIZE * j;
    if end < at {
        return 0;
    }
    (end - at).min(BLKSIZE)
}

// Of blocks i up to e those that second-level block q lists: from, up to.
pub fn part_from(i: usize, q: usize) -> usize
    requires { q ≤ 1024 }
    ensures { result ≡ part_from i q }
{
    i.max(1036 + 1024 * q)
}

pub fn part_to(e: usize, q: usize) -> usize
    requires { q ≤ 1024 }
    ensures { result ≡ part_to e q }
{
    e.min(1036 + 1024 * q + 1024)
}

// The second-level blocks that list them: from, up to.
pub fn parts_from(i: usize) -> usize
    ensures { result ≡ parts_from i }
{
    i.saturating_sub(1036) / 1024
}

pub fn parts_to(e: usize) -> usize
    ensures { result ≡ parts_to e }
{
    (e.saturating_sub(1036) + 1023) / 1024
}

// Whether a file of `more` blocks has the pointer block that comes with block m, and one of `fewer` blocks has not.
pub fn comes_with(m: usize, fewer: usize, more: usize) -> bool
    ensures { result ≡ comes_with m fewer more }
{
    fewer < m && m <= more
}
