// Bytes made by a formula, and one number for many bytes: the same as in tests/replay/made.rs.
ghost use Rattle.std.specs.Prelude.{◌<◌};

// The number after x in a run of numbers below 2^31.
fn next(x: u32) -> u32
    ensures { result < 2147483648 }
{
    ((u64::from(x) * 1103515245 + 12345) % 2147483648) as u32
}

fn middle(x: u32) -> u8 {
    (x / 65536 % 256) as u8
}

// Each byte is the middle of a number of the run that begins at the seed.
pub fn fill(b: &mut [u8], seed: u32) {
    let mut x = seed % 2147483648;
    for place in b.iter_mut() {
        x = next(x);
        *place = middle(x);
    }
}

// One more digit of a number to the base 16,777,619, below the prime 2^32 - 5.
fn mix(h: u32, x: u8) -> u32
    ensures { result < 4294967291 }
{
    ((u64::from(h) * 16777619 + u64::from(x)) % 4294967291) as u32
}

// The bytes as digits after a 1. One changed byte always changes it, as the base is no multiple of the prime.
pub fn sum(b: &[u8]) -> u32 {
    b.iter().fold(1, |h, x| mix(h, *x))
}
