// Whether bytes are UTF-8 (RFC 3629).
#![tactic(auto)]

ghost use Rattle.std.specs.Prelude.{◌≡◌, ◌+◌, ◌≤◌, ◌<◌, length, MatchOption};
ghost use Rattle.words.specs.Inner.{Tells};
ghost use Rattle.utf8.specs.Utf8.{Utf8};
ghost use Rattle.utf8.specs.Inner.{tail, low, high, second, two, three, four, taken, Ascii, Passed};

use words::Number;

// ---- The table of section 4.

fn tail(b: u8) -> bool
    ensures { result ≡ tail b }
{
    matches!(b, 0x80..=0xBF)
}

#[tactic(auto, unfolding(crate::specs::Inner::low))]
fn low(a: u8) -> u8
    ensures { result ≡ low a }
{
    match a {
        0xE0 => 0xA0,
        0xF0 => 0x90,
        _ => 0x80,
    }
}

#[tactic(auto, unfolding(crate::specs::Inner::high))]
fn high(a: u8) -> u8
    ensures { result ≡ high a }
{
    match a {
        0xED => 0x9F,
        0xF4 => 0x8F,
        _ => 0xBF,
    }
}

fn second(a: u8, b: u8) -> bool
    ensures { result ≡ second a b }
{
    (low(a)..=high(a)).contains(&b)
}

#[tactic(auto, unfolding(crate::specs::Inner::two))]
fn two(a: u8, b: u8) -> bool
    ensures { result ≡ two a b }
{
    matches!(a, 0xC2..=0xDF) && tail(b)
}

#[tactic(auto, unfolding(crate::specs::Inner::three))]
fn three(a: u8, b: u8, c: u8) -> bool
    ensures { result ≡ three a b c }
{
    matches!(a, 0xE0..=0xEF) && second(a, b) && tail(c)
}

#[tactic(auto, unfolding(crate::specs::Inner::four))]
fn four(a: u8, b: u8, c: u8, d: u8) -> bool
    ensures { result ≡ four a b c d }
{
    matches!(a, 0xF0..=0xF4) && second(a, b) && tail(c) && tail(d)
}

// How many bytes the sequence at the front takes, where there is one.
#[tactic(auto, using(crate::proofs::Table::by_rows))]
fn taken(x: &[u8]) -> Option<usize>
    ensures { MatchOption result (taken x.now ≡ 0) (λ k. (taken x.now ≡ k) × (0 < k) × (k ≤ length x.now)) }
{
    match x {
        [a, ..] if *a < 0x80 => Some(1),
        [a, b, ..] if two(*a, *b) => Some(2),
        [a, b, c, ..] if three(*a, *b, *c) => Some(3),
        [a, b, c, d, ..] if four(*a, *b, *c, *d) => Some(4),
        _ => None,
    }
}

// ---- Bytes below 128, eight at a time.

fn ascii(x: &[u8], at: usize) -> bool
    requires { at + 8 ≤ length x.now }
    ensures { Tells result (Ascii x.now at (at + 8)) }
{
    u64::get(x, at) & 0x8080_8080_8080_8080 == 0
}

// Passes groups of eight from `from` on. Where less than a group is left, the last eight bytes tell of it.
fn pass(x: &[u8], from: usize) -> usize
    requires { from ≤ length x.now }
    ensures { Passed x.now from result }
{
    let n = x.len();
    if n < 8 {
        return from;
    }
    let last = n - 8;
    let mut i = from;
    // No `for` over steps of eight: the place where it ends is wanted after it.
    while i <= last && ascii(x, i) {
        i += 8;
    }
    if last < i && ascii(x, last) {
        return n;
    }
    i
}

pub fn valid(x: &[u8]) -> bool
    ensures { Tells result (Utf8 x.now) }
{
    let mut i = pass(x, 0);
    // No `for`: each turn goes on by as many bytes as it takes.
    while i < x.len() {
        let Some(k) = taken(&x[i..]) else {
            return false;
        };
        i = pass(x, i + k);
    }
    true
}
