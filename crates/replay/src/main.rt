// Runs a recording of calls and of what the unchanged Rust answered to them (tests/replay) through the library, and prints how many
// cards and calls it has, and how many calls agree: in the number, in every value, and in the sums of the card and of what is read.
#![tactic(auto)]

use crate::frame::{Frame, Op};
use std::io;
use std::io::Read;

mod calls;
mod frame;
mod made;

// What a recording is played in.
#[derive(Drop)]
struct Room {
    // 64 blocks, and a block for what follows a card's last one.
    image: [u8; 266240],
    scratch: [u32; 260],
    // The first name, or the bytes to be written or read; and the second name.
    x: [u8; 65536],
    y: [u8; 4096],
}

// What has been counted. Nothing compares two.
#[derive(Clone, Copy)]
struct Tally {
    // The bytes of the card.
    len: usize,
    cards: u64,
    calls: u64,
    agree: u64,
}

// The first n of a slice, or all where it has fewer.
fn front<T>(s: &mut [T], n: usize) -> &mut [T] {
    let n = n.min(s.len());
    &mut s[..n]
}

// A new card of zeros, or of bytes made from a seed.
fn start(image: &mut [u8], seed: u32) {
    if seed == 0 {
        image.fill(0);
    } else {
        made::fill(image, seed);
    }
}

// No recording has 2^64 steps.
fn more(n: u64) -> u64 {
    n.wrapping_add(1)
}

// As many bytes of the recording as are asked for and fit go to the card.
fn put_bytes(from: &mut impl Read, image: &mut [u8], at: u64, long: usize) -> io::Result<()> {
    let a = image.len().min(at as usize);
    let n = long.min(image.len() - a);
    let e = a + n;
    input::read_full(from, &mut image[a..e])?;
    Ok(())
}

fn new_card(mut t: Tally, f: Frame, room: &mut Room) -> Tally {
    let image = front(&mut room.image, f.long);
    start(image, f.seed);
    t.len = image.len();
    t.cards = more(t.cards);
    t
}

// Puts a call to the library, and counts whether it agrees.
fn one_call(from: &mut impl Read, mut t: Tally, f: Frame, room: &mut Room) -> io::Result<Tally> {
    let Room {
        image,
        scratch,
        x,
        y,
    } = room;
    let image = front(image, t.len);
    let scratch = front(scratch, f.scratch);
    let x = front(x, f.long);
    let y = front(y, f.more);
    calls::read_names(from, f, x, y)?;
    let got = calls::put(f, image, scratch, x, y);
    t.calls = more(t.calls);
    if got == f.want && made::sum(image) == f.image {
        t.agree = more(t.agree);
    }
    Ok(t)
}

// One step of the recording, where it goes on.
fn step(from: &mut impl Read, t: Tally, room: &mut Room) -> io::Result<Option<Tally>> {
    let mut head = [0u8; 64];
    if input::read_full(from, &mut head)? < 64 {
        return Ok(None);
    }
    let f = frame::read(&head);
    let t = match f.op {
        Some(Op::Card) => new_card(t, f, room),
        Some(Op::Bytes) => {
            put_bytes(from, &mut room.image, f.at, f.long)?;
            t
        }
        _ => one_call(from, t, f, room)?,
    };
    Ok(Some(t))
}

// A proved loop has to end, so it has a number of turns that no recording uses up.
fn play(from: &mut impl Read, room: &mut Room) -> io::Result<Tally> {
    let mut t = Tally {
        len: 0,
        cards: 0,
        calls: 0,
        agree: 0,
    };
    for _ in 0..u64::MAX {
        let Some(next) = step(from, t, room)? else {
            break;
        };
        t = next;
    }
    Ok(t)
}

fn main(rt: HostRuntime) -> io::Result<()> {
    let mut room = Room {
        image: [0; 266240],
        scratch: [0; 260],
        x: [0; 65536],
        y: [0; 4096],
    };
    let t = play(&mut rt.reader(), &mut room)?;
    println!(rt; "cards {} calls {} agree {}", t.cards, t.calls, t.agree)
}
