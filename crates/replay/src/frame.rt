// A step of a recording: 64 bytes, sixteen words (tests/replay/README.md), after which its names or bytes follow.
use words::Number;

// What a step is: a new card, bytes for it, or a call. It is matched, and never compared.
#[derive(Clone, Copy)]
pub enum Op {
    Card = 1,
    Bytes = 2,
    Format = 3,
    Check = 4,
    Metadata = 5,
    Read = 6,
    Write = 7,
    Resize = 8,
    Create = 9,
    Link = 10,
    Unlink = 11,
    Move = 12,
    Find = 13,
    Entry = 14,
}

// A number that no step has; nothing compares two.
#[derive(Clone, Copy)]
pub struct NoOp;

impl TryFrom<u32> for Op {
    type Error = NoOp;

    fn try_from(number: u32) -> Result<Self, NoOp> {
        let op = match number {
            1 => Op::Card,
            2 => Op::Bytes,
            3 => Op::Format,
            4 => Op::Check,
            5 => Op::Metadata,
            6 => Op::Read,
            7 => Op::Write,
            8 => Op::Resize,
            9 => Op::Create,
            10 => Op::Link,
            11 => Op::Unlink,
            12 => Op::Move,
            13 => Op::Find,
            14 => Op::Entry,
            _ => return Err(NoOp),
        };
        prove!(op as u32 == number);
        Ok(op)
    }
}

// What a call gives: RULES' number, its values, and the sum of the bytes that it hands back, 0 where there are none.
#[derive(Clone, Copy, Default, PartialEq, Eq)]
pub struct Got {
    pub number: u32,
    pub a: u32,
    pub b: u32,
    pub c: u32,
    pub d: u32,
    pub bytes: u32,
}

// A step as it is recorded. Nothing compares two.
#[derive(Clone, Copy)]
pub struct Frame {
    // None where no step has the number.
    pub op: Option<Op>,
    // The inode or the directory; and the kind, the inode or the target.
    pub inode: u32,
    pub other: u32,
    // The offset, the length, the index or the space.
    pub at: u64,
    // How long the first name or the bytes are, and the second name.
    pub long: usize,
    pub more: usize,
    pub seed: u32,
    // Words of scratch.
    pub scratch: usize,
    // What the Rust gave, and the sum of its card afterwards.
    pub want: Got,
    pub image: u32,
}

fn wanted(h: &[u8; 64]) -> Got {
    Got {
        number: u32::get(h, 36),
        a: u32::get(h, 40),
        b: u32::get(h, 44),
        c: u32::get(h, 48),
        d: u32::get(h, 52),
        bytes: u32::get(h, 60),
    }
}

pub fn read(h: &[u8; 64]) -> Frame {
    let want = wanted(h);
    Frame {
        op: Op::try_from(u32::get(h, 0)).ok(),
        inode: u32::get(h, 4),
        other: u32::get(h, 8),
        at: u64::get(h, 12),
        long: u32::get(h, 20) as usize,
        more: u32::get(h, 24) as usize,
        seed: u32::get(h, 28),
        scratch: u32::get(h, 32) as usize,
        want,
        image: u32::get(h, 56),
    }
}
