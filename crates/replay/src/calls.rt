// The calls of a recording, put to the library. x is the first name, or the bytes to be written or read; y is the second name.
use crate::frame::{Frame, Got, Op};
use crate::made;
use call_dirs;
use call_files;
use call_looks;
use call_said;
use card_layout::{INodeId, inode};
use dir_look;
use refusals::Refusal;
use sfs::c_looks;
use std::io;
use std::io::Read;

// What the Rust has in a buffer before it reads.
const UNREAD: u8 = 0xa5;

// An answer as C is told of it: its number, its value, and the sum of the bytes that are handed back.
fn told<T: Copy>(r: Result<T, Refusal>, value: u32, bytes: u32) -> Got {
    Got {
        number: call_said::number_of(r),
        a: value,
        bytes,
        ..Got::default()
    }
}

// A step that is no call: no recording has its number.
fn nothing() -> Got {
    Got {
        number: 99,
        ..Got::default()
    }
}

fn check(image: &[u8], scratch: &mut [u32]) -> Got {
    let r = check_walk::check(image, scratch);
    Got {
        b: r.map_or(0, |c| c.unused),
        ..told(r, r.map_or(0, |c| c.blocks), 0)
    }
}

fn metadata(image: &[u8], scratch: &mut [u32], n: u32) -> Got {
    let r = call_looks::metadata(image, scratch, INodeId(n));
    Got {
        b: r.map_or(0, |m| m.size),
        c: r.map_or(0, |m| m.blocks),
        d: r.map_or(0, |m| m.links as u32),
        ..told(r, r.map_or(0, |m| inode::kind_no(m.kind) as u32), 0)
    }
}

// Its value is the length of the name in the entry.
fn entry(image: &[u8], scratch: &mut [u32], p: u32, k: u64) -> Got {
    let r = call_looks::entry(image, scratch, INodeId(p), k);
    let e = dir_look::told(r);
    told(r, short(c_looks::sfs_entry_name(&e)), made::sum(&e))
}

fn short(n: usize) -> u32 {
    (n % 65536) as u32
}

fn find(image: &[u8], scratch: &mut [u32], p: u32, x: &[u8]) -> Got {
    let r = call_looks::find(image, scratch, INodeId(p), x);
    told(r, call_said::inode_of(r), 0)
}

fn read(image: &[u8], scratch: &mut [u32], n: u32, off: u64, x: &mut [u8]) -> Got {
    x.fill(UNREAD);
    let r = call_files::read(image, scratch, INodeId(n), off, x);
    told(r, call_said::count_of(r), made::sum(x))
}

fn write(f: Frame, image: &mut [u8], scratch: &mut [u32], x: &mut [u8]) -> Got {
    made::fill(x, f.seed);
    let r = call_files::write(image, scratch, INodeId(f.inode), f.at, x);
    told(r, call_said::count_of(r), 0)
}

fn create(f: Frame, image: &mut [u8], scratch: &mut [u32], x: &[u8]) -> Got {
    let r = call_dirs::create(image, scratch, INodeId(f.inode), x, f.other);
    told(r, call_said::inode_of(r), 0)
}

fn link(f: Frame, image: &mut [u8], scratch: &mut [u32], x: &[u8]) -> Got {
    let r = call_dirs::link(image, scratch, INodeId(f.inode), x, INodeId(f.other));
    told(r, 0, 0)
}

fn unlink(f: Frame, image: &mut [u8], scratch: &mut [u32], x: &[u8]) -> Got {
    let r = call_dirs::unlink(image, scratch, INodeId(f.inode), x);
    told(r, 0, 0)
}

fn move_(f: Frame, image: &mut [u8], scratch: &mut [u32], x: &[u8], y: &[u8]) -> Got {
    let r = call_dirs::move_(image, scratch, INodeId(f.inode), x, INodeId(f.other), y);
    told(r, 0, 0)
}

// The names that follow a call in the recording.
pub fn read_names(from: &mut impl Read, f: Frame, x: &mut [u8], y: &mut [u8]) -> io::Result<()> {
    if let Some(Op::Find | Op::Create | Op::Link | Op::Unlink | Op::Move) = f.op {
        input::read_full(from, x)?;
    }
    if let Some(Op::Move) = f.op {
        input::read_full(from, y)?;
    }
    Ok(())
}

// The calls that leave the card.
fn look(f: Frame, image: &[u8], scratch: &mut [u32], x: &mut [u8]) -> Got {
    match f.op {
        Some(Op::Check) => check(image, scratch),
        Some(Op::Metadata) => metadata(image, scratch, f.inode),
        Some(Op::Read) => read(image, scratch, f.inode, f.at, x),
        Some(Op::Find) => find(image, scratch, f.inode, x),
        Some(Op::Entry) => entry(image, scratch, f.inode, f.at),
        _ => nothing(),
    }
}

pub fn put(f: Frame, image: &mut [u8], scratch: &mut [u32], x: &mut [u8], y: &[u8]) -> Got {
    match f.op {
        Some(Op::Format) => told(call_dirs::format(image, f.at), 0, 0),
        Some(Op::Write) => write(f, image, scratch, x),
        Some(Op::Resize) => told(
            call_files::resize(image, scratch, INodeId(f.inode), f.at),
            0,
            0,
        ),
        Some(Op::Create) => create(f, image, scratch, x),
        Some(Op::Link) => link(f, image, scratch, x),
        Some(Op::Unlink) => unlink(f, image, scratch, x),
        Some(Op::Move) => move_(f, image, scratch, x, y),
        _ => look(f, image, scratch, x),
    }
}
