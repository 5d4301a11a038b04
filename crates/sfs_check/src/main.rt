// Reads a card of at most 65,536 bytes from standard input, and prints the line of its check.
#![tactic(auto)]

use std::io;
use std::io::Write;

fn main(rt: HostRuntime) -> io::Result<()> {
    let mut image = [0u8; 65536];
    let n = input::read_full(&mut rt.reader(), &mut image)?;
    // 65,536 bytes hold at most 16 blocks.
    let mut scratch = [0u32; 64];
    let r = check_walk::check(&image[..n], &mut scratch);
    let mut line = [0u8; check_line::LINE_ROOM];
    let m = check_line::check_line(r, &mut line);
    io::writer(&rt).write_all(&line[..m])
}
