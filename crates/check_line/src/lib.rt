// The line that tells a check's answer, in a lent buffer. It is put by hand: `write!` says of its text only what holds where it answers Ok, and that it may
// fail, where `check_line` promises the line.
#![tactic(auto)]

ghost use Rattle.std.specs.Prelude.{◌≡◌, ◌+◌, ◌≤◌, length, take};
ghost use Rattle.check_line.specs.Line.{decimal, check_line, put_at, line_room, line_length, lined};

use check_walk::Counts;
use refusals::Refusal;

// The room that a line is given.
pub const LINE_ROOM: usize = 64;

// How many decimal digits n has. By while: the library has no ilog10.
fn width(n: u32) -> usize
    ensures { (result ≡ length (decimal n)) × (result ≤ 10) }
{
    let mut k = 1;
    let mut rest = n;
    while 9 < rest {
        rest /= 10;
        k += 1;
    }
    k
}

// Each of the next two puts its bytes at `at`, and answers the place behind them.
fn put_text(text: &[u8], out: &mut [u8], at: usize) -> usize
    requires { at + length text.now ≤ length out.old }
    ensures { (result ≡ at + length text.now) × (out.new ≡ put_at out.old at text.now) }
{
    let n = text.len();
    words::copy(text, 0, out, at, n);
    at + n
}

// The digits go from the last to the first, which is rest % 10 too.
fn put_number(n: u32, out: &mut [u8], at: usize) -> usize
    requires { at + 10 ≤ length out.old }
    ensures { (result ≡ at + length (decimal n)) × (result ≤ at + 10) × (out.new ≡ put_at out.old at (decimal n)) }
{
    let end = at + width(n);
    let mut rest = n;
    for i in (at..end).rev() {
        out[i] = b'0' + (rest % 10) as u8;
        rest /= 10;
    }
    end
}

fn put_line(status: u32, blocks: u32, unused: u32, out: &mut [u8]) -> usize
    requires { line_room ≤ length out.old }
    ensures value { (result ≡ length (check_line status blocks unused)) × (result ≤ line_room) }
    ensures out_after { out.new ≡ put_at out.old 0 (check_line status blocks unused) }
{
    let a = put_text(b"status ", out, 0);
    let b = put_number(status, out, a);
    let c = put_text(b" blocks ", out, b);
    let d = put_number(blocks, out, c);
    let e = put_text(b" free ", out, d);
    let f = put_number(unused, out, e);
    put_text(b"\n", out, f)
}

// Puts the line of an answer at the start of out, and answers its length: 0, and nothing is put, where out has less than LINE_ROOM bytes, as
// `line_length` says, and no Option. The last clause is there so that a caller's &out[..n] needs no proof.
pub fn check_line(r: Result<Counts, Refusal>, out: &mut [u8]) -> usize
    ensures value { result ≡ line_length r out.old }
    ensures out_after { out.new ≡ lined r out.old }
    ensures upper_bound { (result ≤ length out.new) × (result ≡ length (take result out.new)) }
{
    if out.len() < LINE_ROOM {
        return 0;
    }
    match r {
        Ok(c) => put_line(0, c.blocks, c.unused, out),
        Err(e) => put_line(refusals::refusal_no(e), 0, 0, out),
    }
}
