// Little-endian numbers at a place of a lent byte slice, and runs of bytes.
#![tactic(auto)]

ghost use Rattle.std.specs.Prelude.{◌≡◌, ℕ, ◌+◌, ◌≤◌, length};
ghost use Rattle.words.specs.Words.{num, half, word, long, put_num, put_half, put_word, put_long};
ghost use Rattle.words.specs.Runs.{copied, zeroed};

// A number of some width that a slice has at a place, low byte first.
pub trait Number: Copy {
    // How many bytes it has, and what it says.
    ghost width: { ℕ };

    ghost value: { Self → ℕ };

    fn get(image: &[u8], at: usize) -> Self
        requires { at + width ≤ length image.now }
        ensures { value result ≡ num width image.now at };

    fn put(self, image: &mut [u8], at: usize)
        requires { at + width ≤ length image.old }
        ensures { image.new ≡ put_num width image.old at (value self) };
}

#[tactic(auto, unfolding(crate::specs::Words::num, crate::specs::Words::put_num))]
impl Number for u16 {
    ghost width = { 2 };

    ghost value = { λ v. v };

    fn get(image: &[u8], at: usize) -> u16
        requires { at + 2 ≤ length image.now }
        ensures { result ≡ half image.now at }
    {
        u16::from_le_bytes([image[at], image[at + 1]])
    }

    fn put(self, image: &mut [u8], at: usize)
        requires { at + 2 ≤ length image.old }
        ensures { image.new ≡ put_half image.old at self }
    {
        let [a, b] = self.to_le_bytes();
        image[at] = a;
        image[at + 1] = b;
    }
}

#[tactic(auto, unfolding(crate::specs::Words::num, crate::specs::Words::put_num))]
impl Number for u32 {
    ghost width = { 4 };

    ghost value = { λ v. v };

    fn get(image: &[u8], at: usize) -> u32
        requires { at + 4 ≤ length image.now }
        ensures { result ≡ word image.now at }
    {
        u32::from_le_bytes([image[at], image[at + 1], image[at + 2], image[at + 3]])
    }

    fn put(self, image: &mut [u8], at: usize)
        requires { at + 4 ≤ length image.old }
        ensures { image.new ≡ put_word image.old at self }
    {
        let [a, b, c, d] = self.to_le_bytes();
        image[at] = a;
        image[at + 1] = b;
        image[at + 2] = c;
        image[at + 3] = d;
    }
}

#[tactic(auto, unfolding(crate::specs::Words::num, crate::specs::Words::put_num))]
impl Number for u64 {
    ghost width = { 8 };

    ghost value = { λ v. v };

    fn get(image: &[u8], at: usize) -> u64
        requires { at + 8 ≤ length image.now }
        ensures { result ≡ long image.now at }
    {
        u64::from_le_bytes([
            image[at],
            image[at + 1],
            image[at + 2],
            image[at + 3],
            image[at + 4],
            image[at + 5],
            image[at + 6],
            image[at + 7],
        ])
    }

    fn put(self, image: &mut [u8], at: usize)
        requires { at + 8 ≤ length image.old }
        ensures { image.new ≡ put_long image.old at self }
    {
        let [a, b, c, d, e, f, g, h] = self.to_le_bytes();
        image[at] = a;
        image[at + 1] = b;
        image[at + 2] = c;
        image[at + 3] = d;
        image[at + 4] = e;
        image[at + 5] = f;
        image[at + 6] = g;
        image[at + 7] = h;
    }
}

// 16 bytes. All are read before any is written, so that the compiler makes one load and one store of them without asking whether the two slices overlap. By
// copy_from_slice it would call C's memmove, which a program without the C library has not.
fn copy16(src: &[u8], from: usize, dst: &mut [u8], at: usize)
    requires { (from + 16 ≤ length src.now) × (at + 16 ≤ length dst.old) }
    ensures { dst.new ≡ copied dst.old at src.now from 16 }
{
    let a = u64::get(src, from);
    let b = u64::get(src, from + 8);
    a.put(dst, at);
    b.put(dst, at + 8);
}

fn copy64(src: &[u8], from: usize, dst: &mut [u8], at: usize)
    requires { (from + 64 ≤ length src.now) × (at + 64 ≤ length dst.old) }
    ensures { dst.new ≡ copied dst.old at src.now from 64 }
{
    copy16(src, from, dst, at);
    copy16(src, from + 16, dst, at + 16);
    copy16(src, from + 32, dst, at + 32);
    copy16(src, from + 48, dst, at + 48);
}

// As many of n bytes as whole steps of 128 take: the answer.
fn copy_steps(src: &[u8], from: usize, dst: &mut [u8], at: usize, n: usize) -> usize
    requires { (from + n ≤ length src.now) × (at + n ≤ length dst.old) }
    ensures { (result ≤ n) × (dst.new ≡ copied dst.old at src.now from result) }
{
    let steps = n / 128;
    for q in 0..steps {
        let j = 128 * q;
        copy64(src, from + j, dst, at + j);
        let k = j + 64;
        copy64(src, from + k, dst, at + k);
    }
    128 * steps
}

// The same by steps of 16: fewer than 16 bytes are left.
fn copy_rest(src: &[u8], from: usize, dst: &mut [u8], at: usize, n: usize) -> usize
    requires { (from + n ≤ length src.now) × (at + n ≤ length dst.old) }
    ensures { (result ≤ n) × (n ≤ result + 15) × (dst.new ≡ copied dst.old at src.now from result) }
{
    let steps = n / 16;
    for q in 0..steps {
        let j = 16 * q;
        copy16(src, from + j, dst, at + j);
    }
    16 * steps
}

fn copy_bytes(src: &[u8], from: usize, dst: &mut [u8], at: usize, n: usize)
    requires { (from + n ≤ length src.now) × (at + n ≤ length dst.old) }
    ensures { dst.new ≡ copied dst.old at src.now from n }
{
    for j in 0..n {
        dst[at + j] = src[from + j];
    }
}

// The n bytes of src from `from` on go to dst from `at` on. The last 16 are copied once more where some of them are left.
pub fn copy(src: &[u8], from: usize, dst: &mut [u8], at: usize, n: usize)
    requires { (from + n ≤ length src.now) × (at + n ≤ length dst.old) }
    ensures { dst.new ≡ copied dst.old at src.now from n }
{
    if n < 16 {
        copy_bytes(src, from, dst, at, n);
        return;
    }
    let k = copy_steps(src, from, dst, at, n);
    let j = copy_rest(src, from + k, dst, at + k, n - k);
    if k + j < n {
        let e = n - 16;
        copy16(src, from + e, dst, at + e);
    }
}

// n zeros go to dst from `at` on.
pub fn zero(dst: &mut [u8], at: usize, n: usize)
    requires { at + n ≤ length dst.old }
    ensures { dst.new ≡ zeroed dst.old at n }
{
    dst[at..at + n].fill(0);
}
