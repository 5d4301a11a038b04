// The slots of the block cache as a lent list of records: which one holds a block, the order of use, and the calls. One record by value is asked and
// changed by functions of its own; the others walk the list. Slots, data and device stay three parameters, as in cache.
#![tactic(auto)]

ghost use Rattle.std.specs.Prelude.{◌≡◌, ◌+◌, ◌*◌, ◌<◌, ◌≤◌, length, get_or, set, MatchResult};
ghost use Rattle.refusals.specs.Refusals.{answer_no};
ghost use Rattle.cache_order.specs.Order.{Found};
ghost use Rattle.cache_slots.specs.Slots.{none, holds_of, later_of, front_of, find_of, visited, touched};
ghost use Rattle.cache_slots.specs.Plain.{few, put_of, slot_of, load_to, spread_to, words_of, PlainRead, PlainWrite, PlainSync};
ghost use Rattle.cache.specs.Calls.{ReadCall, WriteCall, SyncCall};

pub use cache_order::Status;
use refusals::Refusal;

#[derive(Clone, Copy, Debug, PartialEq, Eq)]
pub struct Slot {
    pub status: Status,
    pub block: u32,
    pub order: u32,
}

// A used slot with that block.
pub fn holds(s: Slot, block: u32) -> bool
    ensures { result ≡ holds_of s block }
{
    s.status != Status::Unused && s.block == block
}

// One place back, where the slot was nearer than old.
pub fn later(s: Slot, old: u32) -> Slot
    ensures { result ≡ later_of s old }
{
    if s.order < old {
        Slot {
            order: s.order + 1,
            ..s
        }
    } else {
        s
    }
}

// The slot at the front.
pub fn front(s: Slot) -> Slot
    ensures { result ≡ front_of s }
{
    Slot { order: 0, ..s }
}

pub fn get(slots: &[Slot], i: usize) -> Slot
    requires { i < length slots.now }
    ensures { result ≡ get_or slots.now i none }
{
    slots[i]
}

pub fn set(slots: &mut [Slot], i: usize, s: Slot)
    requires { i < length slots.old }
    ensures { slots.new ≡ set slots.old i s }
{
    slots[i] = s;
}

pub fn find(slots: &[Slot], block: u32) -> Option<usize>
    ensures { Found (find_of slots.now block) (length slots.now) result }
{
    slots.iter().position(|s| holds(*s, block))
}

#[tactic(auto, unfolding(crate::specs::Slots::visited))]
pub fn visit(slots: &mut [Slot], i: usize)
    requires { i < length slots.old }
    ensures { slots.new ≡ visited slots.old i }
{
    let s = slots[i];
    for t in slots.iter_mut() {
        *t = later(*t, s.order);
    }
    slots[i] = front(s);
}

// A hit: the slot with that block comes to the front.
#[tactic(auto, using(crate::proofs::Laws::touched_hit, crate::proofs::Laws::touched_miss))]
pub fn touch(slots: &mut [Slot], block: u32) -> Option<usize>
    ensures found { Found (find_of slots.old block) (length slots.old) result }
    ensures slots { slots.new ≡ touched slots.old block }
{
    let i = find(slots, block)?;
    visit(slots, i);
    Some(i)
}

// The slots as plain words: three for each of the first 64, and the number of slots. The words are no Vec: the library has no heap.
#[derive(Clone, Copy, Debug, PartialEq, Eq)]
pub struct Plain {
    pub words: [u32; 192],
    pub count: usize,
}

#[tactic(auto, unfolding(crate::specs::Plain::put_of))]
fn put(a: &mut Plain, i: usize, s: Slot)
    requires { i < 64 }
    ensures { a.new ≡ put_of a.old i s }
{
    let at = 3 * i;
    a.words[at] = u32::from(s.status);
    a.words[at + 1] = s.block;
    a.words[at + 2] = s.order;
}

fn slot_of(a: &Plain, i: usize) -> Slot
    requires { i < 64 }
    ensures { result ≡ slot_of a.now i }
{
    let at = 3 * i;
    Slot {
        status: Status::try_from(a.words[at]).unwrap_or(Status::Unused),
        block: a.words[at + 1],
        order: a.words[at + 2],
    }
}

// The slots as words.
pub fn to_words(slots: &[Slot]) -> Plain
    ensures { result ≡ load_to slots.now (few (length slots.now)) }
{
    let mut a = Plain {
        words: [0; 192],
        count: slots.len(),
    };
    for i in 0..slots.len().min(64) {
        put(&mut a, i, slots[i]);
    }
    a
}

// The words as slots.
pub fn from_words(slots: &mut [Slot], a: Plain)
    ensures { slots.new ≡ spread_to slots.old a (few (length slots.old)) }
{
    for j in 0..slots.len().min(64) {
        slots[j] = slot_of(&a, j);
    }
}

// How many words the slots have; more than 64 slots are refused.
fn word_count(a: &Plain) -> Result<usize, Refusal>
    ensures { MatchResult result (λ n. (a.now.count ≤ 64) × (n ≡ 3 * a.now.count))
        (λ e. (64 < a.now.count) × (e ≡ Refusal.InvalidParam)) }
{
    if a.count <= 64 {
        Ok(3 * a.count)
    } else {
        Err(Refusal::InvalidParam)
    }
}

// A read over the words.
pub fn read_plain(
    device: &mut [u8],
    bytes: &mut [u8],
    a: &mut Plain,
    block: u32,
    buf: &mut [u8],
) -> Result<(), Refusal>
    ensures { PlainRead a.old a.new bytes.old bytes.new device.old device.new block
        buf.old buf.new (answer_no result) }
{
    let n = word_count(a)?;
    cache::read(device, bytes, &mut a.words[..n], block, buf)
}

// A write over the words.
pub fn write_plain(
    device: &mut [u8],
    bytes: &mut [u8],
    a: &mut Plain,
    block: u32,
    buf: &[u8],
) -> Result<(), Refusal>
    ensures { PlainWrite a.old a.new bytes.old bytes.new device.old device.new block
        buf.now (answer_no result) }
{
    let n = word_count(a)?;
    cache::write(device, bytes, &mut a.words[..n], block, buf)
}

// A sync over the words.
pub fn sync_plain(device: &mut [u8], bytes: &[u8], a: &mut Plain) -> Result<(), Refusal>
    ensures { PlainSync a.old a.new bytes.now device.old device.new (answer_no result) }
{
    let n = word_count(a)?;
    cache::sync(device, bytes, &mut a.words[..n])
}

// Reads a block of the device through the cache, over records.
pub fn read(
    device: &mut [u8],
    bytes: &mut [u8],
    slots: &mut [Slot],
    block: u32,
    buf: &mut [u8],
) -> Result<(), Refusal>
    ensures { ReadCall (words_of slots.old) (words_of slots.new) bytes.old bytes.new
        device.old device.new block buf.old buf.new (answer_no result) }
{
    let mut a = to_words(slots);
    read_plain(device, bytes, &mut a, block, buf)?;
    from_words(slots, a);
    Ok(())
}

// Writes a block of the device through the cache, over records.
pub fn write(
    device: &mut [u8],
    bytes: &mut [u8],
    slots: &mut [Slot],
    block: u32,
    buf: &[u8],
) -> Result<(), Refusal>
    ensures { WriteCall (words_of slots.old) (words_of slots.new) bytes.old bytes.new
        device.old device.new block buf.now (answer_no result) }
{
    let mut a = to_words(slots);
    write_plain(device, bytes, &mut a, block, buf)?;
    from_words(slots, a);
    Ok(())
}

// Writes every dirty block back, over records.
pub fn sync(device: &mut [u8], bytes: &[u8], slots: &mut [Slot]) -> Result<(), Refusal>
    ensures { SyncCall (words_of slots.old) (words_of slots.new) bytes.now
        device.old device.new (answer_no result) }
{
    let mut a = to_words(slots);
    sync_plain(device, bytes, &mut a)?;
    from_words(slots, a);
    Ok(())
}
