// The bytes: blocks between the device and the data of the slots. Slots, data and device stay three parameters: a struct that lends all three would have to
// say in each contract which slice each field lends, and a sync's data are lent to be read only.
ghost use Rattle.std.specs.Prelude.{◌≡◌, ◌<◌, ◌≤◌, ◌*◌, ◌+◌, length};
ghost use Rattle.cache_order.specs.Slots.{slots_in, Inside, Sound, Fit};
ghost use Rattle.cache.specs.Effects.{flushed, roomed, loaded, Fetched, Stored, sync_device};

use cache_order::{Status, order};

// Slot i is written back, where it is dirty.
#[tactic(auto, unfolding(crate::specs::Effects::flushed))]
fn flush(slots: &[u32], bytes: &[u8], device: &mut [u8], i: usize)
    requires { Sound slots.now bytes.now device.old × (i < slots_in slots.now) }
    ensures { device.new ≡ flushed slots.now bytes.now device.old i }
{
    let at = 3 * i;
    if slots[at] == Status::Dirty as u32 {
        let to = 4096 * (slots[at + 1] as usize);
        words::copy(bytes, 4096 * i, device, to, 4096);
    }
}

// Slot i gives way to the block: it is written back, where it has another that is dirty.
#[tactic(auto, unfolding(crate::specs::Effects::roomed))]
fn make_room(slots: &[u32], bytes: &[u8], device: &mut [u8], block: u32, i: usize)
    requires { Sound slots.now bytes.now device.old × (i < slots_in slots.now) }
    ensures { device.new ≡ roomed slots.now bytes.now device.old block i }
{
    if !order::holds_block(slots, i, block) {
        flush(slots, bytes, device, i);
    }
}

// Slot i has the block: it comes from the device, where the slot has another.
#[tactic(auto, unfolding(crate::specs::Effects::loaded))]
fn load(slots: &[u32], bytes: &mut [u8], device: &[u8], block: u32, i: usize)
    requires { (i < slots_in slots.now) × (4096 * i + 4096 ≤ length bytes.old) × Inside device.now block }
    ensures { bytes.new ≡ loaded slots.now bytes.old device.now block i }
{
    if !order::holds_block(slots, i, block) {
        words::copy(device, 4096 * (block as usize), bytes, 4096 * i, 4096);
    }
}

// Slot i has the block, and so has the buffer.
pub fn fetch(
    slots: &[u32],
    bytes: &mut [u8],
    device: &mut [u8],
    block: u32,
    i: usize,
    buf: &mut [u8],
)
    requires { Fit slots.now bytes.old device.old block buf.old × (i < slots_in slots.now) }
    ensures { Fetched slots.now bytes.old bytes.new device.old device.new block i
        buf.old buf.new }
{
    make_room(slots, bytes, device, block, i);
    load(slots, bytes, device, block, i);
    words::copy(bytes, 4096 * i, buf, 0, 4096);
}

// Slot i has the buffer's bytes.
pub fn store(slots: &[u32], bytes: &mut [u8], device: &mut [u8], block: u32, i: usize, buf: &[u8])
    requires { Fit slots.now bytes.old device.old block buf.now × (i < slots_in slots.now) }
    ensures { Stored slots.now bytes.old bytes.new device.old device.new block i
        buf.now }
{
    make_room(slots, bytes, device, block, i);
    words::copy(buf, 0, bytes, 4096 * i, 4096);
}

// Every dirty slot is written back.
pub fn flush_all(slots: &[u32], bytes: &[u8], device: &mut [u8])
    requires { Sound slots.now bytes.now device.old }
    ensures { device.new ≡ sync_device slots.now bytes.now device.old }
{
    for i in 0..slots.len() / 3 {
        flush(slots, bytes, device, i);
    }
}
