// The block cache of rcore-fs (block_cache.rs), over lent words and bytes: read, write and sync of blocks of a device.
#![tactic(auto)]

ghost use Rattle.std.specs.Prelude.{◌≡◌};
ghost use Rattle.refusals.specs.Refusals.{answer_no};
ghost use Rattle.cache_order.specs.Order.{started};
ghost use Rattle.cache.specs.Calls.{ReadCall, WriteCall, SyncCall};

use cache_order::{Status, judge, order};
use refusals::Refusal;

mod blocks;

// All slots unused, at places 0, 1, ..
pub fn start(slots: &mut [u32])
    ensures { slots.new ≡ started slots.old }
{
    for i in 0..slots.len() / 3 {
        order::fresh(slots, i);
    }
}

// Reads a block of the device through the cache.
pub fn read(
    device: &mut [u8],
    bytes: &mut [u8],
    slots: &mut [u32],
    block: u32,
    buf: &mut [u8],
) -> Result<(), Refusal>
    ensures { ReadCall slots.old slots.new bytes.old bytes.new device.old
        device.new block buf.old buf.new (answer_no result) }
{
    if !judge::fit(slots, bytes, device, block, buf) {
        return Err(Refusal::InvalidParam);
    }
    let i = order::slot_for(slots, block);
    blocks::fetch(slots, bytes, device, block, i, buf);
    order::enter_read(slots, block, i);
    Ok(())
}

// Writes a block of the device through the cache.
pub fn write(
    device: &mut [u8],
    bytes: &mut [u8],
    slots: &mut [u32],
    block: u32,
    buf: &[u8],
) -> Result<(), Refusal>
    ensures { WriteCall slots.old slots.new bytes.old bytes.new device.old
        device.new block buf.now (answer_no result) }
{
    if !judge::fit(slots, bytes, device, block, buf) {
        return Err(Refusal::InvalidParam);
    }
    let i = order::slot_for(slots, block);
    blocks::store(slots, bytes, device, block, i, buf);
    order::enter(slots, i, Status::Dirty as u32, block);
    Ok(())
}

// Writes every dirty block back.
pub fn sync(device: &mut [u8], bytes: &[u8], slots: &mut [u32]) -> Result<(), Refusal>
    ensures { SyncCall slots.old slots.new bytes.now device.old device.new (answer_no result) }
{
    if !judge::sound(slots, bytes, device) {
        return Err(Refusal::InvalidParam);
    }
    blocks::flush_all(slots, bytes, device);
    order::clean(slots);
    Ok(())
}
