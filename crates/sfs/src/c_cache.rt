// The block cache as C calls it (include/sfs.h): slots, data, device and buffer are lent for the call.
ghost use Rattle.std.specs.Prelude.{◌≡◌};
ghost use Rattle.cache_order.specs.Order.{started};
ghost use Rattle.cache.specs.Calls.{ReadCall, WriteCall, SyncCall};

use call_said;

#[unsafe(no_mangle)]
pub extern "C" fn sfs_cache_start(slots: &mut [u32])
    ensures { slots.new ≡ started slots.old }
{
    cache::start(slots);
}

#[unsafe(no_mangle)]
pub extern "C" fn sfs_cache_read(
    device: &mut [u8],
    bytes: &mut [u8],
    slots: &mut [u32],
    block: u32,
    buf: &mut [u8],
) -> u32
    ensures { ReadCall slots.old slots.new bytes.old bytes.new device.old
        device.new block buf.old buf.new result }
{
    call_said::number_of(cache::read(device, bytes, slots, block, buf))
}

#[unsafe(no_mangle)]
pub extern "C" fn sfs_cache_write(
    device: &mut [u8],
    bytes: &mut [u8],
    slots: &mut [u32],
    block: u32,
    buf: &[u8],
) -> u32
    ensures { WriteCall slots.old slots.new bytes.old bytes.new device.old
        device.new block buf.now result }
{
    call_said::number_of(cache::write(device, bytes, slots, block, buf))
}

#[unsafe(no_mangle)]
pub extern "C" fn sfs_cache_sync(device: &mut [u8], bytes: &[u8], slots: &mut [u32]) -> u32
    ensures { SyncCall slots.old slots.new bytes.now device.old device.new result }
{
    call_said::number_of(cache::sync(device, bytes, slots))
}
