// What every call tests before it changes anything (request 11: 12).
ghost use Rattle.std.specs.Prelude.{◌<◌, ◌*◌, ◌+◌};
ghost use Rattle.words.specs.Inner.{Tells};
ghost use Rattle.cache_order.specs.Slots.{slots_in, Inside, Fits, Differ, Sizes, AllFit, Alone, AllApart, Sound, Fit, Marked};

use crate::Status;

// 2 to 64 slots, with their data.
fn sized(slots: &[u32], bytes: &[u8]) -> bool
    ensures { Tells result (Sizes slots.now bytes.now) }
{
    let n = slots.len() / 3;
    slots.len() % 3 == 0 && 2 <= n && n <= 64 && bytes.len() == 4096 * n
}

fn inside(device: &[u8], block: u32) -> bool
    ensures { Tells result (Inside device.now block) }
{
    4096 * (block as usize) + 4096 <= device.len()
}

fn slot_fits(slots: &[u32], device: &[u8], i: usize) -> bool
    requires { i < slots_in slots.now }
    ensures { Tells result (Fits slots.now device.now i) }
{
    let at = 3 * i;
    match Status::try_from(slots[at]) {
        Ok(Status::Unused) => true,
        Ok(_) => inside(device, slots[at + 1]),
        Err(_) => false,
    }
}

fn all_fit(slots: &[u32], device: &[u8]) -> bool
    ensures { Tells result (AllFit slots.now device.now) }
{
    (0..slots.len() / 3).all(|i| slot_fits(slots, device, i))
}

// Slots i and j, by their places and, where both are used, their blocks.
fn two_apart(slots: &[u32], i: usize, j: usize) -> bool
    requires { (i < slots_in slots.now) × (j < slots_in slots.now) }
    ensures { Tells result (Differ slots.now i j) }
{
    let unused = Status::Unused as u32;
    let a = 3 * i;
    let b = 3 * j;
    slots[a + 2] != slots[b + 2]
        && (slots[a] == unused || slots[b] == unused || slots[a + 1] != slots[b + 1])
}

fn alone(slots: &[u32], j: usize) -> bool
    requires { j < slots_in slots.now }
    ensures { Tells result (Alone slots.now j) }
{
    (0..j).all(|i| two_apart(slots, i, j))
}

// The same as `alone`, with two tables that have a mark for each slot before j: where slot j's own entries are free no slot is compared.
fn alone_by(places: &[u8; 256], blocks: &[u8; 1024], slots: &[u32], j: usize) -> bool
    requires { (j < slots_in slots.now) × Marked places.now blocks.now slots.now j }
    ensures { Tells result (Alone slots.now j) }
{
    let at = 3 * j;
    let p = (slots[at + 2] % 256) as usize;
    let b = (slots[at + 1] % 1024) as usize;
    let free = places[p] == 0 && (slots[at] == Status::Unused as u32 || blocks[b] == 0);
    free || alone(slots, j)
}

fn all_apart(slots: &[u32]) -> bool
    ensures { Tells result (AllApart slots.now) }
{
    let mut places = [0u8; 256];
    let mut blocks = [0u8; 1024];
    for j in 0..slots.len() / 3 {
        if !alone_by(&places, &blocks, slots, j) {
            return false;
        }
        let at = 3 * j;
        places[(slots[at + 2] % 256) as usize] = 1;
        blocks[(slots[at + 1] % 1024) as usize] = 1;
    }
    true
}

pub fn sound(slots: &[u32], bytes: &[u8], device: &[u8]) -> bool
    ensures { Tells result (Sound slots.now bytes.now device.now) }
{
    sized(slots, bytes) && all_fit(slots, device) && all_apart(slots)
}

pub fn fit(slots: &[u32], bytes: &[u8], device: &[u8], block: u32, buf: &[u8]) -> bool
    ensures { Tells result (Fit slots.now bytes.now device.now block buf.now) }
{
    buf.len() == 4096 && inside(device, block) && sound(slots, bytes, device)
}
