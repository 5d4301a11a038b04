// Which slot a call uses, and the order of use.
ghost use Rattle.std.specs.Prelude.{◌≡◌, ◌<◌, ◌*◌, ◌+◌};
ghost use Rattle.cache_order.specs.Slots.{slots_in};
ghost use Rattle.cache_order.specs.Order.{
  unused_at,
  holds,
  hit_of,
  spare_of,
  Found,
  older_of,
  oldest,
  room_of,
  slot_for,
  place_after,
  pushed,
  visited,
  named,
  entered,
  fresh_slot,
  read_status,
  sync_slots,
  clean_status,
};

use crate::Status;

#[tactic(auto, unfolding(crate::specs::Order::unused_at))]
fn unused(slots: &[u32], i: usize) -> bool
    requires { i < slots_in slots.now }
    ensures { result ≡ unused_at slots.now i }
{
    slots[3 * i] == Status::Unused as u32
}

#[tactic(auto, unfolding(crate::specs::Order::holds))]
pub fn holds_block(slots: &[u32], i: usize, block: u32) -> bool
    requires { i < slots_in slots.now }
    ensures { result ≡ holds slots.now block i }
{
    !unused(slots, i) && slots[3 * i + 1] == block
}

fn hit(slots: &[u32], block: u32) -> Option<usize>
    ensures { Found (hit_of slots.now block) (slots_in slots.now) result }
{
    (0..slots.len() / 3).find(|i| holds_block(slots, *i, block))
}

fn spare(slots: &[u32]) -> Option<usize>
    ensures { Found (spare_of slots.now) (slots_in slots.now) result }
{
    (0..slots.len() / 3).find(|i| unused(slots, *i))
}

// The one of two slots with the larger place.
#[tactic(auto, unfolding(crate::specs::Order::older_of))]
fn older(slots: &[u32], i: usize, j: usize) -> usize
    requires { (i < slots_in slots.now) × (j < slots_in slots.now) }
    ensures { result ≡ older_of slots.now i j }
{
    if slots[3 * i + 2] < slots[3 * j + 2] {
        j
    } else {
        i
    }
}

fn oldest_slot(slots: &[u32]) -> usize
    ensures { result ≡ oldest slots.now (slots_in slots.now) }
{
    let mut best = 0;
    for j in 0..slots.len() / 3 {
        best = older(slots, best, j);
    }
    best
}

fn room(slots: &[u32]) -> usize
    ensures { result ≡ room_of slots.now }
{
    spare(slots).unwrap_or_else(|| oldest_slot(slots))
}

pub fn slot_for(slots: &[u32], block: u32) -> usize
    ensures { result ≡ slot_for slots.now block }
{
    hit(slots, block).unwrap_or_else(|| room(slots))
}

#[tactic(auto, unfolding(crate::specs::Order::place_after))]
fn place_after(old: u32, p: u32) -> u32
    ensures { result ≡ place_after old p }
{
    if p < old { p + 1 } else { p }
}

fn push(slots: &mut [u32], old: u32)
    ensures { slots.new ≡ pushed slots.old old }
{
    for j in 0..slots.len() / 3 {
        let at = 3 * j + 2;
        slots[at] = place_after(old, slots[at]);
    }
}

#[tactic(auto, unfolding(crate::specs::Order::visited))]
fn visit(slots: &mut [u32], i: usize)
    requires { i < slots_in slots.old }
    ensures { slots.new ≡ visited slots.old i }
{
    let at = 3 * i + 2;
    let old = slots[at];
    push(slots, old);
    slots[at] = 0;
}

#[tactic(auto, unfolding(crate::specs::Order::named))]
fn name(slots: &mut [u32], i: usize, status: u32, block: u32)
    requires { i < slots_in slots.old }
    ensures { slots.new ≡ named slots.old i status block }
{
    let at = 3 * i;
    slots[at] = status;
    slots[at + 1] = block;
}

#[tactic(auto, unfolding(crate::specs::Order::fresh_slot))]
pub fn fresh(slots: &mut [u32], i: usize)
    requires { i < slots_in slots.old }
    ensures { slots.new ≡ fresh_slot i slots.old }
{
    name(slots, i, Status::Unused as u32, 0);
    slots[3 * i + 2] = (i % 4294967296) as u32;
}

#[tactic(auto, unfolding(crate::specs::Order::read_status))]
fn read_status(slots: &[u32], block: u32, i: usize) -> u32
    requires { i < slots_in slots.now }
    ensures { result ≡ read_status slots.now block i }
{
    if holds_block(slots, i, block) {
        slots[3 * i]
    } else {
        Status::Valid as u32
    }
}

// Slot i is visited, and is for the block. The status is a word, as C lent it: `enter_read` gives back what it read, in slots that nothing tested.
#[tactic(auto, unfolding(crate::specs::Order::entered))]
pub fn enter(slots: &mut [u32], i: usize, status: u32, block: u32)
    requires { i < slots_in slots.old }
    ensures { slots.new ≡ entered slots.old i status block }
{
    visit(slots, i);
    name(slots, i, status, block);
}

pub fn enter_read(slots: &mut [u32], block: u32, i: usize)
    requires { i < slots_in slots.old }
    ensures { slots.new ≡ entered slots.old i (read_status slots.old block i) block }
{
    let status = read_status(slots, block, i);
    enter(slots, i, status, block);
}

#[tactic(auto, unfolding(crate::specs::Order::clean_status))]
fn clean_status(s: u32) -> u32
    ensures { result ≡ clean_status s }
{
    if s == Status::Dirty as u32 {
        Status::Valid as u32
    } else {
        s
    }
}

// Every dirty slot is valid.
pub fn clean(slots: &mut [u32])
    ensures { slots.new ≡ sync_slots slots.old }
{
    for i in 0..slots.len() / 3 {
        let at = 3 * i;
        slots[at] = clean_status(slots[at]);
    }
}
