// Where a file block's number is kept, and how many blocks a file owns.
ghost use Rattle.std.specs.Prelude.{◌≡◌, ◌≤◌};
ghost use Rattle.card_layout.specs.Slots.{slot_of, seconds, owned};

// A slot: one of the record, one of the indirect block, one of a block of the second level, or none. None is an arm of the one match that RULES'
// "Required forms by place" names, and no Option around it.
#[derive(Clone, Copy, Debug, PartialEq, Eq)]
pub enum Slot {
    Direct(usize),
    Indirect(usize),
    Double(usize, usize),
    Past,
}

pub fn slot_of(i: usize) -> Slot
    ensures { result ≡ slot_of i }
{
    match i {
        0..=11 => Slot::Direct(i),
        12..=1035 => Slot::Indirect(i - 12),
        1036..=1049611 => Slot::Double((i - 1036) / 1024, (i - 1036) % 1024),
        _ => Slot::Past,
    }
}

// How many blocks of the second level a file of b blocks has.
pub fn seconds_of(b: usize) -> usize
    requires { b ≤ 4294967295 }
    ensures { result ≡ seconds b }
{
    if b < 1036 {
        return 0;
    }
    1 + (b - 1036) / 1024
}

// N(b), for any count that a record can have.
pub fn blocks_owned(b: usize) -> usize
    requires { b ≤ 4294967295 }
    ensures { result ≡ owned b }
{
    if b < 12 {
        return b;
    }
    if b < 1036 {
        return b + 1;
    }
    b + 1 + (2 + (b - 1036) / 1024)
}
