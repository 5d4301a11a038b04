// The slots of the block cache, three words each: what every call tests of them, which slot a call uses, and the order of use.
#![tactic(auto)]

ghost use Rattle.std.specs.Prelude.{◌≡◌};
ghost use Rattle.cache_order.specs.Status.{StatusOf, status_no};

use refusals::Refusal;

pub mod judge;
pub mod order;

// What the first word of a slot says. The slots stay the words that C lends: a call that is refused leaves a word that is no status as it was.
#[derive(Clone, Copy, Debug, PartialEq, Eq)]
pub enum Status {
    Unused = 0,
    Valid = 1,
    Dirty = 2,
}

impl From<Status> for u32 {
    ghost from_gives = { λ s word. word ≡ status_no s };

    fn from(status: Status) -> u32 {
        status as u32
    }
}

impl TryFrom<u32> for Status {
    type Error = Refusal;

    ghost try_from_gives = { StatusOf };

    fn try_from(word: u32) -> Result<Self, Refusal> {
        match word {
            0 => Ok(Status::Unused),
            1 => Ok(Status::Valid),
            2 => Ok(Status::Dirty),
            _ => Err(Refusal::InvalidParam),
        }
    }
}
