// What C is told of an answer: a number, and a value behind a pointer where it has one.
#![tactic(auto)]

ghost use Rattle.std.specs.Prelude.{◌≡◌};
ghost use Rattle.refusals.specs.Refusals.{answer_no};
ghost use Rattle.call_said.specs.Said.{said_value, numbered};

use card_layout::INodeId;
use refusals::Refusal;

// RULES' number of an answer: 0 where it is done.
pub fn number_of<T: Copy>(r: Result<T, Refusal>) -> u32
    ensures { result ≡ answer_no r }
{
    match r {
        Ok(_) => 0,
        Err(e) => refusals::refusal_no(e),
    }
}

// Its value, the count or the inode's number: 0 where it is refused.
pub fn count_of(r: Result<u32, Refusal>) -> u32
    ensures { result ≡ said_value r }
{
    r.unwrap_or(0)
}

pub fn inode_of(r: Result<INodeId, Refusal>) -> u32
    ensures { result ≡ said_value (numbered r) }
{
    r.map_or(0, |n| n.0)
}
