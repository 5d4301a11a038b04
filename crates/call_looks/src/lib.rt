// Find, the entry at an index, and what an inode is: the card is opened for the inode, and nothing changes.
#![tactic(auto)]

ghost use Rattle.std.specs.Prelude.{◌≡◌};
ghost use Rattle.card_layout.specs.Inode.{kind_no};
ghost use Rattle.call_said.specs.Said.{plain, numbered};
ghost use Rattle.call_looks.specs.LookCalls.{Found, Listed, Described, field};
ghost use Rattle.dir_look.specs.Look.{bytes_of};

use card_layout::inode::FileType;
use card_layout::{DIRENT_SIZE, INodeId, inode};
use dir_look;
use refusals::Refusal;

pub fn find(image: &[u8], scratch: &mut [u32], p: INodeId, x: &[u8]) -> Result<INodeId, Refusal>
    ensures { Found image.now scratch.old scratch.new p.0 x.now (numbered result) }
{
    check_walk::open_card(image, scratch, p, p)?;
    dir_look::find(image, p, x)
}

// The bytes of an entry.
pub fn entry(
    image: &[u8],
    scratch: &mut [u32],
    p: INodeId,
    k: u64,
) -> Result<[u8; DIRENT_SIZE], Refusal>
    ensures { Listed image.now scratch.old scratch.new p.0 k (plain result) (bytes_of result) }
{
    check_walk::open_card(image, scratch, p, p)?;
    dir_look::entry_at(image, p, k)
}

// What an inode is.
#[derive(Clone, Copy, Debug, PartialEq, Eq)]
pub struct Description {
    pub kind: FileType,
    pub size: u32,
    pub blocks: u32,
    pub links: u16,
}

pub fn metadata(image: &[u8], scratch: &mut [u32], n: INodeId) -> Result<Description, Refusal>
    ensures { Described image.now scratch.old scratch.new n.0 (plain result)
        (field result (λ m. kind_no m.kind)) (field result (λ m. m.size)) (field result (λ m. m.blocks)) (field result (λ m. m.links)) }
{
    check_walk::open_card(image, scratch, n, n)?;
    let Some(h) = inode::decode(image, n) else {
        return Err(Refusal::Damaged);
    };
    Ok(Description {
        kind: h.type_,
        size: h.size,
        blocks: h.blocks,
        links: h.nlinks,
    })
}
