// The calls that change directories: the card is opened for the inodes, and then the request is made of it. Format asks nothing of the bytes.
// The kind of what is created is the caller's number, which may be none.
#![tactic(auto)]

ghost use Rattle.call_said.specs.Said.{plain, numbered};
ghost use Rattle.call_dirs.specs.DirCalls.{Created, Linked, Unlinked, Moved, Formatted};

use card_layout::INodeId;
use dir_create;
use dir_format;
use dir_link;
use dir_move;
use dir_unlink;
use refusals::Refusal;

pub fn create(
    image: &mut [u8],
    scratch: &mut [u32],
    p: INodeId,
    x: &[u8],
    kind: u32,
) -> Result<INodeId, Refusal>
    ensures { Created image.old image.new scratch.old scratch.new p.0 x.now kind (numbered result) }
{
    let c = check_walk::open_card(image, scratch, p, p)?;
    dir_create::create(image, c.blocks, p, x, kind)
}

pub fn link(
    image: &mut [u8],
    scratch: &mut [u32],
    p: INodeId,
    x: &[u8],
    n: INodeId,
) -> Result<(), Refusal>
    ensures { Linked image.old image.new scratch.old scratch.new p.0 x.now n.0 (plain result) }
{
    let c = check_walk::open_card(image, scratch, p, n)?;
    dir_link::link(image, c.blocks, p, x, n)
}

pub fn unlink(image: &mut [u8], scratch: &mut [u32], p: INodeId, x: &[u8]) -> Result<(), Refusal>
    ensures { Unlinked image.old image.new scratch.old scratch.new p.0 x.now (plain result) }
{
    let c = check_walk::open_card(image, scratch, p, p)?;
    dir_unlink::unlink(image, c.blocks, p, x)
}

// The name `old` in p becomes `new` in t.
pub fn move_(
    image: &mut [u8],
    scratch: &mut [u32],
    p: INodeId,
    old: &[u8],
    t: INodeId,
    new: &[u8],
) -> Result<(), Refusal>
    ensures { Moved image.old image.new scratch.old scratch.new
        p.0 old.now t.0 new.now (plain result) }
{
    let c = check_walk::open_card(image, scratch, p, t)?;
    dir_move::move_(image, c.blocks, p, old, t, new)
}

pub fn format(image: &mut [u8], space: u64) -> Result<(), Refusal>
    ensures { Formatted image.old image.new space (plain result) }
{
    dir_format::format(image, space)
}
