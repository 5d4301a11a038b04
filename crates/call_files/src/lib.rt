// The calls on a file's bytes: the card is opened for the inode, and then the request is made of it.
#![tactic(auto)]

ghost use Rattle.call_said.specs.Said.{plain};
ghost use Rattle.call_files.specs.FileCalls.{Read, Written, Resized};

use card_layout::INodeId;
use file_requests::requests;
use refusals::Refusal;

pub fn read(
    image: &[u8],
    scratch: &mut [u32],
    n: INodeId,
    off: u64,
    buf: &mut [u8],
) -> Result<u32, Refusal>
    ensures { Read image.now scratch.old scratch.new buf.old buf.new n.0 off result }
{
    let c = check_walk::open_card(image, scratch, n, n)?;
    requests::read(image, c.blocks, n, off, buf)
}

pub fn write(
    image: &mut [u8],
    scratch: &mut [u32],
    n: INodeId,
    off: u64,
    src: &[u8],
) -> Result<u32, Refusal>
    ensures { Written image.old image.new scratch.old scratch.new src.now n.0 off result }
{
    let c = check_walk::open_card(image, scratch, n, n)?;
    requests::write(image, c.blocks, n, off, src)
}

pub fn resize(image: &mut [u8], scratch: &mut [u32], n: INodeId, len: u64) -> Result<(), Refusal>
    ensures { Resized image.old image.new scratch.old scratch.new n.0 len (plain result) }
{
    let c = check_walk::open_card(image, scratch, n, n)?;
    requests::resize(image, c.blocks, n, len)
}
