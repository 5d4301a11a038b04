// The inode record, the first 80 bytes of its own block.
ghost use Rattle.std.specs.Prelude.{◌≡◌, ◌+◌, ◌*◌, ◌≤◌, ◌<◌, length};
ghost use Rattle.card_layout.specs.Sizes.{block_size};
ghost use Rattle.card_layout.specs.Inode.{
  kind_no,
  kind_of,
  head_at,
  decoded,
  directs,
  put_words,
  put_front,
  put_back,
  encoded,
  new_inode,
  with_size,
  with_links,
  with_blocks,
  with_indirect,
  with_double,
  with_direct,
};

use crate::{BLKSIZE, BlockId, INodeId, NODEVICE};
use refusals::Refusal;
use words::Number;

// A kind, by its number on the card.
#[derive(Clone, Copy, Debug, PartialEq, Eq)]
pub enum FileType {
    File = 1,
    Dir = 2,
    SymLink = 3,
}

impl TryFrom<u32> for FileType {
    type Error = Refusal;

    ghost try_from_gives = { λ k r. r ≡ kind_of k };

    fn try_from(k: u32) -> Result<FileType, Refusal> {
        match k {
            1 => Ok(FileType::File),
            2 => Ok(FileType::Dir),
            3 => Ok(FileType::SymLink),
            _ => Err(Refusal::InvalidParam),
        }
    }
}

// The record's scalars: all of it but the direct slots. The padding is kept as the card has it.
#[derive(Clone, Copy, Debug, PartialEq, Eq)]
pub struct Head {
    pub size: u32,
    pub type_: FileType,
    pub nlinks: u16,
    pub blocks: u32,
    pub indirect: BlockId,
    pub db_indirect: BlockId,
    pub padding: u32,
    pub device_inode_id: u64,
}

#[derive(Clone, Copy, Debug, PartialEq, Eq)]
pub struct DiskINode {
    pub head: Head,
    pub direct: [BlockId; 12],
}

pub fn kind_no(k: FileType) -> u16
    ensures { result ≡ kind_no k }
{
    k as u16
}

fn head_of(image: &[u8], n: INodeId, kind: FileType) -> Head
    requires { block_size * n.0 + 80 ≤ length image.now }
    ensures { result ≡ head_at image.now n.0 kind }
{
    let at = BLKSIZE * n.0 as usize;
    let size = u32::get(image, at);
    let nlinks = u16::get(image, at + 6);
    let blocks = u32::get(image, at + 8);
    let indirect = BlockId(u32::get(image, at + 60));
    let db_indirect = BlockId(u32::get(image, at + 64));
    let padding = u32::get(image, at + 68);
    let device_inode_id = u64::get(image, at + 72);
    Head {
        size,
        type_: kind,
        nlinks,
        blocks,
        indirect,
        db_indirect,
        padding,
        device_inode_id,
    }
}

// The head of record n, where its kind is one.
#[tactic(auto, unfolding(crate::specs::Inode::head_by))]
pub fn decode(image: &[u8], n: INodeId) -> Option<Head>
    requires { block_size * n.0 + 80 ≤ length image.now }
    ensures { result ≡ decoded image.now n.0 }
{
    let kind = FileType::try_from(u16::get(image, BLKSIZE * n.0 as usize + 4) as u32).ok()?;
    Some(head_of(image, n, kind))
}

pub fn slots(image: &[u8], n: INodeId) -> [BlockId; 12]
    requires { block_size * n.0 + 80 ≤ length image.now }
    ensures { result ≡ directs image.now n.0 }
{
    let at = BLKSIZE * n.0 as usize + 12;
    let mut d = [BlockId(0); 12];
    for i in 0..12 {
        d[i] = BlockId(u32::get(image, at + 4 * i));
    }
    d
}

#[tactic(auto, using(crate::proofs::Words::put_words_step), unfolding(crate::specs::Inode::put_words))]
fn put_slots(image: &mut [u8], at: usize, d: [BlockId; 12])
    requires { at + 48 ≤ length image.old }
    ensures { image.new ≡ put_words image.old at d }
{
    for i in 0..12 {
        d[i].0.put(image, at + 4 * i);
    }
}

fn put_front(image: &mut [u8], at: usize, h: Head)
    requires { at + 80 ≤ length image.old }
    ensures { image.new ≡ put_front image.old at h }
{
    h.size.put(image, at);
    kind_no(h.type_).put(image, at + 4);
    h.nlinks.put(image, at + 6);
    h.blocks.put(image, at + 8);
}

fn put_back(image: &mut [u8], at: usize, h: Head)
    requires { at + 80 ≤ length image.old }
    ensures { image.new ≡ put_back image.old at h }
{
    h.indirect.0.put(image, at + 60);
    h.db_indirect.0.put(image, at + 64);
    h.padding.put(image, at + 68);
    h.device_inode_id.put(image, at + 72);
}

pub fn encode(image: &mut [u8], n: INodeId, d: DiskINode)
    requires { block_size * n.0 + 80 ≤ length image.old }
    ensures { image.new ≡ encoded image.old n.0 d }
{
    let at = BLKSIZE * n.0 as usize;
    put_front(image, at, d.head);
    put_slots(image, at + 12, d.direct);
    put_back(image, at, d.head);
}

impl DiskINode {
    pub fn new(kind: FileType) -> Self
        ensures { result ≡ new_inode kind }
    {
        let none = BlockId(0);
        let head = Head {
            size: 0,
            type_: kind,
            nlinks: 0,
            blocks: 0,
            indirect: none,
            db_indirect: none,
            padding: 0,
            device_inode_id: NODEVICE,
        };
        DiskINode {
            head,
            direct: [none; 12],
        }
    }

    pub fn set_size(mut self, size: u32) -> Self
        ensures { result ≡ with_size self size }
    {
        self.head.size = size;
        self
    }

    pub fn set_nlinks(mut self, nlinks: u16) -> Self
        ensures { result ≡ with_links self nlinks }
    {
        self.head.nlinks = nlinks;
        self
    }

    pub fn set_blocks(mut self, blocks: u32) -> Self
        ensures { result ≡ with_blocks self blocks }
    {
        self.head.blocks = blocks;
        self
    }

    pub fn set_direct(mut self, i: usize, b: BlockId) -> Self
        requires { i < 12 }
        ensures { result ≡ with_direct self i b.0 }
    {
        self.direct[i] = b;
        self
    }

    pub fn set_indirect(mut self, b: BlockId) -> Self
        ensures { result ≡ with_indirect self b.0 }
    {
        self.head.indirect = b;
        self
    }

    pub fn set_db_indirect(mut self, b: BlockId) -> Self
        ensures { result ≡ with_double self b.0 }
    {
        self.head.db_indirect = b;
        self
    }
}
