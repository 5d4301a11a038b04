// Entries read, written, appended and removed, on a card of nb blocks.
// Card and count stay two parameters, here and in the calls: of a struct with both, each contract would have to say that the count stays.
ghost use Rattle.std.specs.Prelude.{◌≡◌, ◌+◌, ◌*◌, ◌≤◌, ◌<◌, length};
ghost use Rattle.card_layout.specs.Sizes.{block_size, entry_size};
ghost use Rattle.card_layout.specs.Inode.{with_links};
ghost use Rattle.file_blocks.specs.Inner.{Sizes};
ghost use Rattle.file_requests.specs.Requests.{record_with};
ghost use Rattle.dir_entries.specs.Entries.{entry_at, entry_put, appended, removed};
ghost use Rattle.dir_entries.specs.Inner.{CanAppend};

use card_layout::inode::{DiskINode, Head};
use card_layout::{DIRENT_SIZE, INodeId};
use file_fill;
use file_read;
use file_requests::{requests, resizing};

// As wide as a size on the card.
const ENTRY: u32 = DIRENT_SIZE as u32;

// An inode as it is written back: its number, and its record as the card has it.
#[derive(Clone, Copy, Debug, PartialEq, Eq)]
pub struct Loaded {
    pub id: INodeId,
    pub disk: DiskINode,
}

impl Loaded {
    pub fn read(image: &[u8], id: INodeId, head: Head) -> Loaded
        requires { block_size * id.0 + 80 ≤ length image.now }
        ensures { (result.id ≡ id) × (result.disk ≡ record_with image.now id.0 head) }
    {
        Loaded {
            id,
            disk: requests::record_with(image, id, head),
        }
    }

    pub fn with_links(self, n: u16) -> Loaded
        ensures { (result.id ≡ self.id) × (result.disk ≡ with_links self.disk n) }
    {
        Loaded {
            id: self.id,
            disk: self.disk.set_nlinks(n),
        }
    }
}

// The 260 bytes of entry k.
pub fn read_entry(image: &[u8], nb: u32, n: INodeId, k: usize) -> [u8; DIRENT_SIZE]
    requires { Sizes image.now nb × (n.0 < nb) × (entry_size * k + entry_size ≤ 4294967295) }
    ensures { result ≡ entry_at nb image.now n.0 k }
{
    let at = DIRENT_SIZE * k;
    let mut e = [0u8; DIRENT_SIZE];
    file_read::read_at(image, nb as usize, n, at, at + DIRENT_SIZE, &mut e);
    e
}

// Entry k becomes e.
pub fn write_entry(image: &mut [u8], nb: u32, n: INodeId, k: usize, e: &[u8; DIRENT_SIZE])
    requires { Sizes image.old nb × (n.0 < nb) × (entry_size * k + entry_size ≤ 4294967295) }
    ensures { image.new ≡ entry_put nb n.0 k e.now image.old }
{
    let at = DIRENT_SIZE * k;
    let b: &[u8] = e;
    file_fill::fill_at(image, nb as usize, n, at, at + DIRENT_SIZE, Some(b));
}

// One entry more, after the last.
pub fn append_direntry(image: &mut [u8], nb: u32, p: Loaded, e: &[u8; DIRENT_SIZE])
    requires { Sizes image.old nb × (p.id.0 < nb) × CanAppend p.disk.head }
    ensures { image.new ≡ appended nb p.id.0 p.disk e.now image.old }
{
    let z = p.disk.head.size;
    resizing::fit(image, nb, p.id, p.disk, z + ENTRY);
    write_entry(image, nb, p.id, z as usize / DIRENT_SIZE, e);
}

// Entry k goes: the last one takes its place.
pub fn remove_direntry(image: &mut [u8], nb: u32, p: Loaded, k: usize)
    requires { Sizes image.old nb × (p.id.0 < nb) × (entry_size ≤ p.disk.head.size) × (entry_size * k + entry_size ≤ 4294967295) }
    ensures { image.new ≡ removed nb p.id.0 p.disk k image.old }
{
    let z = p.disk.head.size;
    let e = read_entry(image, nb, p.id, z as usize / DIRENT_SIZE - 1);
    write_entry(image, nb, p.id, k, &e);
    resizing::fit(image, nb, p.id, p.disk, z - ENTRY);
}
