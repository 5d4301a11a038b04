// The superblock, 48 bytes of block 0.
ghost use Rattle.std.specs.Prelude.{◌≡◌, ◌≤◌, length, take, drop};
ghost use Rattle.words.specs.Runs.{copied};
ghost use Rattle.card_layout.specs.Super.{super_put, unused, put_unused};
ghost use Rattle.card_layout.specs.Inner.{super_at};

use words::Number;

#[derive(Clone, Copy, Debug, PartialEq, Eq)]
pub struct SuperBlock {
    pub magic: u32,
    pub blocks: u32,
    pub unused_blocks: u32,
    pub info: [u8; 32],
    pub freemap_blocks: u32,
}

fn info_of(image: &[u8]) -> [u8; 32]
    requires { 48 ≤ length image.now }
    ensures { result ≡ take 32 (drop 12 image.now) }
{
    let mut info = [0u8; 32];
    info.copy_from_slice(&image[12..44]);
    info
}

pub fn decode(image: &[u8]) -> SuperBlock
    requires { 48 ≤ length image.now }
    ensures { result ≡ super_at image.now }
{
    let magic = u32::get(image, 0);
    let blocks = u32::get(image, 4);
    let unused_blocks = u32::get(image, 8);
    let info = info_of(image);
    let freemap_blocks = u32::get(image, 44);
    SuperBlock {
        magic,
        blocks,
        unused_blocks,
        info,
        freemap_blocks,
    }
}

fn put_info(image: &mut [u8], info: [u8; 32])
    requires { 48 ≤ length image.old }
    ensures { image.new ≡ copied image.old 12 info 0 32 }
{
    words::copy(&info, 0, image, 12, 32);
}

pub fn encode(image: &mut [u8], s: SuperBlock)
    requires { 48 ≤ length image.old }
    ensures { image.new ≡ super_put image.old s }
{
    s.magic.put(image, 0);
    s.blocks.put(image, 4);
    s.unused_blocks.put(image, 8);
    put_info(image, s.info);
    s.freemap_blocks.put(image, 44);
}

pub fn unused_blocks(image: &[u8]) -> u32
    requires { 48 ≤ length image.now }
    ensures { result ≡ unused image.now }
{
    u32::get(image, 8)
}

pub fn set_unused_blocks(image: &mut [u8], v: u32)
    requires { 48 ≤ length image.old }
    ensures { image.new ≡ put_unused image.old v }
{
    v.put(image, 8);
}
