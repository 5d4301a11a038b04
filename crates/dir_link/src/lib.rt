// Link: RULES' tests, in its order, and then the act. Card and block count: see dir_entries::editing.
#![tactic(auto)]

ghost use Rattle.std.specs.Prelude.{◌≡◌, ◌≤◌, ◌<◌, length};
ghost use Rattle.card_layout.specs.Sizes.{full_links};
ghost use Rattle.card_layout.specs.Super.{blocks};
ghost use Rattle.card_rules.specs.Whole.{Reached, Whole};
ghost use Rattle.file_blocks.specs.Inner.{Sizes};
ghost use Rattle.dir_entries.specs.Inner.{CanAppend};
ghost use Rattle.dir_link.specs.Link.{link_room, link_answer, linked};
ghost use Rattle.dir_link.specs.Inner.{Links};

use card_layout::inode::{FileType, Head};
use card_layout::{INodeId, MAX_NLINKS, entry, inode};
use dir_answers::judging;
use dir_entries::editing;
use dir_entries::editing::Loaded;
use refusals::Refusal;

// 7, 13 and 14, for a directory with head h and an inode with head g.
#[tactic(auto, unfolding(crate::specs::Link::link_room))]
fn link_room(image: &[u8], h: Head, g: Head) -> Result<(), Refusal>
    requires { (48 ≤ length image.now) × CanAppend h }
    ensures { result ≡ link_room image.now h g }
{
    if g.type_ == FileType::Dir {
        return Err(Refusal::IsDir);
    }
    if g.nlinks == MAX_NLINKS {
        return Err(Refusal::TooManyLinks);
    }
    judging::room_for(image, judging::entry_needs(h))
}

// What link answers. Nothing changes.
#[tactic(auto, unfolding(crate::specs::Link::link_answer))]
pub fn judge_link(image: &[u8], p: INodeId, x: &[u8], c: INodeId) -> Result<(), Refusal>
    requires { Whole image.now × Reached image.now p.0 × Reached image.now c.0 }
    ensures { result ≡ link_answer image.now p.0 x.now c.0 }
{
    let h = judging::dir_head(image, p)?;
    judging::new_name(image, p, h, x)?;
    let g = inode::decode(image, c).ok_or(Refusal::IsDir)?;
    link_room(image, h, g)
}

// What link does: inode c, whose links rise, is named x in directory p.
#[tactic(auto, unfolding(crate::specs::Link::linked))]
fn put_link(image: &mut [u8], nb: u32, p: Loaded, x: &[u8], c: Loaded)
    requires { Sizes image.old nb × (p.id.0 < nb) × (c.id.0 < nb) × CanAppend p.disk.head × (length x.now ≤ 255) × (c.disk.head.nlinks < full_links) }
    ensures { image.new ≡ linked nb p.id.0 p.disk x.now c.id.0 c.disk image.old }
{
    let f = entry::entry_of(c.id, x);
    editing::append_direntry(image, nb, p, &f);
    inode::encode(image, c.id, c.disk.set_nlinks(c.disk.head.nlinks + 1));
}

#[tactic(auto, unfolding(crate::specs::Link::link_card))]
pub fn link(image: &mut [u8], nb: u32, p: INodeId, x: &[u8], c: INodeId) -> Result<(), Refusal>
    requires { Whole image.old × Reached image.old p.0 × Reached image.old c.0 × (nb ≡ blocks image.old) }
    ensures { Links nb image.old image.new p.0 x.now c.0 result }
{
    judge_link(image, p, x, c)?;
    let Some(h) = inode::decode(image, p) else {
        return Ok(());
    };
    let Some(g) = inode::decode(image, c) else {
        return Ok(());
    };
    let p = Loaded::read(image, p, h);
    let c = Loaded::read(image, c, g);
    put_link(image, nb, p, x, c);
    Ok(())
}
