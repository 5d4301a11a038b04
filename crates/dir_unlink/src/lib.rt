// Unlink: a name goes, and with an inode's last name the inode and all that it owns. Card and block count: see dir_entries::editing.
#![tactic(auto)]

ghost use Rattle.std.specs.Prelude.{◌≡◌, ◌+◌, ◌-◌, ◌*◌, ◌≤◌, ◌<◌, length};
ghost use Rattle.card_layout.specs.Sizes.{block_size};
ghost use Rattle.card_layout.specs.Super.{blocks};
ghost use Rattle.card_rules.specs.Whole.{Reached, Whole};
ghost use Rattle.file_blocks.specs.Inner.{Sizes};
ghost use Rattle.dir_entries.specs.Entries.{where_is};
ghost use Rattle.refusals.specs.Refusals.{giving};
ghost use Rattle.dir_answers.specs.Inner.{HasEntry};
ghost use Rattle.dir_unlink.specs.Unlink.{not_empty, child_answer, unlink_answer, links_left, parent_less, dropped, one_less, unlinked, unlinked_at};
ghost use Rattle.dir_unlink.specs.Inner.{Named, Unlinks};

use card_layout::inode::{FileType, Head};
use card_layout::{BlockId, DIRENT_SIZE, INodeId, inode};
use card_map;
use check_names::loading;
use dir_answers::judging;
use dir_entries::editing::Loaded;
use dir_entries::{editing, finding};
use file_requests::resizing;
use file_shrink;
use refusals::Refusal;

// As wide as a size on the card.
const ENTRY: u32 = DIRENT_SIZE as u32;

// More than two entries, of a directory.
fn not_empty(g: Head) -> bool
    ensures { result ≡ not_empty g }
{
    g.type_ == FileType::Dir && g.size / ENTRY > 2
}

// 11, of the inode that is named.
fn judge_child(image: &[u8], c: INodeId) -> Result<(), Refusal>
    requires { block_size * c.0 + 80 ≤ length image.now }
    ensures { result ≡ child_answer image.now c.0 }
{
    let g = inode::decode(image, c).ok_or(Refusal::EntryNotFound)?;
    if not_empty(g) {
        return Err(Refusal::DirNotEmpty);
    }
    Ok(())
}

// What unlink answers, and the place of the entry, which is looked up once. Nothing changes.
#[tactic(auto, unfolding(crate::specs::Unlink::unlink_answer), using(dir_answers::proofs::Ready::here_ready, crate::proofs::UnlinkLaws::child_here))]
fn judge_unlink(image: &[u8], p: INodeId, x: &[u8]) -> Result<usize, Refusal>
    requires { Whole image.now × Reached image.now p.0 }
    ensures { result ≡ giving (unlink_answer image.now p.0 x.now) (where_is image.now p.0 x.now) }
{
    let h = judging::dir_head(image, p)?;
    if finding::is_dots(x) {
        return Err(Refusal::IsDir);
    }
    let k = judging::place_of(image, p, h, x)?;
    judge_child(image, loading::entry_number(image, p, k))?;
    Ok(k)
}

// The links that the inode keeps, and those that its directory does: two numbers of RULES, and no function of both.
fn links_left(g: Head) -> u16
    ensures { result ≡ links_left g }
{
    let by = if g.type_ == FileType::Dir { 2 } else { 1 };
    g.nlinks.saturating_sub(by)
}

fn parent_less(h: Head, g: Head) -> u16
    ensures { result ≡ parent_less h g }
{
    let by = if g.type_ == FileType::Dir { 1 } else { 0 };
    h.nlinks.saturating_sub(by)
}

// Inode c and all it owns freed.
#[tactic(auto, unfolding(crate::specs::Unlink::dropped))]
fn drop_inode(image: &mut [u8], nb: u32, c: Loaded)
    requires { Sizes image.old nb × (c.id.0 < nb) }
    ensures { image.new ≡ dropped nb c.id.0 c.disk image.old }
{
    let a = resizing::file_blocks(c.disk);
    file_shrink::shrink(image, nb, c.id, c.disk, 0, a);
    card_map::free_block(image, BlockId(c.id.0));
}

// Entry k of p, which names c, goes, and the links with it.
fn take_name(image: &mut [u8], nb: u32, p: Loaded, k: usize, c: Loaded)
    requires { Sizes image.old nb × Named nb p k c }
    ensures { image.new ≡ one_less nb p.id.0 p.disk k c.id.0 c.disk image.old }
{
    let l = parent_less(p.disk.head, c.disk.head);
    let v = links_left(c.disk.head);
    editing::remove_direntry(image, nb, p.with_links(l), k);
    inode::encode(image, c.id, c.disk.set_nlinks(v));
}

// Inode c loses its name in entry k of p, and is dropped where that was its last.
#[tactic(auto, unfolding(crate::specs::Unlink::unlinked))]
fn unlink_at(image: &mut [u8], nb: u32, p: Loaded, k: usize, c: Loaded)
    requires { Sizes image.old nb × Named nb p k c }
    ensures { image.new ≡ unlinked nb p.id.0 p.disk k c.id.0 c.disk image.old }
{
    take_name(image, nb, p, k, c);
    if links_left(c.disk.head) == 0 {
        drop_inode(image, nb, c);
    }
}

// Entry k of directory p goes, and with it a name of the inode that it names.
#[tactic(auto, unfolding(crate::specs::Unlink::unlinked_at), using(dir_answers::proofs::Ready::here_ready))]
fn unlink_named(image: &mut [u8], nb: u32, p: INodeId, k: usize)
    requires { Whole image.old × Reached image.old p.0 × (nb ≡ blocks image.old) × HasEntry image.old p.0 k }
    ensures { image.new ≡ unlinked_at nb image.old p.0 k }
{
    let Some(h) = inode::decode(image, p) else {
        return;
    };
    let c = loading::entry_number(image, p, k);
    let Some(g) = inode::decode(image, c) else {
        return;
    };
    let p = Loaded::read(image, p, h);
    let c = Loaded::read(image, c, g);
    unlink_at(image, nb, p, k, c);
}

#[tactic(auto, unfolding(crate::specs::Unlink::unlink_card, crate::specs::Unlink::unlink_answer), using(dir_answers::proofs::Dirs::dir_kind))]
pub fn unlink(image: &mut [u8], nb: u32, p: INodeId, x: &[u8]) -> Result<(), Refusal>
    requires { Whole image.old × Reached image.old p.0 × (nb ≡ blocks image.old) }
    ensures { Unlinks nb image.old image.new p.0 x.now result }
{
    let k = judge_unlink(image, p, x)?;
    unlink_named(image, nb, p, k);
    Ok(())
}
