// Move: a name becomes another, in the same directory or in another one. Card and block count: see dir_entries::editing.
#![tactic(auto)]

ghost use Rattle.std.specs.Prelude.{◌≡◌, true, ◌+◌, ◌*◌, ◌≤◌, ◌<◌, length};
ghost use Rattle.card_layout.specs.Sizes.{block_size, full_links};
ghost use Rattle.card_layout.specs.Super.{blocks};
ghost use Rattle.card_layout.specs.Inode.{kind, with_links};
ghost use Rattle.file_requests.specs.Requests.{record_with};
ghost use Rattle.card_rules.specs.View.{entry};
ghost use Rattle.card_rules.specs.Whole.{Reached, Whole};
ghost use Rattle.file_blocks.specs.Inner.{Sizes};
ghost use Rattle.dir_answers.specs.Answers.{is_dir};
ghost use Rattle.dir_answers.specs.Inner.{HasEntry};
ghost use Rattle.dir_move.specs.Move.{climbs, dir_room, move_room, child_answer, up_put, moved_file, moved_dir, moved_to, moved, moved_at};
ghost use Rattle.dir_move.specs.Inner.{source_placed, move_placed, Target, MoveReady, MovePassed, Moves};

use card_layout::inode::{FileType, Head};
use card_layout::{DIRENT_SIZE, INodeId, MAX_NLINKS, entry, inode};
use check_names::loading;
use dir_answers::judging;
use dir_entries::editing::Loaded;
use dir_entries::{editing, finding};
use file_fill;
use refusals::Refusal;

// An inode as the tests see it: its number, and the head of its record. Nothing compares two.
#[derive(Clone, Copy)]
struct Inode {
    id: INodeId,
    head: Head,
}

impl Inode {
    fn load(self, image: &[u8]) -> Loaded
        requires { block_size * self.id.0 + 80 ≤ length image.now }
        ensures { (result.id ≡ self.id) × (result.disk ≡ record_with image.now self.id.0 self.head) }
    {
        Loaded::read(image, self.id, self.head)
    }
}

// Whether climbing from directory t meets c before the root.
#[tactic(auto, unfolding(crate::specs::Move::climbs), using(crate::proofs::Climbing::climbing))]
fn climbs_to(image: &[u8], nb: u32, c: INodeId, t: INodeId) -> bool
    requires { Whole image.now × Reached image.now t.0 × (kind image.now t.0 ≡ 2) }
    ensures { result ≡ climbs image.now c.0 t.0 nb }
{
    let mut x = t;
    for _ in 0..nb {
        if x == c {
            return true;
        }
        if x.0 == 1 {
            return false;
        }
        x = loading::entry_number(image, x, 1);
    }
    false
}

// 12, 13 and 14, of directory c and target t.
#[tactic(auto, using(dir_answers::proofs::Heads::head_small, dir_answers::proofs::Dirs::dir_kind))]
fn dir_room(image: &[u8], nb: u32, c: INodeId, t: Inode) -> Result<(), Refusal>
    requires { Target image.now t }
    ensures { result ≡ dir_room nb image.now c.0 t.id.0 t.head }
{
    if climbs_to(image, nb, c, t.id) {
        return Err(Refusal::InvalidParam);
    }
    if t.head.nlinks == MAX_NLINKS {
        return Err(Refusal::TooManyLinks);
    }
    judging::room_for(image, judging::entry_needs(t.head))
}

// 12, 13 and 14, of inode c and target t.
#[tactic(auto, unfolding(crate::specs::Move::move_room), using(dir_answers::proofs::Heads::head_small))]
fn move_room(image: &[u8], nb: u32, c: Inode, t: Inode) -> Result<(), Refusal>
    requires { Target image.now t }
    ensures { result ≡ move_room nb image.now c.id.0 c.head t.id.0 t.head }
{
    if c.head.type_ == FileType::Dir {
        return dir_room(image, nb, c.id, t);
    }
    judging::room_for(image, judging::entry_needs(t.head))
}

// 12, 13 and 14, of what entry k of directory p names.
fn judge_child(image: &[u8], nb: u32, p: INodeId, k: usize, t: Inode) -> Result<(), Refusal>
    requires { Target image.now t × Reached image.now p.0 × HasEntry image.now p.0 k }
    ensures { result ≡ child_answer nb image.now (entry image.now p.0 k) t.id.0 t.head }
{
    let c = loading::entry_number(image, p, k);
    let head = inode::decode(image, c).ok_or(Refusal::EntryNotFound)?;
    move_room(image, nb, Inode { id: c, head }, t)
}

// 10, 12, 13 and 14, and the place of the entry.
fn judge_source(image: &[u8], nb: u32, p: Inode, old: &[u8], t: Inode) -> Result<usize, Refusal>
    requires { Target image.now t × Target image.now p }
    ensures { result ≡ source_placed nb image.now p.id.0 old.now t.id.0 t.head }
{
    let k = judging::place_of(image, p.id, p.head, old)?;
    if p.id != t.id {
        judge_child(image, nb, p.id, k, t)?;
    }
    Ok(k)
}

// What move answers, and the place of the entry, which is looked up once. Nothing changes.
#[tactic(auto, unfolding(crate::specs::Move::move_answer), using(dir_answers::proofs::Ready::here_ready))]
fn judge_move(
    image: &[u8],
    nb: u32,
    p: INodeId,
    old: &[u8],
    t: INodeId,
    new: &[u8],
) -> Result<usize, Refusal>
    requires { Whole image.now × Reached image.now p.0 × Reached image.now t.0 }
    ensures { result ≡ move_placed nb image.now p.0 old.now t.0 new.now }
{
    let p = Inode {
        id: p,
        head: judging::dir_head(image, p)?,
    };
    if finding::is_dots(old) {
        return Err(Refusal::IsDir);
    }
    let t = Inode {
        id: t,
        head: judging::dir_head(image, t)?,
    };
    judging::new_name(image, t.id, t.head, new)?;
    judge_source(image, nb, p, old, t)
}

// ".." of directory c names t.
#[tactic(auto, unfolding(crate::specs::Move::up_put, words::specs::Words::put_num))]
fn put_up(image: &mut [u8], nb: u32, c: INodeId, t: INodeId)
    requires { Sizes image.old nb × (c.0 < nb) }
    ensures { image.new ≡ up_put nb c.0 t.0 image.old }
{
    let b = t.0.to_le_bytes();
    file_fill::fill_at(image, nb as usize, c, DIRENT_SIZE, 264, Some(&b));
}

// Inode c goes from entry k of p to the end of t.
#[tactic(auto, unfolding(crate::specs::Move::moved_file))]
fn move_file(image: &mut [u8], nb: u32, p: Loaded, k: usize, c: INodeId, t: Loaded, new: &[u8])
    requires { MoveReady nb image.old p.id.0 p.disk.head k t.id.0 t.disk.head new.now }
    ensures { image.new ≡ moved_file nb p.id.0 p.disk k c.0 t.id.0 t.disk new.now image.old }
{
    let e = entry::entry_of(c, new);
    editing::append_direntry(image, nb, t, &e);
    editing::remove_direntry(image, nb, p, k);
}

// The same for a directory: the links of both follow, and its "..".
#[tactic(auto, unfolding(crate::specs::Move::moved_dir))]
fn move_dir(image: &mut [u8], nb: u32, p: Loaded, k: usize, c: INodeId, t: Loaded, new: &[u8])
    requires { (c.0 < nb) × (t.disk.head.nlinks ≡ full_links → ⊥) × MoveReady nb image.old p.id.0 p.disk.head k t.id.0 t.disk.head new.now }
    ensures { image.new ≡ moved_dir nb p.id.0 p.disk k c.0 t.id.0 t.disk new.now image.old }
{
    let l = p.disk.head.nlinks.saturating_sub(1);
    let m = t.disk.head.nlinks + 1;
    move_file(image, nb, p.with_links(l), k, c, t.with_links(m), new);
    put_up(image, nb, c, t.id);
}

// Inode c goes from entry k of directory p to another directory t.
fn move_to(image: &mut [u8], nb: u32, p: Inode, k: usize, c: Inode, t: Inode, new: &[u8])
    requires { (c.id.0 < nb) × (is_dir c.head.type_ ≡ true → t.head.nlinks ≡ full_links → ⊥) × MoveReady nb image.old p.id.0 p.head k t.id.0 t.head new.now }
    ensures { image.new ≡ moved_to nb p.id.0 p.head k c.id.0 c.head t.id.0 t.head new.now image.old }
{
    let from = p.load(image);
    let to = t.load(image);
    if c.head.type_ == FileType::Dir {
        move_dir(image, nb, from, k, c.id, to, new);
    } else {
        move_file(image, nb, from, k, c.id, to, new);
    }
}

// Entry k of p, which names c, becomes `new` in t: in place where t is p.
#[tactic(auto, unfolding(crate::specs::Move::moved))]
fn move_at(image: &mut [u8], nb: u32, p: Inode, k: usize, c: Inode, t: Inode, new: &[u8])
    requires { (c.id.0 < nb) × ((p.id.0 ≡ t.id.0 → ⊥) → is_dir c.head.type_ ≡ true → t.head.nlinks ≡ full_links → ⊥)
        × MoveReady nb image.old p.id.0 p.head k t.id.0 t.head new.now }
    ensures { image.new ≡ moved nb p.id.0 p.head k c.id.0 c.head t.id.0 t.head new.now image.old }
{
    if p.id == t.id {
        let e = entry::entry_of(c.id, new);
        editing::write_entry(image, nb, p.id, k, &e);
    } else {
        move_to(image, nb, p, k, c, t, new);
    }
}

// Entry k of directory p becomes `new` in t.
#[tactic(auto, unfolding(crate::specs::Move::moved_at), using(dir_answers::proofs::Ready::here_ready))]
fn move_named(image: &mut [u8], nb: u32, p: INodeId, k: usize, t: INodeId, new: &[u8])
    requires { Whole image.old × Reached image.old p.0 × Reached image.old t.0 × (nb ≡ blocks image.old)
        × MovePassed image.old p.0 k t.0 new.now }
    ensures { image.new ≡ moved_at nb image.old p.0 k t.0 new.now }
{
    let Some(s) = inode::decode(image, p) else {
        return;
    };
    let Some(h) = inode::decode(image, t) else {
        return;
    };
    let c = loading::entry_number(image, p, k);
    let Some(g) = inode::decode(image, c) else {
        return;
    };
    let p = Inode { id: p, head: s };
    let c = Inode { id: c, head: g };
    let t = Inode { id: t, head: h };
    move_at(image, nb, p, k, c, t, new);
}

#[tactic(auto, unfolding(crate::specs::Move::move_card))]
pub fn move_(
    image: &mut [u8],
    nb: u32,
    p: INodeId,
    old: &[u8],
    t: INodeId,
    new: &[u8],
) -> Result<(), Refusal>
    requires { Whole image.old × Reached image.old p.0 × Reached image.old t.0 × (nb ≡ blocks image.old) }
    ensures { Moves nb image.old image.new p.0 old.now t.0 new.now result }
{
    let k = judge_move(image, nb, p, old, t, new)?;
    move_named(image, nb, p, k, t, new);
    Ok(())
}
