// Create: RULES' tests, in its order, and then the act. Card and block count: see dir_entries::editing.
#![tactic(auto)]

ghost use Rattle.std.specs.Prelude.{◌≡◌, ◌<◌};
ghost use Rattle.card_layout.specs.Sizes.{full_links};
ghost use Rattle.card_layout.specs.Super.{blocks};
ghost use Rattle.card_layout.specs.Inode.{kind_no, encoded};
ghost use Rattle.card_map.specs.Free.{taken};
ghost use Rattle.card_rules.specs.Whole.{Reached, Whole};
ghost use Rattle.file_blocks.specs.Inner.{Sizes};
ghost use Rattle.file_requests.specs.Resizing.{fitted};
ghost use Rattle.dir_entries.specs.Inner.{CanAppend};
ghost use Rattle.dir_create.specs.Create.{
  fresh_inode,
  create_takes,
  create_room,
  create_answer,
  made_file,
  bare_dir,
  empty_dir,
  made_dir,
  made,
};
ghost use Rattle.dir_create.specs.Inner.{NoneBelow, MakeReady, Creates};

use card_layout::inode::{DiskINode, FileType, Head};
use card_layout::{BlockId, INodeId, MAX_NLINKS, entry, inode};
use dir_answers::judging;
use dir_entries::editing;
use dir_entries::editing::Loaded;
use file_grow;
use file_requests::resizing;
use refusals::Refusal;

// The lowest free block: the number that is answered, 0 where there is none, as `fresh_inode` says. Nothing is taken yet.
#[tactic(auto, unfolding(file_blocks::specs::Taking::next_free))]
fn fresh_inode(image: &[u8], nb: u32) -> INodeId
    requires { Sizes image.now nb }
    ensures { result.0 ≡ fresh_inode nb image.now }
{
    match card_map::find_free(image, BlockId(0), nb) {
        Some(b) => INodeId(b.0),
        None => INodeId(0),
    }
}

// The inode's block, a directory's data block, and what the entry takes in a parent with head h.
fn create_takes(h: Head, kind: FileType) -> usize
    requires { CanAppend h }
    ensures { result ≡ create_takes h (kind_no kind) }
{
    let k = judging::entry_needs(h);
    if kind == FileType::Dir { 2 + k } else { 1 + k }
}

// 13 and 14.
#[tactic(auto, unfolding(crate::specs::Create::create_room))]
fn create_room(image: &[u8], nb: u32, h: Head, kind: FileType) -> Result<INodeId, Refusal>
    requires { Sizes image.now nb × CanAppend h }
    ensures { result ≡ create_room nb image.now h (kind_no kind) }
{
    if kind == FileType::Dir && h.nlinks == MAX_NLINKS {
        return Err(Refusal::TooManyLinks);
    }
    judging::room_for(image, create_takes(h, kind))?;
    Ok(fresh_inode(image, nb))
}

// What create answers. Nothing changes. The kind is the caller's number: one that is none is refused after the name.
#[tactic(auto, unfolding(crate::specs::Create::create_answer))]
pub fn judge_create(
    image: &[u8],
    nb: u32,
    p: INodeId,
    x: &[u8],
    kind: u32,
) -> Result<INodeId, Refusal>
    requires { Whole image.now × Reached image.now p.0 × (nb ≡ blocks image.now) }
    ensures { result ≡ create_answer nb image.now p.0 x.now kind }
{
    let h = judging::dir_head(image, p)?;
    judging::new_name(image, p, h, x)?;
    let kind = FileType::try_from(kind)?;
    create_room(image, nb, h, kind)
}

// Takes the lowest free block, whose search goes on where it has been found before.
fn take_first(image: &mut [u8], nb: u32, from: BlockId) -> INodeId
    requires { Sizes image.old nb × NoneBelow nb image.old from.0 }
    ensures { (result.0 ≡ fresh_inode nb image.old) × (image.new ≡ taken image.old 0 nb) }
{
    let b = file_grow::take_next(image, nb, from);
    INodeId(b.0)
}

// A file or a symbolic link, in directory p.
fn make_file(image: &mut [u8], nb: u32, from: BlockId, p: Loaded, x: &[u8], t: FileType)
    requires { MakeReady nb image.old from.0 p.id.0 p.disk x.now }
    ensures { image.new ≡ made_file nb p.id.0 p.disk x.now t image.old }
{
    let n = take_first(image, nb, from);
    let f = DiskINode::new(t);
    inode::encode(image, n, f.set_nlinks(1));
    let e = entry::entry_of(n, x);
    editing::append_direntry(image, nb, p, &e);
}

// Inode i as a directory of 520 bytes.
fn make_bare(image: &mut [u8], nb: u32, i: INodeId)
    requires { Sizes image.old nb × (i.0 < nb) }
    ensures { image.new ≡ fitted nb i.0 bare_dir 520 (encoded image.old i.0 bare_dir) }
{
    let d = DiskINode::new(FileType::Dir);
    let e = d.set_nlinks(2);
    inode::encode(image, i, e);
    resizing::fit(image, nb, i, e, 520);
}

// Block i becomes a directory of two entries, below p.
fn make_empty(image: &mut [u8], nb: u32, i: INodeId, p: INodeId)
    requires { Sizes image.old nb × (i.0 < nb) }
    ensures { image.new ≡ empty_dir nb i.0 p.0 image.old }
{
    make_bare(image, nb, i);
    let e = entry::entry_of(i, b".");
    editing::write_entry(image, nb, i, 0, &e);
    let f = entry::entry_of(p, b"..");
    editing::write_entry(image, nb, i, 1, &f);
}

// A directory, in directory p, whose links rise.
fn make_dir(image: &mut [u8], nb: u32, from: BlockId, p: Loaded, x: &[u8])
    requires { (p.disk.head.nlinks < full_links) × MakeReady nb image.old from.0 p.id.0 p.disk x.now }
    ensures { image.new ≡ made_dir nb p.id.0 p.disk x.now image.old }
{
    let n = take_first(image, nb, from);
    make_empty(image, nb, n, p.id);
    let e = entry::entry_of(n, x);
    let l = p.disk.head.nlinks + 1;
    editing::append_direntry(image, nb, p.with_links(l), &e);
}

// What create does.
#[tactic(auto, unfolding(crate::specs::Create::made))]
fn make(image: &mut [u8], nb: u32, from: BlockId, p: Loaded, x: &[u8], kind: FileType)
    requires { (kind_no kind ≡ 2 → p.disk.head.nlinks < full_links) × MakeReady nb image.old from.0 p.id.0 p.disk x.now }
    ensures { image.new ≡ made nb p.id.0 p.disk x.now (kind_no kind) image.old }
{
    match kind {
        FileType::Dir => make_dir(image, nb, from, p, x),
        FileType::File | FileType::SymLink => make_file(image, nb, from, p, x, kind),
    }
}

#[tactic(auto, unfolding(crate::specs::Create::create_card))]
pub fn create(
    image: &mut [u8],
    nb: u32,
    p: INodeId,
    x: &[u8],
    kind: u32,
) -> Result<INodeId, Refusal>
    requires { Whole image.old × Reached image.old p.0 × (nb ≡ blocks image.old) }
    ensures { Creates nb image.old image.new p.0 x.now kind result }
{
    let n = judge_create(image, nb, p, x, kind)?;
    let kind = FileType::try_from(kind)?;
    let Some(h) = inode::decode(image, p) else {
        return Ok(n);
    };
    let p = Loaded::read(image, p, h);
    make(image, nb, BlockId(n.0), p, x, kind);
    Ok(n)
}
