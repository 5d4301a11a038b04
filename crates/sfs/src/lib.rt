// The C interface of the library (include/sfs.h): each function covers a proved call and has its statement.
#![tactic(auto)]

ghost use Rattle.sfs.specs.Check.{Checked};

pub mod c_cache;
pub mod c_dirs;
pub mod c_files;
pub mod c_looks;

#[unsafe(no_mangle)]
pub extern "C" fn sfs_check(
    image: &[u8],
    scratch: &mut [u32],
    blocks: &mut u32,
    unused: &mut u32,
) -> u32
    ensures { Checked image.now scratch.old scratch.new result blocks.new unused.new }
{
    let r = check_walk::check(image, scratch);
    *blocks = r.map_or(0, |c| c.blocks);
    *unused = r.map_or(0, |c| c.unused);
    call_said::number_of(r)
}
