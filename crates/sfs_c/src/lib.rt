// The library as C links it (include/sfs.h): a library of Rattle exports nothing to C, so each function here calls the one of crates/sfs that has its
// name, and has its statement.
#![tactic(auto)]

ghost use Rattle.sfs.specs.Check.{Checked};

mod c_cache;
mod c_dirs;
mod c_files;
mod c_looks;

#[unsafe(no_mangle)]
pub extern "C" fn sfs_check(
    image: &[u8],
    scratch: &mut [u32],
    blocks: &mut u32,
    unused: &mut u32,
) -> u32
    ensures { Checked image.now scratch.old scratch.new result blocks.new unused.new }
{
    sfs::sfs_check(image, scratch, blocks, unused)
}
