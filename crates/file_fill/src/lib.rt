// Writing a file's bytes from a buffer, or zeros: what is done with the slots that `file_blocks::slots` goes over.
#![tactic(auto)]

ghost use Rattle.std.specs.Prelude.{◌≡◌, ◌+◌, ◌-◌, ◌≤◌, false, refl, length};
ghost use Rattle.file_blocks.specs.Inner.{RangeAsks};
ghost use Rattle.file_blocks.specs.Bytes.{put, filled};
ghost use Rattle.file_fill.specs.Source.{zeros, bytes};

use card_layout::{BLKSIZE, BlockId, INodeId};
use file_blocks::slots::Walk;
use file_blocks::{pieces, slots};
use words::Number;

// k bytes at `at`: those of src from `from` on, or zeros.
fn put_piece(image: &mut [u8], at: usize, k: usize, src: Option<&[u8]>, from: usize)
    requires { (at + k ≤ length image.old) × (zeros src ≡ false → from + k ≤ length (bytes src)) }
    ensures { image.new ≡ put (zeros src.entry) (bytes src.entry) at k from image.old }
{
    match src {
        Some(s) => words::copy(s, from, image, at, k),
        None => words::zero(image, at, k),
    }
}

// Fills the bytes off to end of a file, on a card of nb blocks. src stands behind a reference: of a struct that held the Option itself the proof would
// not know which card it leaves.
#[derive(Drop)]
struct Filler<'a, 'b, 'c> {
    image: &'a mut [u8],
    nb: usize,
    off: usize,
    end: usize,
    src: &'b Option<&'c [u8]>,
}

impl<'a, 'b, 'c> Filler<'a, 'b, 'c> {
    ghost use Rattle.file_fill.specs.Inner.{Piece, with_piece};

    // The piece of file block j, which is in block b.
    fn piece(&mut self, b: BlockId, j: usize)
        requires { Piece self.old j }
        ensures { self.new ≡ with_piece self.old b.0 j }
    {
        let a = b.0 as usize;
        if a >= self.nb {
            return;
        }
        let lo = pieces::piece_lo(self.off, j);
        let hi = pieces::piece_hi(self.end, j);
        put_piece(
            self.image,
            BLKSIZE * a + lo,
            hi - lo,
            *self.src,
            BLKSIZE * j + lo - self.off,
        );
    }
}

impl<'a, 'b, 'c> Walk for Filler<'a, 'b, 'c> {
    ghost use Rattle.file_blocks.proofs.Ranges.{span_part, span_long};
    ghost use Rattle.file_blocks.proofs.Lengths.{length-run_fill};
    ghost use Rattle.file_fill.specs.Inner.{Span, over};

    ghost card = { λ f. f.image.now };

    ghost nb = { λ f. f.nb };

    ghost Ready = { Span };

    ghost turn = { over };

    fn image(&self) -> &[u8] {
        self.image
    }

    fn blocks(&self) -> usize {
        self.nb
    }

    // No `run` of the trait's own over a step: that would take two more ghost members and a law, for three lines.
    fn run(&mut self, at: usize, i: usize, e: usize) {
        for j in i..e {
            let b = BlockId(u32::get(self.image(), at + 4 * (j - i)));
            self.piece(b, j);
        }
    }

    ghost whole = { λ i e f s. s.0 };

    ghost part = { λ i e j k f s h. span_part _ _ i e j k _ _ _ s h };

    ghost stays = { λ at i e j k f s. span_long _ _ _ i e _ _ _ (length-run_fill (zeros f.src.now) (bytes f.src.now) f.nb f.off f.end at j k f.image.now) s };

    ghost same_nb = { λ at i e f. refl };
}

// The bytes off to end of file n, on a card of nb blocks, become those of src, or zeros where there is none.
pub fn fill_at(image: &mut [u8], nb: usize, n: INodeId, off: usize, end: usize, src: Option<&[u8]>)
    requires { RangeAsks image.old nb n.0 off end (zeros src ≡ false → end - off ≤ length (bytes src)) }
    ensures { image.new ≡ filled (zeros src.entry) (bytes src.entry) nb n.0 off end image.old }
{
    let mut filler = Filler {
        image,
        nb,
        off,
        end,
        src: &src,
    };
    slots::file(&mut filler, n, pieces::first_of(off), pieces::after_of(end));
}
