// Reading a file's bytes into a buffer: what is done with the slots that `file_blocks::slots` goes over.
#![tactic(auto)]

ghost use Rattle.std.specs.Prelude.{◌≡◌, ◌-◌, ◌≤◌, refl, length};
ghost use Rattle.file_blocks.specs.Inner.{RangeAsks};
ghost use Rattle.file_blocks.specs.Bytes.{read_into};

use card_layout::{BLKSIZE, BlockId, INodeId};
use file_blocks::slots::Walk;
use file_blocks::{pieces, slots};
use words::Number;

// Reads the bytes off to end of a file, on a card of nb blocks.
#[derive(Drop)]
struct Reader<'a, 'b> {
    image: &'a [u8],
    nb: usize,
    off: usize,
    end: usize,
    buf: &'b mut [u8],
}

impl<'a, 'b> Reader<'a, 'b> {
    ghost use Rattle.file_read.specs.Inner.{Piece, with_piece};

    // The piece of file block j, which is in block b.
    fn piece(&mut self, b: BlockId, j: usize)
        requires { Piece self.old j }
        ensures { self.new ≡ with_piece self.old b.0 j }
    {
        let a = b.0 as usize;
        if a >= self.nb {
            return;
        }
        let lo = pieces::piece_lo(self.off, j);
        let hi = pieces::piece_hi(self.end, j);
        words::copy(
            self.image,
            BLKSIZE * a + lo,
            self.buf,
            BLKSIZE * j + lo - self.off,
            hi - lo,
        );
    }
}

impl<'a, 'b> Walk for Reader<'a, 'b> {
    ghost use Rattle.file_blocks.proofs.Ranges.{span_part, same_room};
    ghost use Rattle.file_blocks.proofs.Lengths.{length-run_read};
    ghost use Rattle.file_read.specs.Inner.{Span, over};

    ghost card = { λ r. r.image.now };

    ghost nb = { λ r. r.nb };

    ghost Ready = { Span };

    ghost turn = { over };

    fn image(&self) -> &[u8] {
        self.image
    }

    fn blocks(&self) -> usize {
        self.nb
    }

    // No `run` of the trait's own over a step: that would take two more ghost members and a law, for three lines.
    fn run(&mut self, at: usize, i: usize, e: usize) {
        for j in i..e {
            let b = BlockId(u32::get(self.image, at + 4 * (j - i)));
            self.piece(b, j);
        }
    }

    ghost whole = { λ i e r s. s.0 };

    ghost part = { λ i e j k r s h. span_part _ _ i e j k _ _ _ s h };

    ghost stays = { λ at i e j k r s. (s.0, s.1, s.2, s.3, same_room _ _ _ (length-run_read r.image.now r.nb r.off r.end at j k r.buf.now) s.4) };

    ghost same_nb = { λ at i e r. refl };
}

// The bytes off to end of file n, on a card of nb blocks.
#[tactic(auto, using(crate::proofs::Readers::reads))]
pub fn read_at(image: &[u8], nb: usize, n: INodeId, off: usize, end: usize, buf: &mut [u8])
    requires { RangeAsks image.now nb n.0 off end (end - off ≤ length buf.old) }
    ensures { buf.new ≡ read_into image.now nb n.0 off end buf.old }
{
    let mut reader = Reader {
        image,
        nb,
        off,
        end,
        buf,
    };
    slots::file(&mut reader, n, pieces::first_of(off), pieces::after_of(end));
}
