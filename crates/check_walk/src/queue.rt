// The queue of the walk: inodes as they are named, each once.
ghost use Rattle.std.specs.Prelude.{◌≡◌, ◌+◌, ◌*◌, ◌≤◌, ◌<◌, length};
ghost use Rattle.card_layout.specs.Sizes.{most, full_links};
ghost use Rattle.check_walk.specs.Inner.{seen_at, Noted, Scannable, Scans};

use card_layout::{INodeId, MAX_NLINKS};
use check_names::loading;

// As wide as a count of the walk.
const MANY: u32 = MAX_NLINKS as u32;

// Notes that an entry names m, which was named v times.
fn note(s: &mut [u32], nb: usize, m: INodeId, v: u32, t: usize) -> usize
    requires { (nb ≤ most) × (length s.old ≡ 4 * nb) × (m.0 < nb) × (v ≡ seen_at s.old nb m.0) × (v ≤ full_links) × (v ≡ 0 → t < nb) }
    ensures { Noted s.old s.new nb m.0 t result }
{
    let at = 2 * nb + m.0 as usize;
    if v == 0 {
        s[t] = m.0;
        s[at] = 1;
        return t + 1;
    }
    s[at] = v + 1;
    t
}

// Notes the e children of directory n, and answers where the queue ends then. None: the card is not whole. A number that was named 65,536 times, counting the
// root once more than its entries, is no inode's of a whole card if it is named again: links have 16 bits.
pub fn scan(image: &[u8], s: &mut [u32], nb: usize, n: INodeId, e: usize, t: usize) -> Option<usize>
    requires { Scannable image.now s.old nb n.0 e t }
    ensures { Scans result image.now s.old s.new nb n.0 t }
{
    let mut end = t;
    let mut p = loading::nowhere(n);
    for j in 0..e {
        p = loading::entry_after(image, n, p, 2 + j);
        let m = p.number;
        let at = m.0 as usize;
        if nb <= at {
            return None;
        }
        let v = s[2 * nb + at];
        if MANY < v {
            return None;
        }
        end = note(s, nb, m, v, end);
    }
    Some(end)
}
