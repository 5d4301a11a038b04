// Find and the entry at an index: RULES' tests, in its order. Nothing changes.
#![tactic(auto)]

ghost use Rattle.std.specs.Prelude.{◌≡◌};
ghost use Rattle.card_rules.specs.Whole.{Reached, Whole};
ghost use Rattle.refusals.specs.Refusals.{giving};
ghost use Rattle.dir_look.specs.Look.{find_answer, entry_answer, entry_bytes, bytes_of};

use card_layout::{DIRENT_SIZE, INodeId};
use check_names::loading;
use dir_answers::judging;
use refusals::Refusal;

// As wide as an index.
const ENTRY: u64 = DIRENT_SIZE as u64;

// The number that directory p has for the name x.
#[tactic(auto, unfolding(crate::specs::Look::find_answer))]
pub fn find(image: &[u8], p: INodeId, x: &[u8]) -> Result<INodeId, Refusal>
    requires { Whole image.now × Reached image.now p.0 }
    ensures { result ≡ find_answer image.now p.0 x.now }
{
    let h = judging::dir_head(image, p)?;
    let k = judging::place_of(image, p, h, x)?;
    Ok(loading::entry_number(image, p, k))
}

// The 260 bytes of entry k of directory p: any 64-bit number may be asked for.
#[tactic(auto, unfolding(crate::specs::Look::entry_answer, crate::specs::Look::entry_bytes))]
pub fn entry_at(image: &[u8], p: INodeId, k: u64) -> Result<[u8; DIRENT_SIZE], Refusal>
    requires { Whole image.now × Reached image.now p.0 }
    ensures { result ≡ giving (entry_answer image.now p.0 k) (entry_bytes image.now p.0 k) }
{
    let h = judging::dir_head(image, p)?;
    if k >= h.size as u64 / ENTRY {
        return Err(Refusal::EntryNotFound);
    }
    Ok(loading::load_entry(image, p, k as usize))
}

// The bytes of such an answer by value, and 260 zeros if it is a refusal.
#[tactic(auto, using(crate::proofs::LookLaws::bytes_are))]
pub fn told(r: Result<[u8; DIRENT_SIZE], Refusal>) -> [u8; DIRENT_SIZE]
    ensures { result ≡ bytes_of r }
{
    r.unwrap_or([0; DIRENT_SIZE])
}

// Both.
pub fn entry(image: &[u8], p: INodeId, k: u64) -> [u8; DIRENT_SIZE]
    requires { Whole image.now × Reached image.now p.0 }
    ensures { result ≡ entry_bytes image.now p.0 k }
{
    told(entry_at(image, p, k))
}
