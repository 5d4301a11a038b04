// Why a call is refused: RULES' names and numbers, one for each cause.
#![tactic(auto)]

ghost use Rattle.std.specs.Prelude.{◌≡◌};
ghost use Rattle.refusals.specs.Refusals.{refusal_no};

use std::error::Error;
use std::fmt;

#[derive(Clone, Copy, Debug, PartialEq, Eq)]
pub enum Refusal {
    ScratchShort = 1,
    WrongFs = 2,
    Damaged = 3,
    NoInode = 4,
    NotFile = 5,
    NotDir = 6,
    IsDir = 7,
    BadName = 8,
    EntryExist = 9,
    EntryNotFound = 10,
    DirNotEmpty = 11,
    InvalidParam = 12,
    TooManyLinks = 13,
    NoDeviceSpace = 14,
}

pub fn refusal_no(e: Refusal) -> u32
    ensures { result ≡ refusal_no e }
{
    e as u32
}

impl fmt::Display for Refusal {
    ghost use Rattle.std.specs.Prelude.{Some};
    ghost use Rattle.refusals.specs.Texts.{refusal_text};

    ghost output = { λ e. Some (refusal_text e) };

    fn fmt<W: fmt::Write>(&self, f: &mut fmt::Formatter<W>) -> fmt::Result {
        match self {
            Refusal::ScratchShort => f.write_str("the scratch is too short"),
            Refusal::WrongFs => f.write_str("the magic number is another"),
            Refusal::Damaged => f.write_str("the card is damaged"),
            Refusal::NoInode => f.write_str("no inode has that number"),
            Refusal::NotFile => f.write_str("a directory is no file"),
            Refusal::NotDir => f.write_str("not a directory"),
            Refusal::IsDir => f.write_str("a directory"),
            Refusal::BadName => f.write_str("the name cannot be stored"),
            Refusal::EntryExist => f.write_str("the name is taken"),
            Refusal::EntryNotFound => f.write_str("no such entry"),
            Refusal::DirNotEmpty => f.write_str("the directory is not empty"),
            Refusal::InvalidParam => f.write_str("an invalid parameter"),
            Refusal::TooManyLinks => f.write_str("too many links"),
            Refusal::NoDeviceSpace => f.write_str("no space is left on the card"),
        }
    }
}

impl Error for Refusal {}
