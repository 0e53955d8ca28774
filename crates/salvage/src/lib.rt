// Salvage of a capture: each readable frame becomes its clean frame, and three lists tell what was altered, where, and what is refused.
#![tactic(auto)]

ghost use Rattle.paper.specs.Answer.{answer};
ghost use Rattle.laws.specs.Lent.{◌to◌};
ghost use Rattle.salvage.specs.Calls.{Salvages};

mod frames;
mod lists;
mod places;

use lists::Lists;
use paper::Refusal;

// How many frames were altered, and how many are refused.
#[derive(Clone, Copy, Debug, PartialEq, Eq)]
pub struct Counts {
    pub altered: usize,
    pub refused: usize,
}

// The capture in `file`, salvaged where it stands. Each list is to have room for as many entries as there are frames: 12 where it has
// not. Three lists, as `Salvages` has them.
pub fn salvage(
    file: &mut [u8],
    altered: &mut [u64],
    places: &mut [u64],
    refused: &mut [u64],
) -> Result<Counts, Refusal>
    ensures { Salvages (file.entry to file.exit) (altered.entry to altered.exit) (places.entry to places.exit)
        (refused.entry to refused.exit) (answer result) }
{
    let count = capture::head(file)?.count;
    if altered.len() < count || places.len() < count || refused.len() < count {
        return Err(Refusal::Unfit);
    }
    let mut lists = Lists::of(altered, places, refused);
    frames::all(count, file, &mut lists);
    Ok(lists.counts)
}
