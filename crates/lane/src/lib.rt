// The count of a lane: bytes to frames, frames to verdicts, pad flags and check flips, these to the tally.
#![tactic(auto)]

ghost use Rattle.std.specs.Prelude.{◌≡◌, true, ◌/◌, ◌%◌, length, Ok};
ghost use Rattle.paper.specs.Answer.{answer};
ghost use Rattle.tally.specs.Ranges.{in_range};
ghost use Rattle.lane.specs.Calls.{totals_of, CountsPiece};
ghost use Rattle.lane.specs.Parts.{Room, SeesBy, Sees};

use paper::Refusal;
use tables::Tables;
use tally::Tally;

// A tally, how many frames it has counted, and the bytes after the last whole frame.
#[derive(Clone, Copy, Debug, PartialEq, Eq)]
pub struct Totals {
    pub tally: Tally,
    pub frames: u64,
    pub left: u64,
}

// What the tally is told of a piece, with a place for each frame of the longest: three arrays, as `add_list` is lent them.
#[derive(Drop)]
struct Sights {
    verdicts: [u8; 8192],
    pads: [u8; 8192],
    checks: [u8; 8192],
}

// The totals after a piece of so many bytes.
#[tactic(auto, unfolding(tally::specs::Calls::Sums))]
fn with_frames(t: Tally, bytes: usize) -> Result<Totals, Refusal>
    requires { in_range t ≡ true }
    ensures { result ≡ Ok (totals_of t (bytes % 8)) }
{
    Ok(Totals {
        tally: t,
        frames: t.frames()?,
        left: (bytes % 8) as u64,
    })
}

// The tables are lent, as lists of frames are read.
fn see_by(tables: &Tables, bytes: &[u8], seen: &mut Sights)
    requires { Room (length bytes.now / 8) seen.old }
    ensures { SeesBy tables.now.corrections tables.now.sums bytes.now seen.old seen.new }
{
    for i in 0..bytes.len() / 8 {
        let s = reader::sight_by(tables, octets::number(bytes, i));
        seen.verdicts[i] = s.verdict;
        seen.pads[i] = s.pad;
        seen.checks[i] = s.checks;
    }
}

// The verdict, the pad flag and the check flips of each whole frame of a piece. The tables are taken once.
fn see(bytes: &[u8], seen: &mut Sights)
    requires { Room (length bytes.now / 8) seen.old }
    ensures { Sees bytes.now seen.old seen.new }
{
    see_by(&Tables::new(), bytes, seen);
}

// The totals with the whole frames of a piece of at most 65,536 bytes counted on, or 12, 11, 20. After a refusal the caller still has
// the tally it passed.
pub fn count(t: Tally, bytes: &[u8]) -> Result<Totals, Refusal>
    ensures { CountsPiece t bytes.now (answer result) }
{
    if paper::MOST_BYTES < bytes.len() {
        return Err(Refusal::Unfit);
    }
    let mut seen = Sights {
        verdicts: [0; 8192],
        pads: [0; 8192],
        checks: [0; 8192],
    };
    see(bytes, &mut seen);
    let n = bytes.len() / 8;
    let next = t.add_list(&seen.verdicts[..n], &seen.pads[..n], &seen.checks[..n])?;
    with_frames(next, bytes.len())
}
