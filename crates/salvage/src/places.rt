// Where a frame is to be altered: its places, laid like a frame.
ghost use Rattle.std.specs.Prelude.{◌≡◌, ◌-◌, ◌^◌};
ghost use Rattle.paper.specs.Answer.{gives, answer};
ghost use Rattle.reader.specs.Answers.{places_of, found};
ghost use Rattle.reader.specs.ByTables.{read_by};
ghost use Rattle.salvage.specs.Fates.{marked, places_in};
ghost use Rattle.salvage.specs.Parts.{placed};

use paper::Refusal;
use reader::{Flips, Word};
use tables::Tables;

// The frame with a one at a place alone.
fn spot(place: u64) -> u64
    ensures { result ≡ 2 ^ (63 - place) }
{
    0x8000_0000_0000_0000u64 >> place.min(63)
}

fn marked(flips: Flips) -> u64
    ensures { result ≡ marked (places_of flips) }
{
    match flips {
        Flips::Nowhere => 0,
        Flips::One(a) => spot(a),
        Flips::Two(a, b) => spot(a) ^ spot(b),
    }
}

// The pad is the last place.
fn in_word(w: Word) -> u64
    ensures { result ≡ places_in (gives (found w)) }
{
    marked(w.flips) ^ u64::from(w.pad_wrong)
}

// Of a frame, read by lent tables.
pub(crate) fn places_by(tables: &Tables, frame: u64) -> Result<u64, Refusal>
    ensures { answer result ≡ placed (read_by tables.now.corrections tables.now.sums frame) }
{
    Ok(in_word(reader::read_by(tables, frame)?))
}
