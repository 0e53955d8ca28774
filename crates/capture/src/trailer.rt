// The trailer: three numbers of eight bytes, the first of which is the tag and the lane.
ghost use Rattle.std.specs.Prelude.{◌≡◌, length};
ghost use Rattle.paper.specs.Answer.{answer};
ghost use Rattle.radix.specs.Octets.{numbers_of};
ghost use Rattle.filing.specs.File.{trailer};
ghost use Rattle.capture.specs.Parts.{pointing, judged, judged_by};

use crate::Label;
use paper::Refusal;

// 4C 43 41 50.
const TAG: u64 = 0x4C43_4150;

// The trailer in the 24 bytes that are its place.
pub(crate) fn put(place: &mut [u8], lane: u32, count: u64, distance: u64)
    requires { length place.old ≡ 24 }
    ensures { place.new ≡ trailer lane count distance }
{
    octets::store(place, 0, TAG * 0x1_0000_0000 + u64::from(lane));
    octets::store(place, 1, count);
    octets::store(place, 2, distance);
}

// The three numbers are handed on as they stand in the trailer: a struct would name them once more for two functions.

// Whether the distance is that of the first frame, with room for so many frames; the product is never taken.
fn points_back(ahead: usize, count: u64, distance: u64) -> bool
    ensures { result ≡ pointing ahead count distance }
{
    distance == ahead as u64 && count <= distance / 8
}

// What the numbers of a trailer say that stands behind `ahead` bytes.
fn judge(ahead: usize, first: u64, count: u64, distance: u64) -> Result<Label, Refusal>
    ensures { answer result ≡ judged ahead first count distance }
{
    if first / 0x1_0000_0000 != TAG {
        return Err(Refusal::NoTag);
    }
    if !points_back(ahead, count, distance) {
        return Err(Refusal::Disagreeing);
    }
    if (crate::MOST_FRAMES as u64) < count {
        return Err(Refusal::TooManyFrames);
    }
    Ok(Label {
        lane: (first % 0x1_0000_0000) as u32,
        count: count as usize,
    })
}

// The same of the bytes of a trailer.
pub(crate) fn label(ahead: usize, trailer: &[u8]) -> Result<Label, Refusal>
    ensures { answer result ≡ judged_by ahead (numbers_of trailer.now) }
{
    judge(
        ahead,
        octets::number(trailer, 0),
        octets::number(trailer, 1),
        octets::number(trailer, 2),
    )
}
