// Filling a lent output with the parts of a file, and a lent list with its frames.
ghost use Rattle.std.specs.Prelude.{◌≡◌, not, ◌*◌, ◌/◌, ◌≤◌, length, take};
ghost use Rattle.paper.specs.Numbers.{most_bytes};
ghost use Rattle.paper.specs.Answer.{answer};
ghost use Rattle.laws.specs.Lent.{◌over◌};
ghost use Rattle.radix.specs.Octets.{numbers_of, eight, bytes_of};
ghost use Rattle.capture.specs.Parts.{size_of, too_long, fitting, finished};

use paper::Refusal;

// Frames that a file of 65,536 bytes has room for.
const ROOM: usize = (paper::MOST_BYTES - crate::TRAILER_BYTES) / 8;

// Whether a file with so many frames and bytes of notes keeps the limit and goes into `room` bytes.
fn goes_in(count: usize, notes: usize, room: usize) -> bool
    ensures { result ≡ not (too_long count notes room) }
{
    count <= ROOM
        && notes <= paper::MOST_BYTES - crate::TRAILER_BYTES - count * 8
        && count * 8 + notes + crate::TRAILER_BYTES <= room
}

// Its length, or the refusal.
pub(crate) fn fit(count: usize, notes: usize, room: usize) -> Result<usize, Refusal>
    ensures { answer result ≡ fitting count notes room }
{
    if !goes_in(count, notes, room) {
        return Err(Refusal::Unfit);
    }
    if crate::MOST_FRAMES < count {
        return Err(Refusal::TooManyFrames);
    }
    Ok(count * 8 + notes + crate::TRAILER_BYTES)
}

// A frame in the eight bytes that are its place.
fn put_frame(place: &mut [u8], frame: u64)
    requires { length place.old ≡ 8 }
    ensures { place.new ≡ eight frame }
{
    octets::store(place, 0, frame);
}

// Each frame straight into its place: frame n is lent the eight bytes from 8n on.
pub(crate) fn put_frames(frames: &[u64], out: &mut [u8])
    requires { length frames.now * 8 ≤ length out.old }
    ensures { out.new ≡ bytes_of frames.now over out.old }
{
    for (n, frame) in frames.iter().enumerate() {
        let at = n * 8;
        put_frame(&mut out[at..at + 8], *frame);
    }
}

// Bytes at the start of a lent output. One by one: `copy_from_slice` would have the archive for C ask its program for `memmove`.
pub(crate) fn copy(from: &[u8], to: &mut [u8])
    requires { length from.now ≤ length to.old }
    ensures { to.new ≡ from.now over to.old }
{
    for (i, x) in from.iter().enumerate() {
        to[i] = *x;
    }
}

// Notes and trailer behind so many frames. What a file is written from stays side by side, as `Writes` has it.
pub(crate) fn finish(lane: u32, count: usize, notes: &[u8], out: &mut [u8])
    requires { (size_of count (length notes.now) ≤ length out.old) × (size_of count (length notes.now) ≤ most_bytes) }
    ensures { out.new ≡ finished out.old lane count notes.now }
{
    let from = count * 8;
    let to = from + notes.len();
    copy(notes, &mut out[from..to]);
    crate::trailer::put(
        &mut out[to..to + crate::TRAILER_BYTES],
        lane,
        count as u64,
        to as u64,
    );
}

// The first frames of a file, as many as a lent list has.
pub(crate) fn take_frames(file: &[u8], frames: &mut [u64])
    requires { length frames.old ≤ length file.now / 8 }
    ensures { frames.new ≡ take (length frames.old) (numbers_of file.now) }
{
    for (n, frame) in frames.iter_mut().enumerate() {
        *frame = octets::number(file, n);
    }
}
