// The calls that bench/ measures, exported to C on 64-bit numbers. An archive exports what its own crate defines: so each has the contract of
// the call behind it once more.
#![tactic(auto)]

ghost use Rattle.std.specs.Prelude.{◌≡◌, leb, length};
ghost use Rattle.paper.specs.Answer.{Answer, number_of, numbered};
ghost use Rattle.laws.specs.Lent.{◌to◌, ◌over◌};
ghost use Rattle.filing.specs.File.{most_frames};
ghost use Rattle.capture.specs.Calls.{Writes, FileCall};
ghost use Rattle.host.specs.Captures.{Returned};
ghost use Rattle.maker.specs.Lists.{MakesList};
ghost use Rattle.reader.specs.Lists.{ReadsList, ReadsPads, VerdictOf};
ghost use Rattle.salvage.specs.Calls.{Salvages};
ghost use Rattle.salvage.specs.declared.Counts.{Counts};

#[unsafe(no_mangle)]
pub extern "C" fn bench_read(frame: u64) -> u8
    ensures { VerdictOf frame result }
{
    reader::verdict_of(reader::read(frame))
}

#[unsafe(no_mangle)]
pub extern "C" fn bench_make_list(data: &[u64], frames: &mut [u64]) -> u8
    ensures { MakesList «data».now (frames.entry to frames.exit) (numbered result) }
{
    paper::number_of(maker::make_list(data, frames))
}

#[unsafe(no_mangle)]
pub extern "C" fn bench_read_list(
    frames: &[u64],
    data: &mut [u64],
    verdicts: &mut [u8],
    checks: &mut [u8],
) -> u8
    ensures { ReadsList frames.now («data».entry to «data».exit) (verdicts.entry to verdicts.exit)
        (checks.entry to checks.exit) (numbered result) }
{
    paper::number_of(reader::read_list(frames, data, verdicts, checks))
}

#[unsafe(no_mangle)]
pub extern "C" fn bench_read_list_pads(
    frames: &[u64],
    data: &mut [u64],
    verdicts: &mut [u8],
    pads: &mut [u8],
    checks: &mut [u8],
) -> u8
    ensures { ReadsPads frames.now («data».entry to «data».exit) (verdicts.entry to verdicts.exit)
        (pads.entry to pads.exit) (checks.entry to checks.exit) (numbered result) }
{
    paper::number_of(reader::read_list_pads(frames, data, verdicts, pads, checks))
}

#[unsafe(no_mangle)]
pub extern "C" fn bench_capture_write(
    lane: u32,
    frames: &[u64],
    notes: &[u8],
    file: &mut [u8],
) -> u64
    ensures { Returned (Writes lane frames.now notes.now (file.entry to file.exit)) result }
{
    host::length_of(capture::write(lane, frames, notes, file))
}

#[unsafe(no_mangle)]
pub extern "C" fn bench_capture_read(file: &[u8], frames: &mut [u64]) -> u8
    ensures { FileCall (leb most_frames (length frames.old))
        (λ c u. frames.new ≡ c.frames over frames.old) (frames.new ≡ frames.old)
        file.now (numbered result) }
{
    paper::number_of(capture::read(file, frames))
}

#[unsafe(no_mangle)]
pub extern "C" fn bench_salvage(
    file: &mut [u8],
    altered: &mut [u64],
    places: &mut [u64],
    refused: &mut [u64],
) -> u8
    ensures { (a : Answer Counts) × (result ≡ number_of a) × Salvages (file.entry to file.exit) (altered.entry to altered.exit)
        (places.entry to places.exit) (refused.entry to refused.exit) a }
{
    paper::number_of(salvage::salvage(file, altered, places, refused))
}
