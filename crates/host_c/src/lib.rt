// The entries of the library host as C calls them: its archive. Each has the contract of the entry behind it, word for word.
// C needs an archive, no crate can stand on one, and it exports what its own crate defines: so each entry stands in both.
#![tactic(auto)]

ghost use Rattle.paper.specs.Answer.{numbered};
ghost use Rattle.laws.specs.Lent.{◌to◌};
ghost use Rattle.maker.specs.Lists.{MakesBytes};
ghost use Rattle.reader.specs.Lists.{ReadsBytes};
ghost use Rattle.pair.specs.Calls.{MakesPairsBytes, ReadsPairsBytes};
ghost use Rattle.host.specs.Entries.{MakesCode, ReadsOut};
ghost use Rattle.host.specs.Captures.{WritesFile, ReadsLabel, ReadsFile};

#[unsafe(no_mangle)]
pub extern "C" fn lks_frame_make(data: u64) -> u64
    ensures { MakesCode «data» result }
{
    host::lks_frame_make(data)
}

#[unsafe(no_mangle)]
pub extern "C" fn lks_frame_read(frame: u64, answer: &mut [u8]) -> u64
    ensures { ReadsOut frame (answer.entry to answer.exit) result }
{
    host::lks_frame_read(frame, answer)
}

#[unsafe(no_mangle)]
pub extern "C" fn lks_frames_make(data: &[u8], frames: &mut [u8]) -> u64
    ensures { MakesBytes «data».now (frames.entry to frames.exit) (numbered result) }
{
    host::lks_frames_make(data, frames)
}

#[unsafe(no_mangle)]
pub extern "C" fn lks_frames_read(
    frames: &[u8],
    data: &mut [u8],
    verdicts: &mut [u8],
    checks: &mut [u8],
) -> u64
    ensures { ReadsBytes frames.now («data».entry to «data».exit) (verdicts.entry to verdicts.exit)
        (checks.entry to checks.exit) (numbered result) }
{
    host::lks_frames_read(frames, data, verdicts, checks)
}

#[unsafe(no_mangle)]
pub extern "C" fn lks_pairs_make(frames: &[u8], words: &mut [u8]) -> u64
    ensures { MakesPairsBytes frames.now (words.entry to words.exit) (numbered result) }
{
    host::lks_pairs_make(frames, words)
}

#[unsafe(no_mangle)]
pub extern "C" fn lks_pairs_read(words: &[u8], data: &mut [u8], verdicts: &mut [u8]) -> u64
    ensures { ReadsPairsBytes words.now («data».entry to «data».exit) (verdicts.entry to verdicts.exit)
        (numbered result) }
{
    host::lks_pairs_read(words, data, verdicts)
}

#[unsafe(no_mangle)]
pub extern "C" fn lks_capture_write(lane: u32, frames: &[u8], notes: &[u8], file: &mut [u8]) -> u64
    ensures { WritesFile lane frames.now notes.now (file.entry to file.exit) result }
{
    host::lks_capture_write(lane, frames, notes, file)
}

#[unsafe(no_mangle)]
pub extern "C" fn lks_capture_head(file: &[u8], answer: &mut [u8]) -> u64
    ensures { ReadsLabel file.now (answer.entry to answer.exit) (numbered result) }
{
    host::lks_capture_head(file, answer)
}

#[unsafe(no_mangle)]
pub extern "C" fn lks_capture_read(file: &[u8], frames: &mut [u8], answer: &mut [u8]) -> u64
    ensures { ReadsFile file.now (frames.entry to frames.exit) (answer.entry to answer.exit) (numbered result) }
{
    host::lks_capture_read(file, frames, answer)
}
