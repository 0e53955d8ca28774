// What lists show of a frame. It is not taken from a `Word`: to count the flips of an enum costs a frame with flips 13 to 24 instructions.
ghost use Rattle.std.specs.Prelude.{◌≡◌};
ghost use Rattle.paper.specs.Answer.{code, refused};
ghost use Rattle.decoding.specs.Found.{flag};
ghost use Rattle.reader.specs.Answers.{sight};
ghost use Rattle.reader.specs.ByTables.{clean_sums, as_received, said_by, lawful_by, read_by};
ghost use Rattle.reader.specs.Parts.{mended, mending};

use crate::flipped::{check_flips_of, count_of};
use crate::mend;
use crate::mend::Mended;
use crate::said::{ALL_RIGHT, CLEAN, data_in};
use crate::sums::sums_by;
use paper::Refusal;
use tables::Tables;

// The data of a frame, 0 where it is refused; its verdict byte: 0, 1 or 2 flips, 13 or 14; its pad flag, 1 for wrong, and its check
// flips, both 0 where it is refused.
#[derive(Clone, Copy, Debug, PartialEq, Eq)]
pub struct Sight {
    pub data: u64,
    pub verdict: u8,
    pub pad: u8,
    pub checks: u8,
}

// 1 for wrong, of a frame as it came and of a mended one alike.
fn flag_of(wrong: bool) -> u8
    ensures { result ≡ flag wrong }
{
    u8::from(wrong)
}

// In the place of what a refused frame does not have.
const NOTHING: u8 = 0;

fn refused(r: Refusal) -> Sight
    ensures { result ≡ sight (refused (code r)) }
{
    Sight {
        data: 0,
        verdict: r.code(),
        pad: NOTHING,
        checks: NOTHING,
    }
}

// A lawful word as it came.
fn as_received(frame: u64) -> Sight
    ensures { result ≡ sight (said_by (as_received clean_sums frame)) }
{
    let w = frame / 2;
    Sight {
        data: data_in(w),
        verdict: 0,
        pad: flag_of(frame % 2 == w % 2),
        checks: 0,
    }
}

// A code word: lawful, or 14.
fn lawful(m: Mended) -> Sight
    ensures { result ≡ sight (lawful_by (mended m)) }
{
    if m.runs == ALL_RIGHT {
        let e = m.entry % 4096;
        return Sight {
            data: data_in(m.clean / 2),
            verdict: count_of(e),
            pad: flag_of(m.pad_wrong),
            checks: check_flips_of(e),
        };
    }
    refused(Refusal::RunBroken)
}

fn said(m: Result<Mended, Refusal>) -> Sight
    ensures { result ≡ sight (said_by (mending m)) }
{
    match m {
        Ok(m) => lawful(m),
        Err(r) => refused(r),
    }
}

// By lent tables, as `read_by`.
#[tactic(auto, using(crate::proofs::ByTables::as_clean, crate::proofs::ByTables::as_mended))]
pub fn sight_by(tables: &Tables, frame: u64) -> Sight
    ensures { result ≡ sight (read_by tables.now.corrections tables.now.sums frame) }
{
    let x = sums_by(&tables.sums, frame);
    // The usual frame first.
    if x == CLEAN {
        return as_received(frame);
    }
    said(mend::mend_by(&tables.corrections, x, frame))
}
