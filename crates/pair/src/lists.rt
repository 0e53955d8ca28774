// The list forms' work, over outputs that are long enough, in either form.
ghost use Rattle.std.specs.Prelude.{◌≡◌, ℕ, ◌≤◌, length, take};
ghost use Rattle.laws.specs.Lent.{lent};
ghost use Rattle.reader.specs.Answers.{answer, verdict, data_in};
ghost use Rattle.reader.specs.Parts.{ShowsBy};
ghost use Rattle.pairing.specs.Order.{Pair, pairs_of, Interleaved};
ghost use Rattle.pair.specs.Calls.{pair, as_pair};
ghost use Rattle.pair.specs.Parts.{Parted, PairRoom, PairsIn, ReadIn, ReadsIn};

use crate::within::Within;
use crate::{Two, join, part};
use paper::Refusal;
use reader::{Word, read_by, verdict_of};
use tables::Tables;

// Which way pairs go.
pub(crate) trait Way {
    // What becomes of a pair.
    ghost Turns: { Pair ℕ → Pair ℕ → Type 0 };

    fn turned(first: u64, second: u64) -> Two
        ensures { Turns (pair first second) (as_pair result) };
}

// Frames to words.
pub(crate) struct ToWords;

// Words back to frames.
pub(crate) struct ToFrames;

impl Way for ToWords {
    ghost Turns = { Interleaved };

    fn turned(first: u64, second: u64) -> Two {
        join(first, second)
    }
}

impl Way for ToFrames {
    ghost Turns = { Parted };

    fn turned(first: u64, second: u64) -> Two {
        part(first, second)
    }
}

// Pair by pair.
pub(crate) fn over_pairs<W: Way, F: Within>(from: &[F], out: &mut [F])
    requires { length (F.numbers from.now) ≤ length (F.numbers out.old) }
    ensures { PairsIn F.laid W.Turns (pairs_of (F.numbers from.now)) out.old out.new }
{
    for k in 0..F::count(from) / 2 {
        F::put_two(
            out,
            k,
            W::turned(F::taken(from, 2 * k), F::taken(from, 2 * k + 1)),
        );
    }
}

// 0 where the frame is refused.
fn data_of(r: Result<Word, Refusal>) -> u64
    ensures { result ≡ data_in (answer r) }
{
    match r {
        Ok(w) => w.data,
        Err(_) => 0,
    }
}

// The first n frames of the list, each read where it stands.
fn read_each<F: Within>(tables: &Tables, n: usize, list: &mut [F], verdicts: &mut [u8])
    requires { (n ≤ length (F.numbers list.old)) × (n ≤ length verdicts.old) }
    ensures list { ReadIn F.laid tables.now.corrections tables.now.sums data_in (take n (F.numbers list.old)) list.old list.new }
    ensures verdicts { ShowsBy tables.now.corrections tables.now.sums verdict (take n (F.numbers list.old)) (lent verdicts) }
{
    for i in 0..n {
        let r = read_by(tables, F::taken(list, i));
        F::put(list, i, data_of(r));
        verdicts[i] = verdict_of(r);
    }
}

// The frames first, where their data is to stand; then they are read, by tables that are taken once.
pub(crate) fn read_all<F: Within>(words: &[F], data: &mut [F], verdicts: &mut [u8])
    requires { PairRoom (length (F.numbers words.now)) (length (F.numbers «data».old)) (length verdicts.old) }
    ensures { ReadsIn F.laid (pairs_of (F.numbers words.now)) «data».old «data».new verdicts.old verdicts.new }
{
    over_pairs::<ToFrames, F>(words, data);
    let tables = Tables::new();
    read_each(&tables, F::count(words), data, verdicts);
}
