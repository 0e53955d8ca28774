// The calls on pairs that bench/ measures, exported to C on 64-bit numbers: apart from the lists of frames, since the compiler copies a
// reader into its loop only where it has one.
#![tactic(auto)]

ghost use Rattle.paper.specs.Answer.{numbered};
ghost use Rattle.laws.specs.Lent.{◌to◌};
ghost use Rattle.pair.specs.Calls.{MakesPairs, ReadsPairs};

#[unsafe(no_mangle)]
pub extern "C" fn bench_pairs_make(frames: &[u64], words: &mut [u64]) -> u8
    ensures { MakesPairs frames.now (words.entry to words.exit) (numbered result) }
{
    paper::number_of(pair::make_pairs(frames, words))
}

#[unsafe(no_mangle)]
pub extern "C" fn bench_pairs_read(words: &[u64], data: &mut [u64], verdicts: &mut [u8]) -> u8
    ensures { ReadsPairs words.now («data».entry to «data».exit) (verdicts.entry to verdicts.exit) (numbered result) }
{
    paper::number_of(pair::read_pairs(words, data, verdicts))
}
