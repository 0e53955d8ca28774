// The taps of a pattern, and the steps of a register over them.
ghost use Rattle.std.specs.Prelude.{◌≡◌, ◌≤◌, ◌<◌, ◌^◌};
ghost use Rattle.sequence.specs.Bits.{number};
ghost use Rattle.sequence.specs.Sequence.{onward, next_bits};

// The pattern's length L and its second tap T, constants so that each pattern has loops of its own with fixed shifts.
#[derive(Clone, Copy, Debug, PartialEq, Eq)]
pub(crate) struct Taps<const L: u64, const T: u64> {
    // A byte reaches no tap of its own, and shifts stay in a word.
    ghost byte: { 8 ≤ T },
    ghost apart: { T < L },
    ghost word: { L < 32 },
}

// A run of bits, at most a byte of them, as a number: the first highest.
#[derive(Clone, Copy, Debug, PartialEq, Eq)]
pub(crate) struct Run {
    pub(crate) bits: u64,
    pub(crate) len: u64,
    ghost byte: { len ≤ 8 },
    ghost fits: { bits < 2 ^ len },
}

// The register r is a plain number: a counter's is whole only once it is filled, so a type of whole ones would be built at each byte.
impl<const L: u64, const T: u64> Taps<L, T> {
    // The next k bits. None of them is a tap of another, so one exclusive-or gives them all.
    pub(crate) fn ahead(self, r: u64, k: u64) -> Run
        requires { (r < 2 ^ L) × (k ≤ 8) }
        ensures { (result.len ≡ k) × (result.bits ≡ number (next_bits L T k r)) }
    {
        Run {
            bits: ((r ^ (r << (L - T))) >> (L - k)) % (1 << k),
            len: k,
        }
    }

    // The register after the run, which is of the bits that come next.
    pub(crate) fn moved(self, r: u64, run: Run) -> u64
        requires { (r < 2 ^ L) × (run.bits ≡ number (next_bits L T run.len r)) }
        ensures { (result ≡ onward L T run.len r) × (result < 2 ^ L) }
    {
        ((r << run.len) + run.bits) % (1 << L)
    }
}
