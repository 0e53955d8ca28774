// The counter of errors: received bits fill its register, and from then on are compared.
ghost use Rattle.std.specs.Prelude.{◌≡◌, true, ◌≤◌, ◌<◌, ◌^◌, ltb, length};
ghost use Rattle.paper.specs.Answer.{owed, answer};
ghost use Rattle.sequence.specs.Bits.{highest, bits_of};
ghost use Rattle.paper.specs.Numbers.{most_bytes, most_counted};
ghost use Rattle.sequence.specs.Counting.{Steady};
ghost use Rattle.sequence.specs.Patterns.{second_tap};
ghost use Rattle.pattern.specs.Counting.{count_of, in_range, fed_on};
ghost use Rattle.pattern.specs.Calls.{Opens, Feeds};
ghost use Rattle.pattern.specs.Parts.{Entering, Comparing, compared, piece_refusal};

use crate::range::known;
use crate::steps::{Run, Taps};
use paper::{MOST_BYTES, MOST_COUNTED, Refusal};

// The pattern's number is its length, and no enum, as the generator's. The bits that came, up to that many, stand low in the register,
// the oldest highest.
#[derive(Clone, Copy, Debug, PartialEq, Eq)]
pub struct Counter {
    pub pattern: u8,
    pub filled: u64,
    pub register: u64,
    pub bits: u64,
    pub errors: u64,
}

impl<const L: u64, const T: u64> Taps<L, T> {
    // The counter with the run entered in its register.
    fn enter(self, c: Counter, run: Run) -> Counter
        requires { Entering L c run.len }
        ensures { result ≡ fed_on L T c (highest run.len run.bits) }
    {
        Counter {
            filled: c.filled + run.len,
            register: (c.register << run.len) + run.bits,
            ..c
        }
    }

    // The full counter with the run compared.
    fn compare(self, c: Counter, run: Run) -> Counter
        requires { Comparing L c }
        ensures { result ≡ fed_on L T c (highest run.len run.bits) }
    {
        let next = self.ahead(c.register, run.len);
        let wrong = u64::from((next.bits ^ run.bits).count_ones());
        let register = self.moved(c.register, next);
        Counter {
            register,
            bits: c.bits + run.len,
            errors: c.errors + wrong,
            ..c
        }
    }

    // A byte goes whole into the register, or is whole compared, or fills the last places and is compared with what is left of it.
    fn feed_byte(self, c: Counter, byte: u8) -> Counter
        requires { Steady L (count_of c) × (c.bits < 2 ^ 54) }
        ensures { result ≡ fed_on L T c (highest 8 byte) }
    {
        let room = L - c.filled;
        let x = u64::from(byte);
        if room == 0 {
            return self.compare(c, Run { bits: x, len: 8 });
        }
        if room >= 8 {
            return self.enter(c, Run { bits: x, len: 8 });
        }
        let left = 8 - room;
        let full = self.enter(
            c,
            Run {
                bits: x >> left,
                len: room,
            },
        );
        self.compare(
            full,
            Run {
                bits: x % (1 << left),
                len: left,
            },
        )
    }

    fn feed_bytes(self, c: Counter, piece: &[u8]) -> Counter
        requires { Steady L (count_of c) × (c.bits < 2 ^ 53) × (length piece.now ≤ most_bytes) }
        ensures { result ≡ fed_on L T c (bits_of piece.now) }
    {
        let mut d = c;
        for x in piece {
            d = self.feed_byte(d, *x);
        }
        d
    }

    // The answer to a piece that nothing speaks against, at the taps of the counter's pattern.
    fn feed(self, c: Counter, piece: &[u8]) -> Result<Counter, Refusal>
        requires { (c.pattern ≡ L) × (T ≡ second_tap L) × (piece_refusal c (length piece.now) ≡ 0) }
        ensures { Feeds c piece.now result }
    {
        let d = self.feed_bytes(c, piece);
        // A full register is zero now exactly where it was when it was filled.
        if d.filled == L && d.register == 0 {
            return Err(Refusal::AllZero);
        }
        Ok(d)
    }
}

impl Counter {
    // Whether n bytes more would take the bits compared past the limit.
    fn past_count(self, n: usize) -> bool
        requires { (in_range self ≡ true) × (n ≤ most_bytes) }
        ensures { result ≡ ltb most_counted (compared self n) }
    {
        self.bits + n as u64 * 8 > MOST_COUNTED + (u64::from(self.pattern) - self.filled)
    }

    // What speaks against a piece of n bytes before any of it is fed.
    fn check(self, n: usize) -> Result<(), Refusal>
        ensures { answer result ≡ owed (piece_refusal self n) tt }
    {
        if n > MOST_BYTES {
            return Err(Refusal::Unfit);
        }
        if !self.in_range() {
            return Err(Refusal::Outside);
        }
        if self.past_count(n) {
            return Err(Refusal::PastCount);
        }
        Ok(())
    }

    // 11: no such pattern.
    pub fn fresh(pattern: u8) -> Result<Counter, Refusal>
        ensures { Opens pattern result }
    {
        if !known(pattern) {
            return Err(Refusal::Outside);
        }
        Ok(Counter {
            pattern,
            filled: 0,
            register: 0,
            bits: 0,
            errors: 0,
        })
    }

    // 12: more than 65,536 bytes; 11: a state out of its range; 20: more than 2^53 - 1 bits compared; 18: the register filled with
    // zeros alone. Only an accepting answer holds a state: after a refusal the caller still has the one it passed.
    pub fn feed(self, piece: &[u8]) -> Result<Counter, Refusal>
        ensures { Feeds self piece.now result }
    {
        self.check(piece.len())?;
        if self.pattern == 11 {
            return Taps::<11, 9> {}.feed(self, piece);
        }
        Taps::<31, 28> {}.feed(self, piece)
    }
}
