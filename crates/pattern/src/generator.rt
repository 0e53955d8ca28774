// The generator: a pattern's register, which fills lent buffers.
ghost use Rattle.std.specs.Prelude.{◌≡◌, true, ◌*◌, ◌≤◌, ◌<◌, ◌^◌, length};
ghost use Rattle.paper.specs.Answer.{owed, answer};
ghost use Rattle.sequence.specs.Sequence.{onward, bytes};
ghost use Rattle.pattern.specs.Generation.{registered};
ghost use Rattle.pattern.specs.Calls.{Starts, fill_refusal, Fills};
ghost use Rattle.pattern.specs.Parts.{Advances};

use crate::range::known;
use crate::steps::Taps;
use paper::{MOST_BYTES, Refusal};

// The pattern's number is its length, 11 or 31: a number and no enum, since a caller may hand in any, and 11 refuses what is none
// (`Starts`, `Fills`). The register holds its last bits, the oldest highest.
#[derive(Clone, Copy, Debug, PartialEq, Eq)]
pub struct Generator {
    pub pattern: u8,
    pub register: u64,
}

impl<const L: u64, const T: u64> Taps<L, T> {
    fn fill(self, r: u64, out: &mut [u8]) -> u64
        requires { r < 2 ^ L }
        ensures { (result ≡ onward L T (8 * length out.old) r) × (out.new ≡ bytes L T (length out.old) r) }
    {
        let mut q = r;
        for x in out.iter_mut() {
            let byte = self.ahead(q, 8);
            *x = byte.bits as u8;
            q = self.moved(q, byte);
        }
        q
    }
}

impl Generator {
    #[tactic(auto, unfolding(crate::specs::Generation::registered))]
    fn in_range(self) -> bool
        ensures { result ≡ registered self.pattern self.register }
    {
        known(self.pattern) && self.register < 1 << self.pattern
    }

    // What speaks against a buffer of n bytes, which a start has none of.
    fn check(self, n: usize) -> Result<(), Refusal>
        ensures { answer result ≡ owed (fill_refusal self.pattern self.register n) tt }
    {
        let inside = self.in_range();
        if n > MOST_BYTES {
            return Err(Refusal::Unfit);
        }
        if !inside {
            return Err(Refusal::Outside);
        }
        if self.register == 0 {
            return Err(Refusal::AllZero);
        }
        Ok(())
    }

    // The register after a buffer that is filled at the taps of its pattern.
    fn fill_at_taps(self, out: &mut [u8]) -> u64
        requires { registered self.pattern self.register ≡ true }
        ensures { Advances self.pattern self.register out.old result out.new }
    {
        if self.pattern == 11 {
            return Taps::<11, 9> {}.fill(self.register, out);
        }
        Taps::<31, 28> {}.fill(self.register, out)
    }

    // 11: no such pattern, or a register of more bits than it has; 18: all of them zero.
    pub fn start(pattern: u8, register: u64) -> Result<Generator, Refusal>
        ensures { Starts pattern register result }
    {
        let fresh = Generator { pattern, register };
        fresh.check(0)?;
        Ok(fresh)
    }

    // 12: more than 65,536 bytes; 11, 18: as at the start. Otherwise every byte of `out` is the pattern's, the first bit highest,
    // and the state comes back eight bits a byte on. Only an accepting answer holds a state: after a refusal the caller still has
    // the one it passed.
    pub fn fill(self, out: &mut [u8]) -> Result<Generator, Refusal>
        ensures { Fills self out.old result out.new }
    {
        self.check(out.len())?;
        let register = self.fill_at_taps(out);
        Ok(Generator { register, ..self })
    }
}
