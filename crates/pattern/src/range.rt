// Which patterns there are, and the range of a counter that is handed in.
ghost use Rattle.std.specs.Prelude.{◌≡◌};
ghost use Rattle.sequence.specs.Patterns.{pattern};
ghost use Rattle.pattern.specs.Counting.{in_range};

use crate::counter::Counter;
use paper::MOST_COUNTED;

pub(crate) fn known(number: u8) -> bool
    ensures { result ≡ pattern number }
{
    number == 11 || number == 31
}

impl Counter {
    #[tactic(auto, unfolding(crate::specs::Counting::in_range))]
    pub(crate) fn in_range(self) -> bool
        ensures { result ≡ in_range self }
    {
        let l = u64::from(self.pattern);
        known(self.pattern)
            && self.filled <= l
            && self.register < 1 << self.filled
            && !(self.filled == l && self.register == 0)
            && (self.filled == l || self.bits == 0)
            && self.errors <= self.bits
            && self.bits <= MOST_COUNTED
    }
}
