// The order of bits within words: halves change places, then the bits of each half go in turn.
ghost use Rattle.std.specs.Prelude.{◌≡◌};
ghost use Rattle.pair.specs.Parts.{Clear, Moved, exchanged, spread_from, gathered_from, highs, lows};

// Where bits change places with those so many above: the second of every four parts of that length, from the lowest on.
const BY_16: u64 = 0x0000_0000_ffff_0000;

const BY_8: u64 = 0x0000_ff00_0000_ff00;

const BY_4: u64 = 0x00f0_00f0_00f0_00f0;

const BY_2: u64 = 0x0c0c_0c0c_0c0c_0c0c;

const BY_1: u64 = 0x2222_2222_2222_2222;

// The bits at the ones of the mask and those k above change places.
fn exchange(x: u64, mask: u64, k: u64) -> u64
    requires { Clear mask k }
    ensures { Moved (exchanged mask k) x result }
{
    let t = (x ^ (x >> k)) & mask;
    x ^ t ^ (t << k)
}

// The high half at the odd bits, the low half at the even ones. The steps back are a function of their own: what differs is their
// order, and a list of steps that is gone through from either end says it less plainly.
pub(crate) fn shuffled(x: u64) -> u64
    ensures { Moved spread_from x result }
{
    let a = exchange(x, BY_16, 16);
    let b = exchange(a, BY_8, 8);
    let c = exchange(b, BY_4, 4);
    let d = exchange(c, BY_2, 2);
    exchange(d, BY_1, 1)
}

// The same steps back: the odd bits as the high half, the even ones as the low half.
pub(crate) fn unshuffled(x: u64) -> u64
    ensures { Moved gathered_from x result }
{
    let d = exchange(x, BY_1, 1);
    let c = exchange(d, BY_2, 2);
    let b = exchange(c, BY_4, 4);
    let a = exchange(b, BY_8, 8);
    exchange(a, BY_16, 16)
}

// The high halves of both, as one number.
pub(crate) fn highs(x: u64, y: u64) -> u64
    ensures { result ≡ highs x y }
{
    x / 0x1_0000_0000 * 0x1_0000_0000 + y / 0x1_0000_0000
}

// The low halves.
pub(crate) fn lows(x: u64, y: u64) -> u64
    ensures { result ≡ lows x y }
{
    x % 0x1_0000_0000 * 0x1_0000_0000 + y % 0x1_0000_0000
}
