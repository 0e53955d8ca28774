// A number of n bytes, 1 to 8, from any place on, highest byte first.
ghost use Rattle.std.specs.Prelude.{◌≡◌, ◌+◌, ◌≤◌, ◌<◌, length};
ghost use Rattle.paper.specs.Answer.{answer};
ghost use Rattle.radix.specs.Octets.{joined, in_bytes};
ghost use Rattle.octets.specs.Calls.{there, inside, Gets, Puts};

use paper::Refusal;

// A number of n bytes stands at a place: `Gets` and `Puts` take both numbers, and so does each function here.

fn there(at: usize, n: usize, len: usize) -> bool
    ensures { result ≡ there at n len }
{
    1 <= n && n <= 8 && n <= len && at <= len - n
}

// By hand: what std has of the bytes of numbers is of fixed widths.
fn gathered(bytes: &[u8], at: usize, n: usize) -> u64
    requires { (n ≤ 8) × (at + n ≤ length bytes.now) }
    ensures { result ≡ joined n bytes.now at }
{
    let mut x: u64 = 0;
    for b in &bytes[at..at + n] {
        x = x * 256 + u64::from(*b);
    }
    x
}

// The number of the n bytes from place `at` on.
pub fn get(bytes: &[u8], at: usize, n: usize) -> Result<u64, Refusal>
    ensures { Gets bytes.now at n (answer result) }
{
    if there(at, n, bytes.len()) {
        Ok(gathered(bytes, at, n))
    } else {
        Err(Refusal::Unfit)
    }
}

fn inside(n: usize, x: u64) -> bool
    requires { n ≤ 8 }
    ensures { result ≡ inside n x }
{
    n == 8 || x >> (n * 8) == 0
}

// The lowest bytes of x, as many as `out` has, from its end on. By hand, as above.
fn lay(out: &mut [u8], x: u64)
    ensures { out.new ≡ in_bytes (length out.old) x }
{
    let mut rest = x;
    for i in (0..out.len()).rev() {
        out[i] = (rest % 256) as u8;
        rest /= 256;
    }
}

// x in the n bytes from place `at` on; 12 where they are not all there, 11 where x has more.
pub fn put(out: &mut [u8], at: usize, n: usize, x: u64) -> Result<(), Refusal>
    ensures { Puts out.old at n x (answer result) out.new }
{
    if !there(at, n, out.len()) {
        return Err(Refusal::Unfit);
    }
    if !inside(n, x) {
        return Err(Refusal::Outside);
    }
    lay(&mut out[at..at + n], x);
    Ok(())
}
