// Numbers of a list that are known to be there: taken and put with no test of their places, so that the loop over pairs has none.
ghost use Rattle.std.specs.Prelude.{◌≡◌, ◌+◌, ◌*◌, ◌/◌, ◌<◌, length, get_or};
ghost use Rattle.radix.specs.Octets.{numbers_of, stored};

use crate::Two;
use octets::Form;

pub(crate) trait Within: Form {
    fn taken(list: &[Self], i: usize) -> u64
        requires { i < length (Self.numbers list.now) }
        ensures { result ≡ get_or (Self.numbers list.now) i 0 };

    fn put(list: &mut [Self], i: usize, x: u64)
        requires { i < length (Self.numbers list.old) }
        ensures { list.new ≡ Self.stored list.old i x };

    // As numbers 2k and 2k + 1.
    fn put_two(list: &mut [Self], k: usize, t: Two)
        requires { 2 * k + 1 < length (Self.numbers list.old) }
        ensures { list.new ≡ Self.stored (Self.stored list.old (2 * k) t.first) (2 * k + 1) t.second };
}

impl Within for u64 {
    fn taken(list: &[u64], i: usize) -> u64 {
        list[i]
    }

    fn put(list: &mut [u64], i: usize, x: u64) {
        list[i] = x;
    }

    fn put_two(list: &mut [u64], k: usize, t: Two) {
        list[2 * k] = t.first;
        list[2 * k + 1] = t.second;
    }
}

fn eight_at(list: &[u8], i: usize) -> u64
    requires { i < length list.now / 8 }
    ensures { result ≡ get_or (numbers_of list.now) i 0 }
{
    let at = i * 8;
    octets::number(&list[at..at + 8], 0)
}

fn put_eight(list: &mut [u8], i: usize, x: u64)
    requires { i < length list.old / 8 }
    ensures { list.new ≡ stored list.old i x }
{
    let at = i * 8;
    list[at..at + 8].copy_from_slice(&x.to_be_bytes());
}

impl Within for u8 {
    #[tactic(auto, using(radix::proofs::Joined::numbers_len))]
    fn taken(list: &[u8], i: usize) -> u64 {
        eight_at(list, i)
    }

    #[tactic(auto, using(radix::proofs::Joined::numbers_len))]
    fn put(list: &mut [u8], i: usize, x: u64) {
        put_eight(list, i, x);
    }

    #[tactic(auto, using(radix::proofs::Joined::numbers_len))]
    fn put_two(list: &mut [u8], k: usize, t: Two) {
        put_eight(list, 2 * k, t.first);
        put_eight(list, 2 * k + 1, t.second);
    }
}
