// Bytes and numbers, highest byte first: 64-bit numbers, eight bytes each, and a number of any width at any place.
#![tactic(auto)]

ghost use Rattle.std.specs.Prelude.{◌≡◌, get_or};
ghost use Rattle.radix.specs.Octets.{numbers_of, stored};

mod form;
mod place;

pub use form::Form;
pub use place::{get, put};

// Number i of the whole eights of `bytes`, 0 where there is none.
pub fn number(bytes: &[u8], i: usize) -> u64
    ensures { result ≡ get_or (numbers_of bytes.now) i 0 }
{
    match bytes.as_chunks::<8>().0.get(i) {
        Some(eight) => u64::from_be_bytes(*eight),
        None => 0,
    }
}

// x as number i of the eights of `out`, which stays as it is where it has no such eight.
pub fn store(out: &mut [u8], i: usize, x: u64)
    ensures { out.new ≡ stored out.old i x }
{
    if i < out.len() / 8 {
        let a = i * 8;
        out[a..a + 8].copy_from_slice(&x.to_be_bytes());
    }
}
