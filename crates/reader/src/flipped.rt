// The flips of an entry: their places, and how many of them are in check bits. 63 stands for no place.
ghost use Rattle.std.specs.Prelude.{◌≡◌, cond, ◌<◌, ◌≤◌, ltb, length};
ghost use Rattle.bch.specs.Corrections.{places};
ghost use Rattle.decoding.specs.Found.{check_flips};
ghost use Rattle.reader.specs.Answers.{places_of};

use crate::Flips;

#[tactic(auto, unfolding(bch::specs::Corrections::places))]
pub(crate) fn flips_of(e: u64) -> Flips
    requires { e < 4096 }
    ensures { places_of result ≡ places e }
{
    match (e / 64, e % 64) {
        (63, 63) => Flips::Nowhere,
        (a, 63) => Flips::One(a),
        (63, b) => Flips::One(b),
        (a, b) => Flips::Two(a, b),
    }
}

// 1 for a place before END, 0 for any other number.
fn is_before<const END: u64>(place: u64) -> u8
    ensures { (result ≡ cond (ltb place END) 1 0) × (result ≤ 1) }
{
    u8::from(place < END)
}

#[tactic(auto, using(crate::proofs::Entries::count_places))]
pub(crate) fn count_of(e: u64) -> u8
    ensures { result ≡ length (places e) }
{
    is_before::<63>(e / 64) + is_before::<63>(e % 64)
}

#[tactic(auto, using(crate::proofs::Entries::count_checks))]
pub(crate) fn check_flips_of(e: u64) -> u8
    ensures { result ≡ check_flips (places e) }
{
    count_of(e) - is_before::<51>(e / 64) - is_before::<51>(e % 64)
}
