// The forms in which a list holds 64-bit numbers: as numbers, or as bytes, eight a number, highest first.
ghost use Rattle.std.specs.Prelude.{◌≡◌, List, ℕ, length, get_or, set};
ghost use Rattle.radix.specs.Octets.{numbers_of, stored};
ghost use Rattle.radix.specs.Forms.{FormLaws, same_numbers, bytes_over, numbers_over, set_number};
ghost use Rattle.radix.proofs.Forms.{bytes_laws, numbers_laws};

// What a list that holds numbers is made of.
pub trait Form: Copy {
    // The numbers that a list holds.
    ghost numbers: { List Self → List ℕ };

    // A list with numbers at its front.
    ghost laid: { List ℕ → List Self → List Self };

    // A list with one number in its place.
    ghost stored: { List Self → ℕ → ℕ → List Self };

    fn count(list: &[Self]) -> usize
        ensures { result ≡ length (numbers list.now) };

    // Number i, 0 where there is none.
    fn number(list: &[Self], i: usize) -> u64
        ensures { result ≡ get_or (numbers list.now) i 0 };

    fn store(list: &mut [Self], i: usize, x: u64)
        ensures { list.new ≡ stored list.old i x };

    ghost laws: { FormLaws numbers laid stored };
}

impl Form for u64 {
    ghost numbers = { same_numbers };

    ghost laid = { numbers_over };

    ghost stored = { set_number };

    ghost laws = { numbers_laws };

    fn count(list: &[u64]) -> usize {
        list.len()
    }

    fn number(list: &[u64], i: usize) -> u64 {
        if i < list.len() { list[i] } else { 0 }
    }

    fn store(list: &mut [u64], i: usize, x: u64) {
        if i < list.len() {
            list[i] = x;
        }
    }
}

impl Form for u8 {
    ghost numbers = { numbers_of };

    ghost laid = { bytes_over };

    ghost stored = { stored };

    ghost laws = { bytes_laws };

    fn count(list: &[u8]) -> usize {
        list.len() / 8
    }

    fn number(list: &[u8], i: usize) -> u64 {
        crate::number(list, i)
    }

    fn store(list: &mut [u8], i: usize, x: u64) {
        crate::store(list, i, x);
    }
}
