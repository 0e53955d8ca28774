// The sums that mending asks of a word: by division, or by a lent table, a byte at a time.
ghost use Rattle.std.specs.Prelude.{◌≡◌, ◌+◌, ◌/◌, ◌%◌, ◌^◌, ◌<◌};
ghost use Rattle.frame.specs.Sums.{run_sums, sums};
ghost use Rattle.reader.specs.ByTables.{sums_by};

// The sum of the coefficient of x^k and of the one before it on the line.
fn run_sum(w: u64, k: u64) -> u64
    requires { (0 < k) × (k < 63) }
    ensures { result ≡ (w / 2 ^ k % 2 + w / 2 ^ (k + 1) % 2) % 2 }
{
    ((w >> k) % 2 + (w >> (k + 1)) % 2) % 2
}

// Positions 16, 33 and 50 are the coefficients of x^46, x^29 and x^12.
#[tactic(auto, unfolding(frame::specs::Sums::run_sums))]
fn run_sums(w: u64) -> u64
    ensures { result ≡ run_sums w }
{
    (run_sum(w, 46) * 2 + run_sum(w, 29)) * 2 + run_sum(w, 12)
}

#[tactic(auto, using(frame::proofs::Sums::runs_lt, poly::proofs::Division::rem_lt), unfolding(frame::specs::Sums::sums))]
pub(crate) fn sums_of(w: u64) -> u64
    ensures { result ≡ sums w }
{
    run_sums(w) * 4096 + poly::remainder(w)
}

#[tactic(auto, unfolding(crate::specs::ByTables::sums_by))]
pub(crate) fn sums_by(b: &[u16; 2048], frame: u64) -> u64
    ensures { result ≡ sums_by b.now 8 frame }
{
    let mut r = 0;
    for k in 0..8 {
        r ^= u64::from(b[(k * 256 + (frame >> (k * 8)) % 256) as usize]);
    }
    r
}
