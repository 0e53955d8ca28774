// Duplicate-add-parity: two copies of up to 64 bytes and the parity of one, by which a single damaged bit is found.
#![tactic(auto)]

ghost use Rattle.std.specs.Prelude.{◌≡◌, ◌&&◌, ◌++◌, ◌≤◌, leb, length, drop};
ghost use Rattle.std.specs.Int.Bits.{bit_xor};
ghost use Rattle.std.specs.Int.Count.{ones};
ghost use Rattle.paper.specs.Answer.{answer};
ghost use Rattle.dap.specs.Copies.{most_copied, weight, diffs};
ghost use Rattle.dap.specs.Calls as calls;
ghost use Rattle.dap.specs.Calls.{Makes, Judges, Empty, Hands};
ghost use Rattle.dap.specs.Parts.{judgement};

use paper::Refusal;

// The bytes of a copy at most.
const MOST_COPIED: usize = 64;

// What is damaged: nothing is one of the four findings.
#[derive(Clone, Copy, Debug, PartialEq, Eq)]
pub enum Damage {
    Nothing,
    FirstCopy,
    SecondCopy,
    ParityNumber,
}

// The ones of a copy.
fn weigh(a: &[u8]) -> u32
    requires { length a.now ≤ most_copied }
    ensures { result ≡ weight a.now }
{
    a.iter().map(|x| x.count_ones()).sum()
}

// At how many bits two bytes differ: by `few` the sum over a copy fits.
#[tactic(auto, using(crate::proofs::Sums::byte_diff))]
fn apart(x: u8, y: u8) -> u32
    ensures bits { result ≡ ones (bit_xor x y) }
    ensures few { result ≤ 8 }
{
    (x ^ y).count_ones()
}

// At how many bits two copies differ.
fn differing(a: &[u8], b: &[u8]) -> u32
    requires { (length a.now ≤ most_copied) × (length a.now ≡ length b.now) }
    ensures { result ≡ diffs a.now b.now }
{
    a.iter().zip(b).map(|(x, y)| apart(*x, *y)).sum()
}

// The data at the start of a lent output.
fn copy(data: &[u8], out: &mut [u8])
    requires { length «data».now ≤ length out.old }
    ensures { out.new ≡ «data».now ++ drop (length «data».now) out.old }
{
    out[..data.len()].copy_from_slice(data);
}

// Whether a copy may have so many bytes.
fn sized(n: usize) -> bool
    ensures { result ≡ leb 1 n && leb n most_copied }
{
    1 <= n && n <= MOST_COPIED
}

// Whether so many bytes are copied to outputs of these lengths.
fn lengths_fit(n: usize, first: usize, second: usize) -> bool
    ensures { result ≡ (leb 1 n && leb n most_copied) && (leb n first && leb n second) }
{
    sized(n) && n <= first && n <= second
}

// Copies the data to the start of both outputs and answers its parity.
pub fn make(data: &[u8], first: &mut [u8], second: &mut [u8]) -> Result<u8, Refusal>
    ensures { Makes «data».now first.old second.old result first.new second.new }
{
    if !lengths_fit(data.len(), first.len(), second.len()) {
        return Err(Refusal::Unfit);
    }
    copy(data, first);
    copy(data, second);
    Ok((weigh(data) % 2) as u8)
}

// What is damaged, by how many bits differ and whether the parity of the first copy agrees.
fn judge(apart: u32, agrees: bool) -> Result<Damage, Refusal>
    ensures { answer result ≡ judgement apart agrees }
{
    match (apart, agrees) {
        (0, true) => Ok(Damage::Nothing),
        (0, false) => Ok(Damage::ParityNumber),
        (1, true) => Ok(Damage::SecondCopy),
        (1, false) => Ok(Damage::FirstCopy),
        _ => Err(Refusal::TooManyBits),
    }
}

// What is damaged among two copies and their parity. The copies are lent apart, since `good` hands one of them back.
pub fn verdict(a: &[u8], b: &[u8], parity: u8) -> Result<Damage, Refusal>
    ensures { Judges a.now b.now parity result }
{
    if !sized(a.len()) || a.len() != b.len() {
        Err(Refusal::Unfit)
    } else if 1 < parity {
        Err(Refusal::Outside)
    } else {
        judge(differing(a, b), weigh(a) % 2 == u32::from(parity))
    }
}

// The copy that is good.
fn undamaged<'a>(damage: Damage, a: &'a [u8], b: &'a [u8]) -> &'a [u8]
    ensures { result ≡ calls.good damage a.entry b.entry }
{
    match damage {
        Damage::FirstCopy => b,
        Damage::Nothing | Damage::SecondCopy | Damage::ParityNumber => a,
    }
}

// The empty part of a slice, at its start.
fn empty_part<'a>(a: &'a [u8]) -> &'a [u8]
    ensures { Empty a.entry result }
{
    &a[..0]
}

// The good copy itself, the lent one; where the verdict refuses, the empty part of the first.
pub fn good<'a>(a: &'a [u8], b: &'a [u8], parity: u8) -> &'a [u8]
    ensures { Hands a.entry b.entry parity result }
{
    match verdict(a, b, parity) {
        Ok(damage) => undamaged(damage, a, b),
        Err(_) => empty_part(a),
    }
}
