// The account of a salvage: its totals, and what it tells of each frame, one line a call.
ghost use Rattle.std.specs.Prelude.{◌≡◌, [], ◌∷◌, Some, drop, ◌-◌, ◌^◌, ◌<◌, ◌≤◌};
ghost use Rattle.wording.specs.Account.{hex_digit, hex16, altered_line, account_head, next_notice, notice_line, alters_one, refuses_one};
ghost use Rattle.wording.specs.Text.{line};
ghost use Rattle.printout.specs.Calls.{Prints, notice_at, told_with, Tells};

use crate::sheet::Sheet;
use wording::Notice;

// How many frames of each kind have been told.
#[derive(Clone, Copy, Debug, PartialEq, Eq)]
pub struct Told {
    pub altered: usize,
    pub refused: usize,
}

// The length of a line, and how many have been told after it. No Option: where nothing is left the length is 0, as `Tells` has it.
#[derive(Clone, Copy, Debug, PartialEq, Eq)]
pub struct Step {
    pub length: usize,
    pub told: Told,
}

// Puts the lines of the totals at the start of `out`, and answers their length, 86 at most. The array is lent, for `Prints` says
// what stands behind the text.
pub fn account_head(frames: u64, altered: u64, refused: u64, out: &mut [u8; 128]) -> usize
    ensures { Prints (account_head frames altered refused) out.old result out.new }
{
    let mut sheet = Sheet::of(out);
    sheet.line(b"frames ", frames);
    sheet.line(b"altered ", altered);
    sheet.line(b"refused ", refused);
    sheet.at
}

fn hex_digit(d: u8) -> u8
    requires { d < 16 }
    ensures { result ≡ hex_digit d }
{
    if d < 10 { b'0' + d } else { b'A' - 10 + d }
}

// The 16 hexadecimal digits of p. The last is put first. By hand: `hex16` is an array, and what formats a number writes to a text.
pub fn hex_digits(p: u64) -> [u8; 16]
    ensures { result ≡ hex16 p }
{
    let mut digits = [0u8; 16];
    let mut rest = p;
    for i in (0..16).rev() {
        digits[i] = hex_digit((rest % 16) as u8);
        rest /= 16;
    }
    digits
}

// The line of an altered frame, 46 bytes at most.
fn altered_line(out: &mut [u8; 64], index: u64, places: u64) -> usize
    ensures { Prints (altered_line index places) out.old result out.new }
{
    let digits = hex_digits(places);
    let mut sheet = Sheet::of(out);
    sheet.named(b"altered ", index);
    sheet.put(b" ");
    sheet.put(&digits);
    sheet.put(b"\n");
    sheet.at
}

// The line of a refused frame, 29 bytes at most.
fn refused_line(out: &mut [u8; 64], index: u64) -> usize
    ensures { Prints (line "refused " index) out.old result out.new }
{
    let mut sheet = Sheet::of(out);
    sheet.line(b"refused ", index);
    sheet.at
}

// The line of what is told.
#[tactic(auto, unfolding(wording::specs::Account::notice_line))]
fn notice_line(x: Notice, out: &mut [u8; 64]) -> usize
    ensures { Prints (notice_line (Some x)) out.old result out.new }
{
    match x {
        Notice::Altered(index, places) => altered_line(out, index, places),
        Notice::Refused(index) => refused_line(out, index),
    }
}

// What is told where no altered frame is left, and j refused ones have been told.
#[tactic(auto, unfolding(wording::specs::Account::next_notice))]
fn next_refused(refused: &[u64], j: usize) -> Option<Notice>
    ensures { result ≡ next_notice [] [] (drop j refused.now) }
{
    let r = refused.get(j)?;
    Some(Notice::Refused(*r))
}

// What is told where frame i is the next altered one, in the places p, and j refused ones have been told.
#[tactic(auto, unfolding(wording::specs::Account::next_notice))]
fn lower_of(i: u64, p: u64, refused: &[u64], j: usize) -> Notice
    ensures { Some result ≡ next_notice (i ∷ []) (p ∷ []) (drop j refused.now) }
{
    let Some(r) = refused.get(j) else {
        return Notice::Altered(i, p);
    };
    if i <= *r {
        Notice::Altered(i, p)
    } else {
        Notice::Refused(*r)
    }
}

// What is told next. An altered frame is there only with its places.
#[tactic(auto, unfolding(wording::specs::Account::next_notice))]
fn next_notice(altered: &[u64], places: &[u64], refused: &[u64], c: Told) -> Option<Notice>
    ensures { result ≡ notice_at altered.now places.now refused.now c }
{
    let k = c.altered;
    let j = c.refused;
    let Some(i) = altered.get(k) else {
        return next_refused(refused, j);
    };
    let Some(p) = places.get(k) else {
        return next_refused(refused, j);
    };
    Some(lower_of(*i, *p, refused, j))
}

// How many have been told with x, for which there is room in the count.
fn past(x: Notice, c: Told) -> Told
    requires { (alters_one (Some x) ≤ 2 ^ 64 - 1 - c.altered) × (refuses_one (Some x) ≤ 2 ^ 64 - 1 - c.refused) }
    ensures { result ≡ told_with (Some x) c }
{
    match x {
        Notice::Altered(_, _) => Told {
            altered: c.altered + 1,
            refused: c.refused,
        },
        Notice::Refused(_) => Told {
            altered: c.altered,
            refused: c.refused + 1,
        },
    }
}

// Puts the line of what is told next at the start of `out`, and answers its length and how many have been told with it; nothing, 0
// and those told already where nothing is left.
// `altered` and `places` are two lists, entry by entry: `Tells` and `WholeAccount` are of the two that salvage fills.
pub fn account_line(
    altered: &[u64],
    places: &[u64],
    refused: &[u64],
    at: Told,
    out: &mut [u8; 64],
) -> Step
    ensures { Tells altered.now places.now refused.now at out.old result out.new }
{
    let Some(x) = next_notice(altered, places, refused, at) else {
        return Step {
            length: 0,
            told: at,
        };
    };
    Step {
        length: notice_line(x, out),
        told: past(x, at),
    }
}
