// What is printed: the listing of a lane's totals, and the account of a salvage.
#![tactic(auto)]

ghost use Rattle.std.specs.Prelude.{◌+◌, ◌≤◌, length};
ghost use Rattle.wording.specs.Text.{accepted_lines, refused_lines};
ghost use Rattle.printout.specs.Calls.{Says};
ghost use Rattle.printout.specs.Parts.{Lays};

use crate::sheet::Sheet;
use lane::Totals;
use tally::Tally;

mod account;
mod sheet;

pub use account::{Step, Told, account_head, account_line, hex_digits};

// The lines of the frames that were read, 77 bytes at most.
fn accepted_lines(sheet: &mut Sheet<'_>, t: Tally)
    requires { sheet.old.at + 77 ≤ length sheet.old.out.now }
    ensures lays { Lays sheet.old (accepted_lines t) sheet.new }
    ensures upper_bound { sheet.new.at ≤ sheet.old.at + 77 }
{
    sheet.line(b"clean ", t.clean);
    sheet.line(b"one ", t.one);
    sheet.line(b"two ", t.two);
}

// The lines of those that were not, 61 bytes at most.
fn refused_lines(sheet: &mut Sheet<'_>, t: Tally)
    requires { sheet.old.at + 61 ≤ length sheet.old.out.now }
    ensures lays { Lays sheet.old (refused_lines t) sheet.new }
    ensures upper_bound { sheet.new.at ≤ sheet.old.at + 61 }
{
    sheet.line(b"no-word ", t.no_word);
    sheet.line(b"run-broken ", t.run_broken);
}

// Puts the listing of u at the start of `out`, and answers its length, 294 at most. The array is lent, for `Says` says what stands
// behind the text.
pub fn text(u: Totals, out: &mut [u8; 512]) -> usize
    ensures { Says u out.old result out.new }
{
    let t = u.tally;
    let mut sheet = Sheet::of(out);
    sheet.line(b"frames ", u.frames);
    accepted_lines(&mut sheet, t);
    refused_lines(&mut sheet, t);
    sheet.line(b"pad-wrong ", t.pad_wrong);
    sheet.line(b"check-flips ", t.check_flips);
    sheet.line(b"left-over ", u.left);
    sheet.line(b"longest-gap ", t.longest);
    sheet.at
}
