// Answers the cases on standard input, a line a case, until one's head is not all there. A head is 128 bytes: a name of 16, which begins
// the line, and fourteen numbers of eight bytes, highest first: the kind, how many bytes follow, how many are lent, how many of these are
// the first part, and ten values, a to j. One buffer of 65,537 bytes, all 0 at first, serves all cases: the bytes that follow are read
// to its front, and what is lent is its front. A length is held to what there is, and a value to the width of what it stands for.
//
//  1 hier make      data a
//  2 hier read      block a
//  3 dap make       lengths of the outputs a and b; the data is the first part
//  4 dap read       parity a; the copies are the two parts
//  5 bus            width a, wires b, invert c, data d: fresh, sent, received
//  6 pattern start  pattern a, register b: the generator's, the counter's
//  7 pattern fill   pattern a, register b; of what is lent and filled the first part is shown
//  8 pattern feed   pattern a, filled b, register c, bits d, errors e: fed the first part; and the report before it is fed
//  9 tally add      the nine counts a to i; the verdicts are the first part, the flags the first j bytes of the second, the check flips
//                   the rest of it
// 10 lane count     the nine counts a to i; the piece is the first part. So is any kind that is not here
// 11 capture write  lane a, length of the output b; the frames are the first part, the notes the second: written from numbers, the first
//                   part's whole eights, and from its bytes. Every byte of the outputs is shown where c is 1
// 12 capture read   lengths of the lists a, of numbers, and b, of bytes; the file is the first part: its head, its frames in either list,
//                   its notes
// 13 salvage        lengths of the lists a, altered, b, places, and c, refused; the file is what is lent. Every byte of file and lists is
//                   shown where d is 1
// 14 pair           a and b, joined and parted
// 15 pairs made     lengths of the outputs a, of numbers, and b, of bytes; the frames are the first part: made from numbers, its whole
//                   eights, and from its bytes. Every byte of the outputs is shown where c is 1
// 16 pairs read     lengths of the lists a, data as numbers, b, data as bytes, and c, verdicts; the words are the first part: read as
//                   numbers and as bytes. Every byte of the lists is shown where d is 1
#![tactic(auto)]

mod blocks;
mod captures;
mod copies;
mod fields;
mod pairs;
mod patterns;
mod salvages;
mod say;
mod tallies;
mod wires;

use fields::{Case, Field};
use input::Input;
use std::io::{Print, Result};

// By the kind's number: an enum would name the sixteen kinds twice more, and the list above has them.
fn on_lists(case: &Case, kind: u64, first: &[u8], second: &[u8]) -> Result<()> {
    match kind {
        1 => blocks::make(case),
        2 => blocks::read(case),
        3 => copies::make(case, first),
        4 => copies::read(case, first, second),
        5 => wires::all(case),
        6 => patterns::start(case),
        8 => patterns::feed(case, first),
        9 => tallies::add(case, first, second),
        11 => captures::write(case, first, second),
        12 => captures::read(case, first),
        14 => pairs::both(case),
        15 => pairs::make(case, first),
        16 => pairs::read(case, first),
        _ => tallies::count(case, first),
    }
}

// The two kinds that write to what they are lent, or another.
fn answer(case: &Case, list: &mut [u8]) -> Result<()> {
    match case.number(Field::Kind) {
        7 => patterns::fill(case, list),
        13 => salvages::salvage(case, list),
        kind => {
            let (first, second) = list.split_at(case.up_to(Field::First, list.len()));
            on_lists(case, kind, first, second)
        }
    }
}

// The line of a case.
fn line(case: &Case, buffer: &mut [u8]) -> Result<()> {
    let Case { rt, head } = *case;
    // After a read that fails the buffer holds what came before.
    let _ = input::load(&mut rt.stdin(), case.front(Field::Follow, buffer));
    rt.write_all(&head[..16])?;
    answer(case, case.front(Field::Lent, buffer))?;
    println!(rt;)
}

// The head of the next case, if it is all there.
fn next_head(rt: &HostRuntime) -> Result<Option<[u8; 128]>> {
    let mut head = [0u8; 128];
    match input::load(&mut rt.stdin(), &mut head) {
        Ok(Input::Full) => Ok(Some(head)),
        Ok(Input::Last(_)) => Ok(None),
        Err(_) => {
            eprintln!(rt; "cases: standard input could not be read")?;
            Ok(None)
        }
    }
}

fn main(rt: HostRuntime) -> Result<()> {
    let mut buffer = [0u8; 65537];
    // No input has so many heads.
    for _ in 0..1u64 << 41 {
        let Some(head) = next_head(&rt)? else {
            break;
        };
        let case = Case {
            rt: &rt,
            head: &head,
        };
        line(&case, &mut buffer)?;
    }
    Ok(())
}
