// A case: where it is answered, and the fields of its head. Those of fewer than eight bytes are the low ones of a number.
ghost use Rattle.std.specs.Prelude.{◌≤◌};

use crate::say;
use crate::say::{Item, Manner, Shown};
use paper::Refusal;
use std::io;

// The numbers of a head, after its name, which is as long as two.
#[derive(Clone, Copy, Debug, PartialEq, Eq)]
pub(crate) enum Field {
    Kind = 2,
    Follow,
    Lent,
    First,
    A,
    B,
    C,
    D,
    E,
    F,
    G,
    H,
    I,
    J,
}

#[derive(Clone, Copy)]
pub(crate) struct Case<'a> {
    pub(crate) rt: &'a HostRuntime,
    pub(crate) head: &'a [u8; 128],
}

impl<'a> Case<'a> {
    pub(crate) fn number(&self, field: Field) -> u64 {
        let head = self.head;
        octets::number(head, field as usize)
    }

    pub(crate) fn byte(&self, field: Field) -> u8 {
        (self.number(field) % 256) as u8
    }

    pub(crate) fn half(&self, field: Field) -> u32 {
        (self.number(field) % 4294967296) as u32
    }

    // A length, no more than there is.
    pub(crate) fn up_to(&self, field: Field, most: usize) -> usize
        ensures { result ≤ most }
    {
        most.min(self.half(field) as usize)
    }

    // The front of a list, of a length that a field says: the arrays are of fixed length, since nothing allocates.
    pub(crate) fn front<'b, T>(&self, field: Field, list: &'b mut [T]) -> &'b mut [T] {
        let n = self.up_to(field, list.len());
        &mut list[..n]
    }

    // How lists are to be shown.
    pub(crate) fn manner(&self, field: Field) -> Manner {
        if self.number(field) == 1 {
            Manner::Whole
        } else {
            Manner::InShort
        }
    }

    // What a call answered.
    pub(crate) fn answered<T: Shown>(&self, r: Result<T, Refusal>) -> io::Result<()> {
        match r {
            Ok(x) => x.show(self.rt),
            Err(e) => print!(self.rt; "refused {e} "),
        }
    }

    // What is lent, after the call.
    pub(crate) fn left<T: Item>(&self, manner: Manner, list: &[T]) -> io::Result<()> {
        match manner {
            Manner::InShort if T::LONG <= list.len() => say::sum(list).show(self.rt),
            _ => T::digits(self.rt, list),
        }
    }
}
