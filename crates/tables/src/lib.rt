// The constant tables of the reader. Whoever reads many frames takes them once and lends them on: each call writes its table anew.
#![tactic(auto)]

ghost use Rattle.tables.specs.Tables.{MendTable, ByteSums};

mod bytes;
mod entries;

// The remainder and the run sums of single bytes.
pub fn byte_sums() -> [u16; 2048]
    ensures { ByteSums result }
{
    bytes::BYTES
}

// Which places to flip, for each remainder by g, and their run sums.
pub fn corrections() -> [u16; 4096]
    ensures { MendTable result }
{
    entries::CORRECTIONS
}

// Both, to be lent as one. Any two tables of these lengths can stand here: `new` takes the right ones.
#[derive(Clone, Copy, Debug, PartialEq, Eq)]
pub struct Tables {
    pub corrections: [u16; 4096],
    pub sums: [u16; 2048],
}

impl Tables {
    pub fn new() -> Tables
        ensures corrections { MendTable result.corrections }
        ensures sums { ByteSums result.sums }
    {
        Tables {
            corrections: corrections(),
            sums: byte_sums(),
        }
    }
}
