// The frames of a capture, one after the other, over lists that are long enough.
ghost use Rattle.std.specs.Prelude.{◌≡◌, map, ◌<◌, length, take, get_or};
ghost use Rattle.laws.specs.Lent.{◌to◌, lent};
ghost use Rattle.radix.specs.Octets.{numbers_of};
ghost use Rattle.reader.specs.ByTables.{read_by};
ghost use Rattle.salvage.specs.Calls.{Shows, AllMet};
ghost use Rattle.salvage.specs.Parts.{fate_by, Same, Spare, Settled, Ready};

use crate::lists::Lists;
use crate::places::places_by;
use tables::Tables;

// The file is not one of the lists: what is read of it is written to it. Frame n meets its fate: where it has places it is altered there and told, where it is refused it is told alone.
fn settle(tables: &Tables, n: usize, file: &mut [u8], lists: &mut Lists)
    requires { Spare lists.old }
    ensures same { Same lists.old lists.new }
    ensures settled { Settled (read_by tables.now.corrections tables.now.sums (get_or (numbers_of file.old) n 0)) n
        file.old file.new lists.old lists.new }
{
    let frame = octets::number(file, n);
    match places_by(tables, frame) {
        Ok(0) => {}
        Ok(places) => {
            octets::store(file, n, frame ^ places);
            lists.alter(n as u64, places);
        }
        Err(_) => lists.refuse(n as u64),
    }
}

fn each(tables: &Tables, count: usize, file: &mut [u8], lists: &mut Lists)
    requires { Ready count file.old lists.old }
    ensures same { Same lists.old lists.new }
    ensures shows { Shows (map (fate_by tables.now.corrections tables.now.sums) (take count (numbers_of file.old)))
        (lent file) (lists.old.altered to lists.new.altered) (lists.old.places to lists.new.places)
        (lists.old.«refused» to lists.new.«refused») lists.new.counts }
{
    for n in 0..count {
        settle(tables, n, file, lists);
    }
}

// The tables are taken once.
pub(crate) fn all(count: usize, file: &mut [u8], lists: &mut Lists)
    requires { Ready count file.old lists.old }
    ensures same { Same lists.old lists.new }
    ensures met { AllMet (take count (numbers_of file.old)) (lent file) (lists.old.altered to lists.new.altered)
        (lists.old.places to lists.new.places) (lists.old.«refused» to lists.new.«refused») lists.new.counts }
{
    each(&Tables::new(), count, file, lists);
}
