// Symbols: the tables of their pairs, of their subsets and of what is near.
ghost use Rattle.std.specs.Prelude.{◌≡◌, ◌<◌, ◌≤◌};
ghost use Rattle.block.specs.Symbols.{member};
ghost use Rattle.block.specs.Parts.{near_of, kind_of};

// The pairs of subsets 0, 1 and 2.
const MEMBERS: [u16; 6] = [0b0011, 0b1100, 0b0101, 0b1010, 0b0110, 0b1001];

// The subset of each symbol, 3 for what is no symbol.
const KINDS: [u16; 16] = [3, 3, 3, 0, 3, 1, 2, 3, 3, 2, 1, 3, 0, 3, 3, 3];

// For subsets 0, 1 and 2, digit x for the four bits x: 2 g + c of the member that is g bits away, g at most 1; 6 where both are two away.
const NEAR: [u64; 3] = [
    0x6331_2663_2663_0226,
    0x6326_3163_2602_6326,
    0x6236_3613_2062_6236,
];

pub(crate) fn symbol_of(subset: u16, c: u16) -> u16
    requires { (subset < 3) × (c < 2) }
    ensures { (result ≡ member subset c) × (result < 16) }
{
    MEMBERS[usize::from(2 * subset + c)]
}

pub(crate) fn kind(x: u16) -> u16
    requires { x < 16 }
    ensures { (result ≡ kind_of x) × (result ≤ 3) }
{
    KINDS[usize::from(x)]
}

pub(crate) fn nearest(subset: u16, x: u16) -> u16
    requires { (subset < 3) × (x < 16) }
    ensures { (result ≡ near_of subset x) × (result < 7) }
{
    let row = NEAR[usize::from(subset)];
    ((row >> (4 * x)) % 16) as u16
}
