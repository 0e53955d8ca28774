// What the reader finds in a block: the subsets of the lawful block that is near, and how far each symbol is from its member.
ghost use Rattle.std.specs.Prelude.{◌≡◌, ◌<◌, ◌≤◌};
ghost use Rattle.block.specs.Blocks.{symbol};
ghost use Rattle.block.specs.Parts.{near₀, near₁, near₂, near₃, kind_of, first_of, second_of, solved, choice, halves, digits};

use crate::symbols::{kind, nearest};

// The subsets of a block's four symbols, 3 for one that did not come whole: numbers and no Option, as `choice` of block/specs/Parts
// computes with them.
#[derive(Clone, Copy, Debug, PartialEq, Eq)]
struct Kinds {
    k0: u16,
    k1: u16,
    k2: u16,
    k3: u16,
    ghost known: { (k0 ≤ 3) × (k1 ≤ 3) × (k2 ≤ 3) × (k3 ≤ 3) },
}

impl Kinds {
    fn of(block: u16) -> Kinds
        ensures first { result.k0 ≡ kind_of (symbol block 0) }
        ensures second { result.k1 ≡ kind_of (symbol block 1) }
        ensures third { result.k2 ≡ kind_of (symbol block 2) }
        ensures fourth { result.k3 ≡ kind_of (symbol block 3) }
    {
        Kinds {
            k0: kind(block / 4096 % 16),
            k1: kind(block / 256 % 16),
            k2: kind(block / 16 % 16),
            k3: kind(block % 16),
        }
    }

    // u, the subset of the first symbol, from the first two symbols that were received whole.
    fn first_subset(self) -> u16
        ensures { (result ≡ first_of self.k0 self.k1 self.k2 self.k3) × (result < 3) }
    {
        if self.k0 < 3 {
            self.k0
        } else if 3 <= self.k1 {
            2 * (self.k2 + self.k3) % 3
        } else if self.k2 < 3 {
            (self.k2 + 2 * self.k1) % 3
        } else {
            (self.k3 + self.k1) % 3
        }
    }

    // w, the subset of the second symbol, from u and the next symbol that was received whole.
    fn second_subset(self, u: u16) -> u16
        requires { u < 3 }
        ensures { (result ≡ second_of u self.k1 self.k2 self.k3) × (result < 3) }
    {
        if self.k1 < 3 {
            self.k1
        } else if self.k2 < 3 {
            (self.k2 + 2 * u) % 3
        } else {
            (u + 2 * self.k3) % 3
        }
    }

    #[tactic(auto, unfolding(block::specs::Parts::solved))]
    fn solve(self) -> u16
        ensures { (result ≡ solved self.k0 self.k1 self.k2 self.k3) × (result < 9) }
    {
        let u = self.first_subset();
        3 * u + self.second_subset(u)
    }
}

// 3 u + w of a block, by the symbols that came whole. A symbol with two ones is taken as it is: no other is within one bit of it.
pub(crate) fn chosen(block: u16) -> u16
    ensures { (result ≡ choice block) × (result < 9) }
{
    Kinds::of(block).solve()
}

// What `nearest` says of each of a block's four symbols.
#[derive(Clone, Copy, Debug, PartialEq, Eq)]
pub(crate) struct Nears {
    first: u16,
    second: u16,
    third: u16,
    fourth: u16,
    ghost below_seven: { (first < 7) × (second < 7) × (third < 7) × (fourth < 7) },
}

impl Nears {
    // By the subsets of v = 3 u + w.
    pub(crate) fn of(v: u16, block: u16) -> Nears
        requires { v < 9 }
        ensures first { result.first ≡ near₀ block v }
        ensures second { result.second ≡ near₁ block v }
        ensures third { result.third ≡ near₂ block v }
        ensures fourth { result.fourth ≡ near₃ block v }
    {
        let u = v / 3;
        let w = v % 3;
        Nears {
            first: nearest(u, block / 4096 % 16),
            second: nearest(w, block / 256 % 16),
            third: nearest((u + w) % 3, block / 16 % 16),
            fourth: nearest((u + 2 * w) % 3, block % 16),
        }
    }

    pub(crate) fn flips(self) -> u16
        ensures { (result ≡ halves self.first self.second self.third self.fourth) × (result ≤ 12) }
    {
        self.first / 2 + self.second / 2 + self.third / 2 + self.fourth / 2
    }

    pub(crate) fn sides(self) -> u16
        ensures { (result ≡ digits self.first self.second self.third self.fourth) × (result < 16) }
    {
        self.first % 2 * 8 + self.second % 2 * 4 + self.third % 2 * 2 + self.fourth % 2
    }
}
