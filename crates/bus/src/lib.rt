// Bus-invert: a sender that turns the data over where that changes fewer wires, and the receiver that undoes it.
#![tactic(auto)]

ghost use Rattle.std.specs.Prelude.{◌≡◌, true, ◌+◌, ◌*◌, ◌≤◌, ◌<◌, ◌^◌};
ghost use Rattle.bus.specs.Wires as bits;
ghost use Rattle.bus.specs.Rule as rule;
ghost use Rattle.bus.specs.Rule.{widest, in_range};
ghost use Rattle.bus.specs.Calls.{Starts, Sends, Receives};

use paper::Refusal;

// The data wires of a bus at most.
const WIDEST: u32 = 31;

// What the sender drives: `width` data wires, the lowest wire the lowest bit, and the invert wire.
#[derive(Clone, Copy, Debug, PartialEq, Eq)]
pub struct Bus {
    pub width: u32,
    pub wires: u32,
    pub invert: u8,
}

fn inverted(width: u32, wires: u32) -> u32
    requires { (width ≤ widest) × (wires < 2 ^ width) }
    ensures { result ≡ bits.inverted width wires }
{
    (1u32 << width) - 1 - wires
}

// Data on the wires as it is.
fn plain(width: u32, data: u32) -> Bus
    ensures { result ≡ rule.plain width «data» }
{
    Bus {
        width,
        wires: data,
        invert: 0,
    }
}

// Data on the wires inverted.
fn turned_over(width: u32, data: u32) -> Bus
    requires { (width ≤ widest) × («data» < 2 ^ width) }
    ensures { result ≡ rule.turned_over width «data» }
{
    Bus {
        width,
        wires: inverted(width, data),
        invert: 1,
    }
}

impl Bus {
    // Whether these are wires of a bus: what row 11 asks of a state handed in, of data to be sent and of what is received.
    fn in_range(self) -> bool
        ensures { result ≡ in_range self }
    {
        1 <= self.width && self.width <= WIDEST && self.wires < 1 << self.width && self.invert <= 1
    }

    // All wires as one number, the invert wire above the data wires: 32 bits at the widest.
    fn all_wires(self) -> u32
        requires { in_range self ≡ true }
        ensures { result ≡ self.invert * 2 ^ self.width + self.wires }
    {
        (u32::from(self.invert) << self.width) + self.wires
    }

    // The rule by which the sender inverts.
    fn crowded(self, data: u32) -> bool
        requires { (in_range self ≡ true) × (in_range (rule.plain self.width «data») ≡ true) }
        ensures { result ≡ rule.crowded self «data» }
    {
        // Data as it is has the invert wire cleared: it is the number of all wires itself.
        let changing = (self.all_wires() ^ data).count_ones();
        // The data inverted changes the wires that it leaves.
        self.width + 1 - changing < changing
    }

    // A bus at rest.
    pub fn fresh(width: u32) -> Result<Bus, Refusal>
        ensures { Starts width result }
    {
        let rest = plain(width, 0);
        if rest.in_range() {
            Ok(rest)
        } else {
            Err(Refusal::Outside)
        }
    }

    // The state in which the data is on the wires.
    pub fn send(self, data: u32) -> Result<Bus, Refusal>
        ensures { Sends self «data» result }
    {
        if !self.in_range() {
            return Err(Refusal::Outside);
        }
        let as_it_is = plain(self.width, data);
        if !as_it_is.in_range() {
            return Err(Refusal::Outside);
        }
        if self.crowded(data) {
            Ok(turned_over(self.width, data))
        } else {
            Ok(as_it_is)
        }
    }
}

// The data on the wires. The receiver keeps no state.
pub fn receive(width: u32, wires: u32, invert: u8) -> Result<u32, Refusal>
    ensures { Receives width wires invert result }
{
    let sent = Bus {
        width,
        wires,
        invert,
    };
    if !sent.in_range() {
        return Err(Refusal::Outside);
    }
    if invert == 0 {
        Ok(wires)
    } else {
        Ok(inverted(width, wires))
    }
}
