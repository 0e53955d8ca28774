// The hierarchical code 4c2 on four wires: seven data bits as four symbols of two ones each, and back with up to two flips.
#![tactic(auto)]

ghost use Rattle.std.specs.Prelude.{◌≡◌, ◌<◌};
ghost use Rattle.block.specs.Blocks.{code_of};
ghost use Rattle.hier.specs.Calls.{data_end, Makes, Reads};

mod found;
mod symbols;

use found::Nears;
use paper::Refusal;
use symbols::symbol_of;

// What stands in sixteen bits.
#[derive(Clone, Copy, Debug, PartialEq, Eq)]
pub struct Decoded {
    pub data: u8,
    // bits
    pub flips: u8,
}

// Data is a number below it.
const DATA_END: u8 = 128;

// The block of data below 128: its four symbols.
fn block_of(d: u16) -> u16
    requires { d < data_end }
    ensures { result ≡ code_of d }
{
    let u = d / 16 / 3;
    let w = d / 16 % 3;
    let c = d % 16;
    let first = symbol_of(u, c / 8 % 2);
    let second = symbol_of(w, c / 4 % 2);
    let third = symbol_of((u + w) % 3, c / 2 % 2);
    let fourth = symbol_of((u + 2 * w) % 3, c % 2);
    first * 4096 + second * 256 + third * 16 + fourth
}

// Codes data below 128.
pub fn make(data: u8) -> Result<u16, Refusal>
    ensures { Makes «data» result }
{
    if DATA_END <= data {
        return Err(Refusal::Outside);
    }
    Ok(block_of(u16::from(data)))
}

// Reads any sixteen bits.
pub fn read(block: u16) -> Result<Decoded, Refusal>
    ensures { Reads block result }
{
    let v = found::chosen(block);
    let n = Nears::of(v, block);
    let flips = n.flips();
    if 2 < flips {
        return Err(Refusal::NoBlock);
    }
    if v == 8 {
        return Err(Refusal::Eighth);
    }
    Ok(Decoded {
        data: (v * 16 + n.sides()) as u8,
        flips: flips as u8,
    })
}
