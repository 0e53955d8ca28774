// Where data, run bits, check bits and pad stand in a frame.
ghost use Rattle.std.specs.Prelude.{◌≡◌, ◌<◌, ◌^◌};
ghost use Rattle.frame.specs.Word.{data_end, FrameOf};
ghost use Rattle.frame.specs.Parts.{with_run};

// 2^48: data words are the numbers below it.
pub(crate) const DATA_END: u64 = 0x1_0000_0000_0000;

// Sixteen data bits and their run bit.
fn with_run(x: u64) -> u64
    requires { x < 2 ^ 16 }
    ensures { result ≡ with_run x }
{
    x * 2 + (1 - x % 2)
}

// The frame of a data word: the check bits are what the other positions leave by long division.
pub(crate) fn frame_of(data: u64) -> u64
    requires { «data» < data_end }
    ensures { FrameOf «data» result }
{
    let a = with_run(data / 0x1_0000_0000);
    let b = with_run(data / 0x1_0000 % 0x1_0000);
    let c = with_run(data % 0x1_0000);
    let top = (a * 0x4_0000_0000 + b * 0x2_0000 + c) * 4096;
    let w = top + poly::remainder(top);
    w * 2 + (1 - w % 2)
}
