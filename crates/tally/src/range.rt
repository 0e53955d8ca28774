// The range of a tally, and its frames.
ghost use Rattle.std.specs.Prelude.{◌≡◌, ◌&&◌, ◌-◌, ◌^◌, ◌≤◌, ◌<◌, leb};
ghost use Rattle.paper.specs.Numbers.{most_counted};
ghost use Rattle.tally.specs.Ranges.{refused_count, frames_in, in_range};

use crate::Tally;
use paper::MOST_COUNTED;

fn stretches_in_range(t: Tally) -> bool
    requires { frames_in t ≤ most_counted }
    ensures { result ≡ leb t.current t.longest && leb t.longest (refused_count t) }
{
    t.current <= t.longest && t.longest <= t.no_word + t.run_broken
}

// Each count is tested before the sum, which then fits.
pub(crate) fn in_range(t: Tally) -> bool
    ensures { result ≡ in_range t }
{
    t.clean <= MOST_COUNTED
        && t.one <= MOST_COUNTED
        && t.two <= MOST_COUNTED
        && t.no_word <= MOST_COUNTED
        && t.run_broken <= MOST_COUNTED
        && frames_in(t) <= MOST_COUNTED
        && t.pad_wrong <= t.clean + t.one + t.two
        && t.check_flips <= t.one + 2 * t.two
        && t.check_flips <= MOST_COUNTED
        && stretches_in_range(t)
}

pub(crate) fn frames_in(t: Tally) -> u64
    requires { frames_in t < 2 ^ 64 }
    ensures { result ≡ frames_in t }
{
    t.clean + t.one + t.two + t.no_word + t.run_broken
}

// Whether so many frames may still be added.
pub(crate) fn has_room(t: Tally, frames: u64) -> bool
    requires { frames_in t ≤ most_counted }
    ensures { result ≡ leb frames (most_counted - frames_in t) }
{
    frames <= MOST_COUNTED - frames_in(t)
}
