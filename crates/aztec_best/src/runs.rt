ghost use Rattle.std.specs.Prelude.{◌≡◌, ◌<◌, ◌≤◌, ◌+◌, ◌-◌, ◌*◌, min, length};
ghost use Rattle.aztec_best.specs.Lows.{HasKeys, IsWindow};
ghost use Rattle.aztec_best.specs.Runs.{AreRuns, AreRunStarts};

use crate::costs::Costs;
use crate::lows::{Lows, NO_LOWS, lower_of};
use crate::window::{Window, slide};

/// The numbers of bytes of a run in one form, and the bits before its bytes.
#[derive(Clone, Copy)]
pub(crate) struct Form {
    pub(crate) fewest: u32,
    pub(crate) most: u32,
    pub(crate) head: u32,
}

/// The form with the number of bytes in 5 bits.
pub(crate) const SHORT: Form = Form {
    fewest: 1,
    most: 31,
    head: 10,
};

/// The form with the number of bytes less 31 in 11 bits.
pub(crate) const LONG: Form = Form {
    fewest: 31,
    most: 2078,
    head: 21,
};

/// The bits of a head and of what follows it, from keys.
fn headed(lows: Lows, head: u32, place: u32) -> Lows
    requires upper { 8 * place ≤ lows.upper }
    requires lower { 8 * place ≤ lows.lower }
    requires mixed { 8 * place ≤ lows.mixed }
    requires upper_small { lows.upper ≤ 400000 }
    requires lower_small { lows.lower ≤ 400000 }
    requires mixed_small { lows.mixed ≤ 400000 }
    requires place { place ≤ 8192 }
    requires head { head ≤ 21 }
    ensures upper { result.upper ≡ lows.upper - 8 * place + head }
    ensures lower { result.lower ≡ lows.lower - 8 * place + head }
    ensures mixed { result.mixed ≡ lows.mixed - 8 * place + head }
{
    let passed = 8 * place;
    Lows {
        upper: lows.upper - passed + head,
        lower: lows.lower - passed + head,
        mixed: lows.mixed - passed + head,
    }
}

/// The fewest bits that begin with a run of one form, where so many bytes stand at the place.
fn runs_of(
    window: &mut Window,
    costs: &[Costs],
    stored: &mut [Lows],
    place: u32,
    bytes: u32,
    form: Form,
) -> Lows
    requires some { 1 ≤ form.fewest }
    requires form { form.fewest ≤ form.most }
    requires most { form.most ≤ 2078 }
    requires head { form.head ≤ 21 }
    requires there { form.fewest ≤ bytes }
    requires keys { HasKeys costs.now (place + 1) (place + bytes) }
    requires room { min bytes form.most < form.fewest + length stored.old }
    requires goes_on { form.fewest < bytes → IsWindow costs.now stored.old (place + form.fewest + 1)
        (place + min bytes form.most) window.old }
    ensures window { IsWindow costs.now stored.new (place + form.fewest) (place + min bytes form.most) window.new }
    ensures runs { AreRuns costs.now place form.fewest (min bytes form.most) form.head result }
{
    let low = place as usize + form.fewest as usize;
    let top = place as usize + bytes.min(form.most) as usize;
    let lows = slide(window, costs, stored, low, top, bytes == form.fewest);
    headed(lows, form.head, place)
}

/// The fewest bits that begin with a run of bytes, where so many bytes stand at the place.
pub(crate) fn runs_at(
    short: &mut Window,
    long: &mut Window,
    costs: &[Costs],
    shorts: &mut [Lows],
    longs: &mut [Lows],
    place: u32,
    bytes: u32,
) -> Lows
    requires keys { 1 ≤ bytes → HasKeys costs.now (place + 1) (place + bytes) }
    requires short_room { length shorts.old ≡ 31 }
    requires long_room { 31 ≤ bytes → min bytes 2078 < 31 + length longs.old }
    requires short { 1 < bytes → IsWindow costs.now shorts.old (place + 2) (place + min bytes 31) short.old }
    requires long { 31 < bytes → IsWindow costs.now longs.old (place + 32) (place + min bytes 2078) long.old }
    ensures short { 1 ≤ bytes → IsWindow costs.now shorts.new (place + 1) (place + min bytes 31) short.new }
    ensures long { 31 ≤ bytes → IsWindow costs.now longs.new (place + 31) (place + min bytes 2078) long.new }
    ensures runs { AreRunStarts costs.now place bytes result }
{
    if bytes == 0 {
        return NO_LOWS;
    }
    let in_short = runs_of(short, costs, shorts, place, bytes, SHORT);
    if bytes < 31 {
        return in_short;
    }
    let in_long = runs_of(long, costs, longs, place, bytes, LONG);
    lower_of(in_short, in_long)
}
