// The certificate of a guess, in whole numbers. A whole number r is nearest to the root of radicand * 2^52 exactly
// where r^2 - r < radicand * 2^52 <= r^2 + r.
// With guess = high * 2^26 + low, the remainder radicand * 2^52 - guess^2 is found in three steps: `first` is radicand
// - high^2, raised by 2^30; `second` is first * 2^25 - high * low, raised to about 2^29; `remainder` is second * 2^27 -
// low^2, raised by 2^56 in all. The first two are differences modulo 2^64, and each is kept only where it is so small
// that it has not wrapped.
// 67108864 is 2^26, 33554432 is 2^25, 134217728 is 2^27, 1073741824 is 2^30, 2147483648 is 2^31, 4503599627370496 is
// 2^52, 72057594037927936 is 2^56, and 36028796515647488 is 2^55 - 2^29 + 2^25.

ghost use Rattle.std.specs.Prelude.{◌^◌, ◌<◌, IfSome};
ghost use Rattle.roots.specs.Steps.{NearestWhole};

use crate::Radicand;

// The whole number nearest to the root of radicand * 2^52, where the guess is at most 1 off; none for any other guess.
pub(crate) fn certified_root(radicand: Radicand, guess: u64) -> Option<u64>
    requires { guess < 2 ^ 54 }
    ensures { IfSome result (λ r. NearestWhole radicand.value r) }
{
    let high = guess / 67108864;
    let low = guess % 67108864;
    let first = (radicand.value + 1073741824).wrapping_sub(high * high);
    if first >= 2147483648 {
        return None;
    }
    let second = (first * 33554432).wrapping_sub(high * low + 36028796515647488);
    if second >= 1073741824 {
        return None;
    }
    let remainder = second * 134217728 + 4503599627370496 - low * low;
    if remainder + 3 * guess < 72057594037927939 || 72057594037927938 + 3 * guess < remainder {
        return None;
    }
    let above = u64::from(72057594037927936 + guess < remainder);
    let below = u64::from(remainder + guess < 72057594037927937);
    Some(guess + above - below)
}
