//! Clamping, scaling, and the change between 16 and 24 bits.

ghost use Rattle.std.specs.Prelude.{◌≡◌, ℕ, ◌≤◌, ℤ, pos, negsuc, ◌≤ℤ◌};
ghost use Rattle.sl_base.specs.Arithmetic.{IsSample, clamped, scaled, widened, narrowed};

/// The least sample.
pub const LEAST: i32 = -8388608;
/// The greatest sample.
pub const GREATEST: i32 = 8388607;

/// The sample nearest to `x`.
#[inline]
pub fn clamp24(x: i64) -> i32
    ensures value { result ≡ clamped x }
    ensures within { IsSample result }
{
    if x > 8388607 {
        GREATEST
    } else if x < -8388608 {
        LEAST
    } else {
        x as i32
    }
}

/// `k` thousandths of `x`, divided toward zero. `k` is 1000 at most.
#[inline]
pub fn scale(x: i32, k: u16) -> i64
    requires { k ≤ 1000 }
    ensures { result ≡ scaled x k }
{
    x as i64 * k as i64 / 1000
}

/// A 16-bit sample in 24 bits: 256 times as much.
#[inline]
pub fn widen(x: i16) -> i32
    ensures value { result ≡ widened x }
    ensures within { IsSample result }
{
    x as i32 * 256
}

/// A sample in 16 bits: its 256th, rounded down.
#[inline]
pub fn narrow(x: i32) -> i16
    requires { IsSample x }
    ensures { result ≡ narrowed x }
{
    x.div_euclid(256) as i16
}
