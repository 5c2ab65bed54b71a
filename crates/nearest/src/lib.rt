// The nearest whole number to a float times p / q. The exact size of a float is read off its bits: digits over a power of two. The doubled product is
// floored, and then halved upward. How large x may be is a clause: each function has a bound of its own, and a type for each would be no plainer.
#![tactic(auto)]

ghost use Rattle.std.specs.Prelude.{◌≡◌, ◌+◌, ◌/◌, ◌^◌};
ghost use Rattle.nearest.specs.Nearest.{nearest_of, metres_of, milliseconds_of, eccentricity_of, units_of, UpTo};
ghost use Rattle.nearest.specs.Pattern.{digits_of, shift_of, ByShift};

// n / 2^k, for a k that may pass the width.
fn shifted(n: u64, k: u64) -> u64
    ensures { result ≡ n / 2 ^ k }
{
    if k < 64 { n >> k } else { 0 }
}

// (n + 1) / 2, with no sum that wraps.
fn halved(n: u64) -> u64
    ensures { result ≡ (n + 1) / 2 }
{
    n.div_ceil(2)
}

// The digits of a float's size, the leading one included.
fn digits(bits: u64) -> u64
    ensures { result ≡ digits_of bits }
{
    let t = bits % 0x10_0000_0000_0000;
    if bits % 0x8000_0000_0000_0000 / 0x10_0000_0000_0000 == 0 {
        t
    } else {
        0x10_0000_0000_0000 + t
    }
}

// How far the digits are shifted down.
fn shift(bits: u64) -> u64
    ensures { result ≡ shift_of bits }
{
    let exponent = bits % 0x8000_0000_0000_0000 / 0x10_0000_0000_0000;
    if exponent == 0 {
        1074
    } else if exponent < 1075 {
        1075 - exponent
    } else {
        0
    }
}

// The nearest to x·2^j / q. The digits are shifted before they are divided, so that no product is wide.
fn by_power(x: f64, j: u64, q: u64) -> u64
    requires { ByShift j q x }
    ensures { result ≡ nearest_of (2 ^ j) q x }
{
    let bits = x.to_bits();
    halved(shifted(digits(bits), shift(bits) - (1 + j)) / q)
}

// The nearest to 1000·x: a length in km in metres, a time in s in milliseconds.
pub fn thousandths(x: f64) -> u32
    requires { UpTo 21 x }
    ensures { result ≡ nearest_of 1000 1 x }
{
    let bits = x.to_bits();
    halved(shifted(digits(bits) * 2000, shift(bits))) as u32
}

// A length in km, in metres.
pub fn metres(x: f64) -> u32
    requires { UpTo 21 x }
    ensures { result ≡ metres_of x }
{
    thousandths(x)
}

// A time in s, in ms.
pub fn milliseconds(x: f64) -> u32
    requires { UpTo 21 x }
    ensures { result ≡ milliseconds_of x }
{
    thousandths(x)
}

// An eccentricity in units of 2^-30. This and the next function are each one call of `by_power`: one function of both would take numbers where a name
// says which unit, and be no plainer.
pub fn eccentricity(x: f64) -> u32
    requires { UpTo 0 x }
    ensures { result ≡ eccentricity_of x }
{
    by_power(x, 30, 1) as u32
}

// The magnitude of an angle in degrees, in units of 2^-32 turns; a whole turn is not taken off.
pub fn angle_units(x: f64) -> u64
    requires { UpTo 9 x }
    ensures { result ≡ units_of x }
{
    by_power(x, 32, 360)
}
