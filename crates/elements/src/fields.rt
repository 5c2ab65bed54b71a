// One field of the orbit record: its float, and the row of the table for it.
ghost use Rattle.std.specs.Prelude.{◌≡◌};
ghost use Rattle.elements.specs.Field.{HasField, float_of, accepts, field_row_of};

use refusal::{Refusal, row};
use std::num::f64_from_bits_with_nan;
use std::ops::RangeBounds;
use words::Word;

// How many bytes the orbit record has.
pub const RECORD: usize = 136;

// Field k's float as it stands in the record.
pub fn float(s: &[u8; RECORD], k: u32) -> f64
    requires { HasField s.now k }
    ensures { result ≡ float_of s.now k }
{
    f64_from_bits_with_nan(u64::read(s, 8 * k as usize))
}

// Field k with the float x: refusal 3 comes before refusal 4. Minus zero is zero: the comparison has it so.
// The bytes are looked at again only for refusal 3, for a NaN's own bits.
#[tactic(auto, using(crate::proofs::Ranges::std_finite), unfolding(crate::specs::Field::judge, crate::specs::Field::accepts))]
pub fn field<R: RangeBounds<f64>>(
    s: &[u8; RECORD],
    k: u32,
    x: f64,
    accepted: R,
) -> Result<(), Refusal>
    requires has_field { HasField s.now k }
    requires has_bounds { R.has_bounds accepted }
    ensures { result ≡ field_row_of s.now k x (accepts (R.start_bound accepted) (R.end_bound accepted)) }
{
    if !x.is_finite() {
        return Err(Refusal::NotFinite {
            field: k,
            value: x,
            bits: u64::read(s, 8 * k as usize),
        });
    }
    row(
        !accepted.contains(&x),
        Refusal::OutOfRange { field: k, value: x },
    )
}
