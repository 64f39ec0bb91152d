// Sums and products of bytes, FIPS 197 section 4.
ghost use Rattle.std.specs.Prelude.{◌≡◌};
ghost use Rattle.field.specs.Field.{◌•◌, x_times, dot};

// xTimes(), FIPS 197 (4.5): the byte moved up by one place, and {1b} added where x^8 came out.
#[tactic(auto, using(crate::proofs::Xor::xor_is_sum), unfolding(crate::specs::Field::x_times))]
pub fn x_times(b: u8) -> u8
    ensures { result ≡ x_times b }
{
    ((b % 128) * 2) ^ ((b / 128 % 2) * 0x1b)
}

// The product, FIPS 197 section 4.2: the sum of b x^i over the digits i of a that are set.
// What multiplies by constants is inlined, so that no loop and no test of a digit is left.
#[inline(always)]
#[tactic(auto, using(crate::proofs::Xor::xor_is_sum, crate::proofs::Products::product_none, crate::proofs::Products::product_all, crate::proofs::Products::doubled_next, crate::proofs::Products::turn_one, crate::proofs::Products::turn_zero), unfolding(crate::proofs::Products::doubled))]
fn times(a: u8, b: u8) -> u8
    ensures { result ≡ a • b }
{
    let mut sum = 0;
    let mut power = b;
    for i in 0..8u32 {
        if (a >> i) % 2 == 1 {
            sum ^= power;
        }
        power = x_times(power);
    }
    sum
}

// The first row of MixColumns' matrix times a column that starts at a: FIPS 197 (5.8).
#[inline(always)]
#[tactic(auto, using(crate::proofs::Xor::xor_is_sum), unfolding(crate::specs::Field::dot))]
pub fn mix_byte(a: u8, b: u8, c: u8, d: u8) -> u8
    ensures { result ≡ dot 0x02 0x03 0x01 0x01 a b c d }
{
    times(0x02, a) ^ times(0x03, b) ^ times(0x01, c) ^ times(0x01, d)
}

// The first row of InvMixColumns' matrix times a column that starts at a: FIPS 197 (5.15).
#[inline(always)]
#[tactic(auto, using(crate::proofs::Xor::xor_is_sum), unfolding(crate::specs::Field::dot))]
pub fn inv_mix_byte(a: u8, b: u8, c: u8, d: u8) -> u8
    ensures { result ≡ dot 0x0e 0x0b 0x0d 0x09 a b c d }
{
    times(0x0e, a) ^ times(0x0b, b) ^ times(0x0d, c) ^ times(0x09, d)
}
