//! Naturals as limbs of 64 bits, the lowest first.

ghost use Rattle.std.specs.Prelude.{◌≡◌, ◌+◌, ◌*◌, ◌/◌, ◌^◌, ◌<◌, ◌≤◌, min, length};
ghost use Rattle.xls_rounding.specs.Limbs.{value, weight};

// From here on a number is only known to be as much.
pub(crate) const MANY: u64 = 1 << 52;

const FIVE_TO_27: u64 = 7_450_580_596_923_828_125;

const TEN_TO_19: u64 = 10_000_000_000_000_000_000;

// 2^1088 is above each mantissa times 5^323 and times 2^973.
const LIMBS: usize = 17;

// Multiplies.
fn multiply(limbs: &mut [u64], by: u64)
    requires { value limbs.old * by < weight (length limbs.old) }
    ensures { value limbs.new ≡ value limbs.old * by }
{
    let mut carry = 0;
    for i in 0..limbs.len() {
        let (low, high) = limbs[i].carrying_mul(by, carry);
        limbs[i] = low;
        carry = high;
    }
}

// The quotient and the rest of a number of two limbs.
fn quotient_and_rest(high: u64, low: u64, by: u64) -> (u64, u64)
    requires { high < by }
    ensures whole { result.0 * by + result.1 ≡ high * 2 ^ 64 + low }
    ensures rest { result.1 < by }
{
    let number = high as u128 * (1 << 64) + low as u128;
    ((number / by as u128) as u64, (number % by as u128) as u64)
}

// Divides, rounding down.
fn divide(limbs: &mut [u64], by: u64)
    requires { 0 < by }
    ensures { value limbs.new ≡ value limbs.old / by }
{
    let mut rest = 0;
    let mut i = limbs.len();
    while i > 0 {
        i -= 1;
        let (quotient, next) = quotient_and_rest(rest, limbs[i], by);
        limbs[i] = quotient;
        rest = next;
    }
}

// The number, or `MANY` where it is more.
fn capped(limbs: &[u64]) -> u64
    ensures { result ≡ min (value limbs.now) MANY }
{
    let mut number = 0;
    let mut i = limbs.len();
    while i > 0 {
        i -= 1;
        number = if number > 0 { MANY } else { limbs[i].min(MANY) };
    }
    number
}

// The number without its lowest limbs, or `MANY` where that is more.
fn capped_above(limbs: &[u64], lowest: usize) -> u64
    requires { lowest ≤ length limbs.now }
    ensures { result ≡ min (value limbs.now / weight lowest) MANY }
{
    let (_, above) = limbs.split_at(lowest);
    capped(above)
}

// Multiplies by a power of five.
fn multiply_by_five_to(limbs: &mut [u64], n: u32)
    requires { value limbs.old * 5 ^ n < weight (length limbs.old) }
    ensures { value limbs.new ≡ value limbs.old * 5 ^ n }
{
    let mut left = n;
    while left > 27 {
        multiply(limbs, FIVE_TO_27);
        left -= 27;
    }
    multiply(limbs, 5u64.pow(left));
}

// Divides by a power of ten, rounding down.
fn divide_by_ten_to(limbs: &mut [u64], n: u32)
    ensures { value limbs.new ≡ value limbs.old / 10 ^ n }
{
    let mut left = n;
    while left > 19 {
        divide(limbs, TEN_TO_19);
        left -= 19;
    }
    divide(limbs, 10u64.pow(left));
}

/// A mantissa times five to the power `fives` over two to the power `down`, rounded down, or `MANY`
/// where that is more.
pub(crate) fn long_product(mantissa: u64, fives: u32, down: u32) -> u64
    requires mantissa { mantissa < 2 ^ 53 }
    requires fives { fives ≤ 323 }
    requires down { down < 1088 }
    ensures { result ≡ min (mantissa * 5 ^ fives / 2 ^ down) MANY }
{
    let mut limbs = [0; LIMBS];
    limbs[0] = mantissa;
    multiply_by_five_to(&mut limbs, fives);
    divide(&mut limbs, 1 << (down % 64));
    capped_above(&limbs, (down / 64) as usize)
}

/// A mantissa times two to the power `up` over ten to the power `tens`, rounded down, or `MANY`
/// where that is more.
pub(crate) fn long_quotient(mantissa: u64, up: u32, tens: u32) -> u64
    requires mantissa { mantissa < 2 ^ 53 }
    requires up { up ≤ 973 }
    ensures { result ≡ min (mantissa * 2 ^ up / 10 ^ tens) MANY }
{
    let mut limbs = [0; LIMBS];
    limbs[(up / 64) as usize] = mantissa;
    multiply(&mut limbs, 1 << (up % 64));
    divide_by_ten_to(&mut limbs, tens);
    capped(&limbs)
}
