//! Products and sums of 128 bits.

ghost use Rattle.std.specs.Prelude.{◌≡◌, ◌^◌, Some, pos, neg_ℤ, ◌*ℤ◌, if◌then◌else◌};
ghost use Rattle.row_arrays.specs.Sums.{fitting, plus};

const SIGN: u128 = 0x8000_0000_0000_0000_0000_0000_0000_0000;

// Returns the amount with its sign, if it fits an `i128`.
fn signed(negative: bool, amount: u128) -> Option<i128>
    ensures { result ≡ fitting (if negative then (neg_ℤ (pos amount)) else (pos amount)) }
{
    if amount < SIGN {
        let size = amount as i128;
        Some(if negative { -size } else { size })
    } else if negative && amount == SIGN {
        Some(i128::MIN)
    } else {
        None
    }
}

// Returns the product, if it fits an `i128`.
fn product(numerator: u128, number: i128) -> Option<i128>
    ensures { result ≡ fitting (pos numerator *ℤ number) }
{
    match numerator.checked_mul(number.unsigned_abs()) {
        Some(amount) => signed(number < 0, amount),
        None => None,
    }
}

// Returns the sum plus a product, if both the product and the new sum fit an `i128`.
pub(crate) fn plus_product(sum: i128, numerator: u128, number: i128) -> Option<i128>
    ensures { result ≡ plus (Some sum) (pos numerator *ℤ number) }
{
    match product(numerator, number) {
        Some(product) => sum.checked_add(product),
        None => None,
    }
}
