//! Counts of digits, bits and words.
ghost use Rattle.std.specs.Prelude.{◌≡◌, ◌-◌, ◌^◌, ◌<◌, ◌≤◌, IfOk, length, replicate, sum};
ghost use Rattle.bit_array.specs.Digits.{digit_count};
ghost use Rattle.bit_array.specs.Element.{number_of, words_of};

use std::alloc::{AllocError, Global};

/// How many binary digits a number has, 0 for 0: the least width in bits that holds it.
pub fn digits(number: u64) -> u32
    ensures count { result ≡ digit_count number }
    ensures holds { number < 2 ^ result }
    ensures least { 0 < number → 2 ^ (result - 1) ≤ number }
    ensures fits { result ≤ 64 }
{
    64 - number.leading_zeros()
}

/// How many 64-bit words so many bits take.
pub fn words_for(bits: u64) -> u64
    ensures { result ≡ words_of bits }
{
    bits.div_ceil(64)
}

/// As many words of zeros as so many bits take.
#[tactic(auto, using(crate::proofs::ZeroWords::zeros_long, crate::proofs::ZeroWords::zeros_none))]
pub fn zeros(alloc: Global, bits: u64) -> Result<Vec<u64>, AllocError>
    ensures words { IfOk result (λ words. words.items ≡ replicate (words_of bits) 0) }
    ensures long { IfOk result (λ words. length words.items ≡ words_of bits) }
    ensures none { IfOk result (λ words. number_of words.items ≡ 0) }
{
    vec![in alloc; 0; words_for(bits) as usize]
}

/// The element of a width, in bits, that has ones alone: null where a format has it so. At width 0 it is 0.
#[tactic(auto, using(crate::proofs::DigitCounts::all_ones_shifted))]
pub fn all_ones(width: u32) -> u64
    requires { width ≤ 64 }
    ensures { result ≡ 2 ^ width - 1 }
{
    if width == 0 {
        return 0;
    }
    u64::MAX >> (64 - width)
}

/// How many bits elements of these widths take together.
pub fn total_width(widths: &[u32]) -> u128
    ensures total { result ≡ sum widths.now }
    ensures small { result < 2 ^ 96 }
{
    widths.iter().map(|width| u128::from(*width)).sum()
}
