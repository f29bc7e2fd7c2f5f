// The numbers of a source.
ghost use Rattle.std.specs.Prelude.{◌≡◌, ◌+◌, ◌*◌, ◌<◌, ◌≤◌, min, SomeIff, IfSome, Some, None, pos, neg_ℤ, if◌then◌else◌};
ghost use Rattle.std.specs.Char.{digit_value};
ghost use Rattle.std.specs.Option.{option_map};
ghost use Rattle.std.specs.Result.{result_map_both};
ghost use Rattle.std.specs.Str.Parse.{digits_value};
ghost use Rattle.rv_asm.specs.Numbers.{decimal_number, hexadecimal_number, number_of, has_digits, has_leading_zero};
ghost use Rattle.rv_asm.specs.Operands.{capped, nearest, immediate_number, number};

use crate::bytes::without_front;
use crate::fault::AsmKind;

/// More than a word holds. What is still farther from 0 is refused in each place where this is.
const LIMIT: u64 = 0x1_0000_0000;

/// A number as an immediate: the nearest that 32 bits hold, since no field holds more.
pub(crate) fn immediate_number(text: &[u8]) -> Result<i32, AsmKind>
    ensures { result ≡ immediate_number text.now }
{
    Ok(nearest(number(text)?))
}

/// The number that 32 bits hold, in the stead of one that is farther from 0.
pub(crate) fn nearest(n: i64) -> i32
    ensures { result ≡ nearest n }
{
    n.clamp(-i64::from(i32::MAX), i64::from(i32::MAX)) as i32
}

/// The number that a text spells, or the limit in the stead of one that is farther from 0.
pub(crate) fn number(text: &[u8]) -> Result<i64, AsmKind>
    ensures { result ≡ result_map_both (capped LIMIT) (λ k. k) (number text.now) }
{
    signed(text).ok_or(AsmKind::Operand)
}

fn signed(text: &[u8]) -> Option<i64>
    ensures { result ≡ option_map (capped LIMIT) (number_of text.now) }
{
    if let Some(digits) = without_front(b"0x", text) {
        return positive(hexadecimal(digits));
    }
    if let Some(digits) = without_front(b"-", text) {
        return negative(decimal(digits));
    }
    positive(decimal(text))
}

fn positive(n: Option<u64>) -> Option<i64>
    requires { IfSome n (λ size. size ≤ LIMIT) }
    ensures { result ≡ option_map pos n }
{
    match n {
        Some(size) => Some(size as i64),
        None => None,
    }
}

fn negative(n: Option<u64>) -> Option<i64>
    requires { IfSome n (λ size. size ≤ LIMIT) }
    ensures { result ≡ option_map (λ size. neg_ℤ (pos size)) n }
{
    match n {
        Some(size) => Some(-(size as i64)),
        None => None,
    }
}

fn hexadecimal(text: &[u8]) -> Option<u64>
    ensures value { result ≡ option_map (λ n. min n LIMIT) (hexadecimal_number text.now) }
    ensures small { IfSome result (λ n. n ≤ LIMIT) }
{
    digits(16, text)
}

fn decimal(text: &[u8]) -> Option<u64>
    ensures value { result ≡ option_map (λ n. min n LIMIT) (decimal_number text.now) }
    ensures small { IfSome result (λ n. n ≤ LIMIT) }
{
    if has_leading_zero(text) {
        return None;
    }
    digits(10, text)
}

fn has_leading_zero(text: &[u8]) -> bool
    ensures { result ≡ has_leading_zero text.now }
{
    match text {
        [first, _, ..] => *first == b'0',
        _ => false,
    }
}

/// The number that some digits spell, at most the limit.
fn digits(radix: u32, text: &[u8]) -> Option<u64>
    requires low { 2 ≤ radix }
    requires high { radix ≤ 16 }
    ensures value { result ≡ (if has_digits radix text.now then Some (min (digits_value radix text.now) LIMIT) else None) }
    ensures small { IfSome result (λ n. n ≤ LIMIT) }
{
    if text.is_empty() {
        return None;
    }
    let mut value = 0;
    for digit in text {
        value = with_digit(radix, value, *digit)?;
    }
    Some(value)
}

/// A number with one more digit at its end, at most the limit.
fn with_digit(radix: u32, value: u64, digit: u8) -> Option<u64>
    requires low { 2 ≤ radix }
    requires high { radix ≤ 16 }
    requires small { value ≤ LIMIT }
    ensures value { SomeIff result (digit_value digit < radix) (min (value * radix + digit_value digit) LIMIT) }
    ensures small { IfSome result (λ n. n ≤ LIMIT) }
{
    let digit = char::from(digit).to_digit(radix)?;
    Some((value * u64::from(radix) + u64::from(digit)).min(LIMIT))
}
