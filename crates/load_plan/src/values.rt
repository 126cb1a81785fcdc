//! The values of parameters.
ghost use Rattle.std.specs.Prelude.{◌≡◌, ◌<◌, ◌≤◌, ◌^◌, IfSome};
ghost use Rattle.std.specs.List.{list_all, slice_split};
ghost use Rattle.std.specs.Option.{option_copied, option_map};
ghost use Rattle.load_plan.specs.Parameters.{as_taken, at_most, digit_of, is_bool, is_comma, is_signed, is_unsigned, magnitude, may_stand_alone, number_of, radix, takes, takes_one, without_last_quote, without_quotes};

use dep_index::{Param, ParamKind, Scalar};
use text_parts::is_same;

/// The base of a number's digits.
#[derive(Clone, Copy, Debug, PartialEq, Eq)]
pub(crate) enum Base {
    Decimal,
    Hexadecimal,
}

fn radix(base: Base) -> u128
    ensures { result ≡ radix base }
{
    match base {
        Base::Decimal => 10,
        Base::Hexadecimal => 16,
    }
}

fn digit(base: Base, byte: u8) -> Option<u128>
    ensures value { result ≡ digit_of base byte }
    ensures small { IfSome result (λ digit. digit < 16) }
{
    match base {
        Base::Decimal => match byte {
            b'0'..=b'9' => Some((byte - b'0') as u128),
            _ => None,
        },
        Base::Hexadecimal => match byte {
            b'0'..=b'9' => Some((byte - b'0') as u128),
            b'a'..=b'f' => Some((byte - b'a' + 10) as u128),
            b'A'..=b'F' => Some((byte - b'A' + 10) as u128),
            _ => None,
        },
    }
}

/// Whether the digits are a number of at most `limit`.
fn is_within(base: Base, limit: u128, digits: &[u8]) -> bool
    requires { limit < 2 ^ 64 }
    ensures { result ≡ at_most limit (number_of base digits.now) }
{
    if digits.is_empty() {
        return false;
    }
    let mut number = 0u128;
    let mut rest = digits;
    'digits: while let Some((byte, later)) = rest.split_first() {
        match digit(base, *byte) {
            Some(digit) => number = number * radix(base) + digit,
            None => return false,
        }
        if number > limit {
            return false;
        }
        rest = later;
    }
    true
}

fn is_unsigned(limit: u128, value: &[u8]) -> bool
    requires { limit < 2 ^ 64 }
    ensures { result ≡ is_unsigned limit value.now }
{
    match value {
        [b'0', b'x' | b'X', digits @ ..] => is_within(Base::Hexadecimal, limit, digits),
        digits => is_within(Base::Decimal, limit, digits),
    }
}

fn is_signed(limit: u128, value: &[u8]) -> bool
    requires { limit < 2 ^ 63 }
    ensures { result ≡ is_signed limit value.now }
{
    match value.split_first() {
        None => false,
        Some((b'-', digits)) => is_unsigned(limit + 1, digits),
        Some(_) => is_unsigned(limit, value),
    }
}

fn is_bool(value: &[u8]) -> bool
    ensures { result ≡ is_bool value.now }
{
    matches!(value, [b'y' | b'Y' | b'1' | b'n' | b'N' | b'0'])
}

fn takes_one(scalar: Scalar, value: &[u8]) -> bool
    ensures { result ≡ takes_one scalar value.now }
{
    match scalar {
        Scalar::Byte => is_unsigned(255, value),
        Scalar::Short => is_signed(32_767, value),
        Scalar::Ushort => is_unsigned(65_535, value),
        Scalar::Int => is_signed(2_147_483_647, value),
        Scalar::Uint | Scalar::Hexint => is_unsigned(4_294_967_295, value),
        Scalar::Long => is_signed(9_223_372_036_854_775_807, value),
        Scalar::Ulong | Scalar::Ullong => is_unsigned(18_446_744_073_709_551_615, value),
        Scalar::Bool | Scalar::Bint | Scalar::Invbool => is_bool(value),
    }
}

/// Whether the type takes each of the values between commas.
fn takes_each(scalar: Scalar, values: &[u8]) -> bool
    ensures { result ≡ list_all (takes_one scalar) (slice_split is_comma values.now) }
{
    values
        .split(|byte| *byte == b',')
        .all(|value| takes_one(scalar, value))
}

fn may_stand_alone(scalar: Scalar) -> bool
    ensures { result ≡ may_stand_alone scalar }
{
    matches!(scalar, Scalar::Bool | Scalar::Bint)
}

/// The value without a quote at its end.
fn without_last_quote(value: &[u8]) -> &[u8]
    ensures { result.now ≡ without_last_quote value.entry.now }
{
    let (front, back) = value.split_at(value.len().saturating_sub(1));
    if is_same(back, b"\"") { front } else { value }
}

/// The value without the quotes round it, as the kernel takes them off.
fn without_quotes(value: &[u8]) -> &[u8]
    ensures { result.now ≡ without_quotes value.entry.now }
{
    match value.split_first() {
        Some((b'"', bytes)) => without_last_quote(bytes),
        _ => value,
    }
}

/// The value as the parameter takes it.
pub(crate) fn as_taken<'a>(param: &Param, value: Option<&'a [u8]>) -> Option<&'a [u8]>
    ensures { option_map (λ bytes. bytes.now) result ≡ as_taken param.now (option_map (λ bytes. bytes.now) value.entry) }
{
    match value {
        Some(value) if param.drops_quotes => Some(without_quotes(value)),
        _ => value,
    }
}

/// Whether a parameter takes a value, or no value.
pub(crate) fn takes(kind: ParamKind, value: Option<&[u8]>) -> bool
    ensures { result ≡ takes kind (option_map (λ bytes. bytes.now) value.entry) }
{
    match (kind, value) {
        (ParamKind::Charp, Some(_)) => true,
        (ParamKind::One(scalar), Some(value)) => takes_one(scalar, value),
        (ParamKind::One(scalar), None) => may_stand_alone(scalar),
        (ParamKind::Array(scalar), Some(values)) => takes_each(scalar, values),
        (ParamKind::Charp | ParamKind::Array(_), None) => false,
    }
}
