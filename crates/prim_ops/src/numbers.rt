ghost use Rattle.std.specs.Prelude.{◌≡◌, [], map, pos};
ghost use Rattle.script_value.specs.Views.{meaning};
ghost use Rattle.script_value.specs.declared.outcome.Op.TheVariants as op;
ghost use Rattle.prim_spec.specs.Numbers as spec;
ghost use Rattle.prim_spec.specs.Table.{value_of};
ghost use Rattle.prim_ops.specs.Applied.{Answers};

use script_value::{Fault, Value};

fn are_numbers(values: &[Value]) -> bool
    ensures { result ≡ spec.are_numbers (map meaning values.now) }
{
    for value in values {
        let Value::Int(_) = value else {
            return false;
        };
    }
    true
}

/// The sum of numbers, from left to right.
pub fn add(values: &[Value]) -> Result<Value, Fault>
    ensures { Answers result (value_of op.Add (map meaning values.now)) }
{
    if are_numbers(values) {
        sum(values)
    } else {
        Err(Fault::WrongType)
    }
}

fn sum(values: &[Value]) -> Result<Value, Fault>
    ensures { Answers result (spec.sum_from (pos 0) (map meaning values.now)) }
{
    let mut sum: i64 = 0;
    for value in values {
        let Value::Int(number) = value else {
            return Err(Fault::WrongType);
        };
        match sum.checked_add(*number) {
            Some(next) => sum = next,
            None => return Err(Fault::Overflow),
        }
    }
    Ok(Value::Int(sum))
}

/// The product of numbers, from left to right.
pub fn multiply(values: &[Value]) -> Result<Value, Fault>
    ensures { Answers result (value_of op.Multiply (map meaning values.now)) }
{
    if are_numbers(values) {
        product(values)
    } else {
        Err(Fault::WrongType)
    }
}

fn product(values: &[Value]) -> Result<Value, Fault>
    ensures { Answers result (spec.product_from (pos 1) (map meaning values.now)) }
{
    let mut product: i64 = 1;
    for value in values {
        let Value::Int(number) = value else {
            return Err(Fault::WrongType);
        };
        match product.checked_mul(*number) {
            Some(next) => product = next,
            None => return Err(Fault::Overflow),
        }
    }
    Ok(Value::Int(product))
}

/// A number less others, from left to right; one number alone is negated.
pub fn subtract(values: &[Value]) -> Result<Value, Fault>
    ensures { Answers result (value_of op.Subtract (map meaning values.now)) }
{
    if !are_numbers(values) {
        return Err(Fault::WrongType);
    }
    match values {
        [Value::Int(first), others @ ..] => less(*first, others),
        _ => Err(Fault::WrongType),
    }
}

// A number less others; with no others, the number negated.
fn less(first: i64, others: &[Value]) -> Result<Value, Fault>
    ensures { Answers result (spec.less first (map meaning others.now)) }
{
    if others.is_empty() {
        negate(first)
    } else {
        difference(first, others)
    }
}

fn negate(number: i64) -> Result<Value, Fault>
    ensures { Answers result (spec.less number []) }
{
    match number.checked_neg() {
        Some(negated) => Ok(Value::Int(negated)),
        None => Err(Fault::Overflow),
    }
}

fn difference(first: i64, others: &[Value]) -> Result<Value, Fault>
    ensures { Answers result (spec.difference_from first (map meaning others.now)) }
{
    let mut difference = first;
    for value in others {
        let Value::Int(number) = value else {
            return Err(Fault::WrongType);
        };
        match difference.checked_sub(*number) {
            Some(next) => difference = next,
            None => return Err(Fault::Overflow),
        }
    }
    Ok(Value::Int(difference))
}

fn two_numbers(values: &[Value]) -> Result<(i64, i64), Fault>
    ensures { result ≡ spec.two_numbers (map meaning values.now) }
{
    match values {
        [Value::Int(first), Value::Int(second)] => Ok((*first, *second)),
        _ => Err(Fault::WrongType),
    }
}

/// The quotient of two numbers, rounded towards zero.
pub fn quotient(values: &[Value]) -> Result<Value, Fault>
    ensures { Answers result (value_of op.Quotient (map meaning values.now)) }
{
    let (dividend, divisor) = two_numbers(values)?;
    quotient_of(dividend, divisor)
}

fn quotient_of(dividend: i64, divisor: i64) -> Result<Value, Fault>
    ensures { Answers result (spec.quotient_of dividend divisor) }
{
    if divisor == 0 {
        return Err(Fault::Zero);
    }
    match dividend.checked_div(divisor) {
        Some(quotient) => Ok(Value::Int(quotient)),
        None => Err(Fault::Overflow),
    }
}

/// The remainder of two numbers, which has the sign of the first.
pub fn remainder(values: &[Value]) -> Result<Value, Fault>
    ensures { Answers result (value_of op.Remainder (map meaning values.now)) }
{
    let (dividend, divisor) = two_numbers(values)?;
    remainder_of(dividend, divisor)
}

fn remainder_of(dividend: i64, divisor: i64) -> Result<Value, Fault>
    ensures { Answers result (spec.remainder_of dividend divisor) }
{
    if divisor == 0 {
        return Err(Fault::Zero);
    }
    Ok(Value::Int(dividend.wrapping_rem(divisor)))
}

/// Whether two numbers are equal.
pub fn are_equal(values: &[Value]) -> Result<Value, Fault>
    ensures { Answers result (value_of op.Equal (map meaning values.now)) }
{
    let (left, right) = two_numbers(values)?;
    Ok(Value::Truth(left == right))
}

/// Whether the first of two numbers is less.
pub fn is_less(values: &[Value]) -> Result<Value, Fault>
    ensures { Answers result (value_of op.Less (map meaning values.now)) }
{
    let (left, right) = two_numbers(values)?;
    Ok(Value::Truth(left < right))
}

/// Whether the first of two numbers is greater.
pub fn is_greater(values: &[Value]) -> Result<Value, Fault>
    ensures { Answers result (value_of op.Greater (map meaning values.now)) }
{
    let (left, right) = two_numbers(values)?;
    Ok(Value::Truth(left > right))
}

/// Whether the first of two numbers is not greater.
pub fn is_at_most(values: &[Value]) -> Result<Value, Fault>
    ensures { Answers result (value_of op.AtMost (map meaning values.now)) }
{
    let (left, right) = two_numbers(values)?;
    Ok(Value::Truth(left <= right))
}

/// Whether the first of two numbers is not less.
pub fn is_at_least(values: &[Value]) -> Result<Value, Fault>
    ensures { Answers result (value_of op.AtLeast (map meaning values.now)) }
{
    let (left, right) = two_numbers(values)?;
    Ok(Value::Truth(left >= right))
}

/// A count as a number, which may be too great for one.
pub fn count(count: usize) -> Result<Value, Fault>
    ensures { Answers result (spec.in_range (pos count)) }
{
    match i64::try_from(count) {
        Ok(number) => Ok(Value::Int(number)),
        Err(_) => Err(Fault::Overflow),
    }
}
