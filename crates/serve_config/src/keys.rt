//! The values at an object's keys: each of its kind and in its range, or refused.
ghost use Rattle.std.specs.Prelude.{◌≡◌, ◌≤◌, IfOk, true, length};
ghost use Rattle.std.specs.List.{list_all};
ghost use Rattle.serde_json.specs.View.{view, items_view};
ghost use Rattle.serve_config.specs.Kinds.{within as due_within, number as number_due, text as text_due, name as name_due, policy as policy_due, array as array_due, required, optional};
ghost use Rattle.serve_config.specs.Letters.{is_name_byte};
ghost use Rattle.serve_config.specs.Ranges.{IsBetween};
ghost use Rattle.serve_config.specs.Outcome.{seen};

use crate::letters::has_name_letters;
use crate::refusals::Refusal;
use run_queues::Policy;
use serde_json::Value;

/// Whether a size is in its range.
fn within(least: u64, most: u64, size: u64) -> Result<u64, Refusal>
    ensures exact { result ≡ due_within least most size size }
    ensures in_range { IfOk result (IsBetween least most) }
{
    if size < least {
        return Err(Refusal::OutOfRange);
    }
    if most < size {
        return Err(Refusal::OutOfRange);
    }
    Ok(size)
}

/// The whole number that a value is.
fn whole(found: &Value, least: u64, most: u64) -> Result<u64, Refusal>
    ensures exact { result ≡ number_due least most (view found.now) }
    ensures in_range { IfOk result (IsBetween least most) }
{
    let Some(number) = found.as_u64() else {
        return Err(Refusal::WrongKind);
    };
    within(least, most, number)
}

/// The number at a key.
pub(crate) fn number(object: &Value, key: &str, least: u64, most: u64) -> Result<u64, Refusal>
    ensures exact { result ≡ required key.now (number_due least most) (view object.now) }
    ensures in_range { IfOk result (IsBetween least most) }
{
    let Some(found) = object.get(key) else {
        return Err(Refusal::MissingKey);
    };
    whole(found, least, most)
}

/// The number at a key that may be missing.
pub(crate) fn number_or(
    object: &Value,
    key: &str,
    least: u64,
    most: u64,
    standard: u64,
) -> Result<u64, Refusal>
    requires { IsBetween least most standard }
    ensures exact { result ≡ optional key.now standard (number_due least most) (view object.now) }
    ensures in_range { IfOk result (IsBetween least most) }
{
    let Some(found) = object.get(key) else {
        return Ok(standard);
    };
    whole(found, least, most)
}

/// The text that a value is.
fn words(found: &Value, most: u64) -> Result<&str, Refusal>
    ensures exact { seen (λ text. text.now) result ≡ text_due most (view found.now) }
    ensures in_range { IfOk result (λ text. IsBetween 1 most (length text.now)) }
{
    let Some(text) = found.as_str() else {
        return Err(Refusal::WrongKind);
    };
    within(1, most, text.len() as u64)?;
    Ok(text)
}

/// The text at a key.
pub(crate) fn text<'a>(object: &'a Value, key: &str, most: u64) -> Result<&'a str, Refusal>
    ensures exact { seen (λ text. text.now) result ≡ required key.now (text_due most) (view object.now) }
    ensures in_range { IfOk result (λ text. IsBetween 1 most (length text.now)) }
{
    let Some(found) = object.get(key) else {
        return Err(Refusal::MissingKey);
    };
    words(found, most)
}

/// The text at a key that may be missing.
pub(crate) fn text_or<'a>(
    object: &'a Value,
    key: &str,
    most: u64,
    standard: &'a str,
) -> Result<&'a str, Refusal>
    requires { IsBetween 1 most (length standard.now) }
    ensures exact { seen (λ text. text.now) result ≡ optional key.now standard.now (text_due most) (view object.now) }
    ensures in_range { IfOk result (λ text. IsBetween 1 most (length text.now)) }
{
    let Some(found) = object.get(key) else {
        return Ok(standard);
    };
    words(found, most)
}

/// The tenant's name at a key.
pub(crate) fn name<'a>(object: &'a Value, key: &str) -> Result<&'a str, Refusal>
    ensures exact { seen (λ text. text.now) result ≡ required key.now name_due (view object.now) }
    ensures in_range { IfOk result (λ text. IsBetween 1 64 (length text.now)) }
    ensures letters { IfOk result (λ text. list_all is_name_byte text.now ≡ true) }
{
    let called = text(object, key, 64)?;
    if !has_name_letters(called) {
        return Err(Refusal::OutOfRange);
    }
    Ok(called)
}

/// The policy at a key.
pub(crate) fn policy(object: &Value, key: &str) -> Result<Policy, Refusal>
    ensures { result ≡ required key.now policy_due (view object.now) }
{
    let Some(found) = object.get(key) else {
        return Err(Refusal::MissingKey);
    };
    let Some(name) = found.as_str() else {
        return Err(Refusal::WrongKind);
    };
    match name {
        "rr" => Ok(Policy::RoundRobin),
        "edf" => Ok(Policy::EarliestDeadline),
        _ => Err(Refusal::OutOfRange),
    }
}

/// The array of 1 to 64 items at a key.
#[tactic(auto, using(crate::proofs::Members::items_counted))]
pub(crate) fn array<'a>(object: &'a Value, key: &str) -> Result<&'a [Value], Refusal>
    ensures exact { seen (λ values. items_view values.now) result ≡ required key.now array_due (view object.now) }
    ensures in_range { IfOk result (λ values. IsBetween 1 64 (length values.now)) }
{
    let Some(found) = object.get(key) else {
        return Err(Refusal::MissingKey);
    };
    let Some(values) = found.as_array() else {
        return Err(Refusal::WrongKind);
    };
    within(1, 64, values.len() as u64)?;
    Ok(values.as_slice())
}
