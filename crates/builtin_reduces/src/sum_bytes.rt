//! The bytes of the value of a group.

ghost use Rattle.std.specs.Prelude.{◌≡◌, ◌++◌, option_map, IfOk, OnOk, FitsSigned};
ghost use Rattle.std.specs.Int.{w128};
ghost use Rattle.std.specs.List.{AllByRecursion, flat_map};
ghost use Rattle.builtin_reduces.specs.Front.{read_of};
ghost use Rattle.builtin_reduces.specs.SumBytes.{u128_bytes, i128_bytes, numbers_bytes, stats_bytes, sum_bytes, AreNumbers, AreStats, HasBytes};
ghost use Rattle.builtin_reduces.specs.SumReading.{u128_in, i128_in, u64_in, i64_in, squares_in, is_place_count, numbers_of_count, numbers_in, stats_in, kind_in, front_in, sum_in};

use crate::sum::{BuiltinSum, Stats, Sums};
use json_terms::NoMemory;
use std::alloc::Global;
use term_codec::{put_count, read_count};

/// How many numbers a list has at most. The text of an array of more has more than 1,048,576 bytes.
const PLACE_LIMIT: usize = 524_287;

/// Writes a value behind what `out` holds. Where memory runs out some of it may be written. Want of memory is also answered
/// for a list of no numbers or of more than 524,287, and for a sum of squares of 2^128 - 1.
pub(crate) fn put_sum(sum: &BuiltinSum, out: &mut Vec<u8>) -> Result<(), NoMemory>
    ensures bytes { OnOk result (out.new.items ≡ out.old.items ++ sum_bytes sum.now) }
    ensures fits { OnOk result (HasBytes sum.now) }
{
    match sum {
        BuiltinSum::Count(count) => {
            out.push(0)?;
            put_u128(u128::from(*count), out)
        }
        BuiltinSum::Number(number) => {
            out.push(1)?;
            put_i128(*number, out)
        }
        BuiltinSum::Numbers(sums) => {
            out.push(2)?;
            put_numbers(sums.as_slice(), out)
        }
        BuiltinSum::Stats(stats) => {
            out.push(3)?;
            put_stats(stats, out)
        }
        BuiltinSum::Refused => Ok(out.push(4)?),
        BuiltinSum::Overflow => Ok(out.push(5)?),
    }
}

#[tactic(auto, unfolding(crate::specs::SumBytes::u128_bytes))]
fn put_u128(number: u128, out: &mut Vec<u8>) -> Result<(), NoMemory>
    ensures { OnOk result (out.new.items ≡ out.old.items ++ u128_bytes number) }
{
    out.extend_from_slice(&number.to_le_bytes())?;
    Ok(())
}

fn put_i128(number: i128, out: &mut Vec<u8>) -> Result<(), NoMemory>
    ensures { OnOk result (out.new.items ≡ out.old.items ++ i128_bytes number) }
{
    out.extend_from_slice(&number.to_le_bytes())?;
    Ok(())
}

fn put_numbers(numbers: &[i128], out: &mut Vec<u8>) -> Result<(), NoMemory>
    ensures bytes { OnOk result (out.new.items ≡ out.old.items ++ numbers_bytes numbers.now) }
    ensures fits { OnOk result (AreNumbers numbers.now) }
{
    if !is_place_count(numbers.len()) {
        return Err(NoMemory);
    }
    put_count(numbers.len(), out)?;
    put_each_number(numbers, out)
}

fn put_each_number(numbers: &[i128], out: &mut Vec<u8>) -> Result<(), NoMemory>
    ensures bytes { OnOk result (out.new.items ≡ out.old.items ++ flat_map i128_bytes numbers.now) }
    ensures fit { OnOk result (AllByRecursion (FitsSigned w128) numbers.now) }
{
    for number in numbers {
        put_i128(*number, out)?;
    }
    Ok(())
}

fn put_stats(stats: &Stats, out: &mut Vec<u8>) -> Result<(), NoMemory>
    ensures bytes { OnOk result (out.new.items ≡ out.old.items ++ stats_bytes stats.now) }
    ensures fits { OnOk result (AreStats stats.now) }
{
    if stats.sumsqr == u128::MAX {
        return Err(NoMemory);
    }
    put_i128(stats.sum, out)?;
    put_u128(u128::from(stats.count), out)?;
    put_i128(i128::from(stats.min), out)?;
    put_i128(i128::from(stats.max), out)?;
    put_u128(stats.sumsqr, out)
}

/// The value of these bytes; none where they are those of none. How many numbers a list has is compared with the bytes that are
/// left before memory is taken for them.
pub(crate) fn read_sum(alloc: Global, bytes: &[u8]) -> Result<Option<BuiltinSum>, NoMemory>
    ensures { IfOk result (λ found. found ≡ sum_in bytes.now) }
{
    let Some((sum, rest)) = read_front(alloc, bytes)? else {
        return Ok(None);
    };
    if !rest.is_empty() {
        return Ok(None);
    }
    Ok(Some(sum))
}

fn read_front(alloc: Global, bytes: &[u8]) -> Result<Option<(BuiltinSum, &[u8])>, NoMemory>
    ensures { IfOk result (λ found. read_of found ≡ front_in bytes.now) }
{
    match bytes.split_first() {
        Some((kind, rest)) => read_kind(alloc, *kind, rest),
        None => Ok(None),
    }
}

// A value of this kind, behind the byte of its kind.
fn read_kind(alloc: Global, kind: u8, bytes: &[u8]) -> Result<Option<(BuiltinSum, &[u8])>, NoMemory>
    ensures { IfOk result (λ found. read_of found ≡ kind_in kind bytes.now) }
{
    match kind {
        0 => Ok(read_u64(bytes).map(|(count, rest)| (BuiltinSum::Count(count), rest))),
        1 => Ok(read_i128(bytes).map(|(number, rest)| (BuiltinSum::Number(number), rest))),
        2 => Ok(read_numbers(alloc, bytes)?.map(|(sums, rest)| (BuiltinSum::Numbers(sums), rest))),
        3 => Ok(read_stats(bytes)),
        4 => Ok(Some((BuiltinSum::Refused, bytes))),
        5 => Ok(Some((BuiltinSum::Overflow, bytes))),
        _ => Ok(None),
    }
}

fn read_stats(bytes: &[u8]) -> Option<(BuiltinSum, &[u8])>
    ensures { read_of result ≡ stats_in bytes.now }
{
    let (sum, rest) = read_i128(bytes)?;
    let (count, rest) = read_u64(rest)?;
    let (min, rest) = read_i64(rest)?;
    let (max, rest) = read_i64(rest)?;
    let (sumsqr, rest) = read_squares(rest)?;
    let stats = Stats {
        sum,
        count,
        min,
        max,
        sumsqr,
    };
    Some((BuiltinSum::Stats(stats), rest))
}

fn read_numbers(alloc: Global, bytes: &[u8]) -> Result<Option<(Sums, &[u8])>, NoMemory>
    ensures { IfOk result (λ found. read_of found ≡ numbers_in bytes.now) }
{
    match read_count(bytes) {
        Some((count, rest)) if is_place_count(count) => read_each_number(alloc, count, rest),
        _ => Ok(None),
    }
}

/// Whether a list may have so many numbers.
fn is_place_count(count: usize) -> bool
    ensures { result ≡ is_place_count count }
{
    count >= 1 && count <= PLACE_LIMIT
}

// So many numbers from the front.
fn read_each_number(
    alloc: Global,
    count: usize,
    bytes: &[u8],
) -> Result<Option<(Sums, &[u8])>, NoMemory>
    ensures { IfOk result (λ found. read_of found ≡ numbers_of_count count bytes.now) }
{
    if count > bytes.len() / 16 {
        return Ok(None);
    }
    let mut numbers = Vec::with_capacity(alloc, count)?;
    let mut rest = bytes;
    for _index in 0..count {
        match read_i128(rest) {
            Some((number, behind)) => {
                numbers.push(number)?;
                rest = behind;
            }
            None => return Ok(None),
        }
    }
    Ok(Some((Sums::new(numbers), rest)))
}

// The number with these bytes.
fn u128_of(bytes: [u8; 16]) -> u128
    ensures { u128_bytes result ≡ bytes }
{
    u128::from_le_bytes(bytes)
}

/// The natural number in the first 16 bytes, and the bytes behind it; none where there are fewer.
fn read_u128(bytes: &[u8]) -> Option<(u128, &[u8])>
    ensures { read_of result ≡ u128_in bytes.now }
{
    match bytes.split_first_chunk::<16>() {
        Some((head, rest)) => Some((u128_of(*head), rest)),
        None => None,
    }
}

/// The same in two's complement.
#[tactic(auto, unfolding(crate::specs::SumReading::i128_in))]
fn read_i128(bytes: &[u8]) -> Option<(i128, &[u8])>
    ensures { read_of result ≡ i128_in bytes.now }
{
    let (number, rest) = read_u128(bytes)?;
    Some((number.cast_signed(), rest))
}

/// A natural number that fits 64 bits.
#[tactic(auto, unfolding(crate::specs::SumReading::u64_in))]
fn read_u64(bytes: &[u8]) -> Option<(u64, &[u8])>
    ensures { read_of result ≡ u64_in bytes.now }
{
    let (number, rest) = read_u128(bytes)?;
    if number > u128::from(u64::MAX) {
        return None;
    }
    Some((number as u64, rest))
}

/// A sum of squares that isn't too great.
#[tactic(auto, unfolding(crate::specs::SumReading::squares_in))]
fn read_squares(bytes: &[u8]) -> Option<(u128, &[u8])>
    ensures { read_of result ≡ squares_in bytes.now }
{
    let (number, rest) = read_u128(bytes)?;
    if number == u128::MAX {
        return None;
    }
    Some((number, rest))
}

/// A whole number that fits 64 bits.
#[tactic(auto, unfolding(crate::specs::SumReading::i64_in))]
fn read_i64(bytes: &[u8]) -> Option<(i64, &[u8])>
    ensures { read_of result ≡ i64_in bytes.now }
{
    let (number, rest) = read_i128(bytes)?;
    if number < i128::from(i64::MIN) || number > i128::from(i64::MAX) {
        return None;
    }
    Some((number as i64, rest))
}
