//! Numbers in base 128, the lowest seven bits first, as Go writes them and so Prometheus does; signed ones by their
//! place in the order 0, -1, 1, -2, 2. Most have one to three bytes, so these are read without a loop.

ghost use Rattle.std.specs.Prelude.{◌≡◌, ◌≤◌, ◌<◌, ◌^◌, ◌*◌, ◌+◌, drop, Ok, suc, length, take, IfOk, IfSome, ℕ, ℤ};
ghost use Rattle.base.specs.Reading.{Answers};
ghost use Rattle.wire_bytes.specs.Fields.{groups_of, field_value, zigzag, unzigzag, group_base, group_count, low_group_count};
ghost use Rattle.wire_bytes.specs.Written.{uvarint_text};

/// Why a field could not be read.
#[derive(Clone, Copy, Debug, PartialEq, Eq)]
pub enum WireRefusal {
    /// The bytes end first.
    Short,
    /// A varint's tenth byte is above 1, so that its number passes 64 bits.
    Overlong,
}

/// How many values a group of seven bits can have.
pub(crate) const BASE: u64 = 128;

/// How much greater than its group a byte is where another group follows.
const MORE: u8 = 128;

/// How many groups a number of 64 bits has at most.
pub const GROUP_COUNT: usize = 10;

/// How many of these stand below the highest, which is one bit.
const LOW_GROUP_COUNT: usize = 9;

/// A number in base 128 at the front of the bytes, and how many bytes it takes. A short one needs no call.
#[inline(always)]
pub fn number_of(bytes: &[u8]) -> Result<(u64, usize), WireRefusal>
    ensures exact { Answers (λ x. x) result (groups_of low_group_count bytes.now) }
    ensures within { IfOk result (λ x. x.1 ≤ length bytes.now) }
{
    match short_number(bytes) {
        Some(found) => Ok(found),
        None => long_number(bytes),
    }
}

/// A number of any size at the front, and how many groups it has. What the call writes is taken apart here, so that a
/// short number needs no memory.
#[inline(always)]
fn long_number(bytes: &[u8]) -> Result<(u64, usize), WireRefusal>
    ensures exact { Answers (λ x. x) result (groups_of low_group_count bytes.now) }
    ensures within { IfOk result (λ x. x.1 ≤ length bytes.now) }
{
    let (number, size) = groups_of(bytes)?;
    Ok((number, size))
}

/// A number of at most three groups at the front of the bytes, and how many groups it has.
#[inline(always)]
fn short_number(bytes: &[u8]) -> Option<(u64, usize)>
    ensures read { IfSome result (λ x. groups_of low_group_count bytes.now ≡ Ok x) }
    ensures within { IfSome result (λ x. x.1 ≤ length bytes.now) }
{
    if bytes.is_empty() {
        return None;
    }
    let first = bytes[0];
    if first < MORE {
        return Some((u64::from(first), 1));
    }
    if bytes.len() < 2 {
        return None;
    }
    let second = bytes[1];
    if second < MORE {
        return Some((u64::from(first - MORE) + BASE * u64::from(second), 2));
    }
    if bytes.len() < 3 || bytes[2] >= MORE {
        return None;
    }
    let high = u64::from(second - MORE) + BASE * u64::from(bytes[2]);
    Some((u64::from(first - MORE) + BASE * high, 3))
}

fn groups_of(bytes: &[u8]) -> Result<(u64, usize), WireRefusal>
    ensures exact { Answers (λ x. x) result (groups_of low_group_count bytes.now) }
    ensures within { IfOk result (λ x. x.1 ≤ length bytes.now) }
{
    let mut n = 0;
    for place in 0..LOW_GROUP_COUNT {
        if place >= bytes.len() {
            return Err(WireRefusal::Short);
        }
        let group = bytes[place] as u64;
        if group < BASE {
            return Ok((with_group(n, group, place), place + 1));
        }
        n = with_group(n, group - BASE, place);
    }
    let group = last_group(bytes)?;
    Ok((n + (group << 63), GROUP_COUNT))
}

/// A group more above the low ones.
#[inline(always)]
fn with_group(n: u64, group: u64, place: usize) -> u64
    requires low { n < 2 ^ (7 * place) }
    requires group { group < group_base }
    requires limit { place < low_group_count }
    ensures value { result ≡ n + group * 2 ^ (7 * place) }
    ensures below { result < 2 ^ (7 * (place + 1)) }
{
    n + (group << (7 * place))
}

/// The highest group, which is one bit.
#[tactic(auto, unfolding(crate::specs::Fields::groups_of))]
fn last_group(bytes: &[u8]) -> Result<u64, WireRefusal>
    ensures exact { Answers (λ group. (group, 1)) result
        (groups_of 0 (drop low_group_count bytes.now)) }
    ensures bit { IfOk result (λ group. (group < 2) × (low_group_count < length bytes.now)) }
{
    match bytes.get(LOW_GROUP_COUNT) {
        None => Err(WireRefusal::Short),
        Some(0) => Ok(0),
        Some(1) => Ok(1),
        Some(_) => Err(WireRefusal::Overlong),
    }
}

/// The number that a field of so many bits stands for: above the middle itself less 2 to its width.
#[inline(always)]
pub fn field_value(width: u32, field: u64) -> i64
    requires width { 0 < width }
    requires short { width < 32 }
    requires field { field < 2 ^ width }
    ensures { result ≡ field_value width field }
{
    if field > 1 << (width - 1) {
        field as i64 - (1 << width)
    } else {
        field as i64
    }
}

/// The number that stands at a place in the order 0, -1, 1, -2, 2.
#[inline(always)]
pub fn unzigzag(n: u64) -> i64
    ensures { result ≡ unzigzag n }
{
    let half = (n / 2) as i64;
    if n % 2 == 0 { half } else { -1 - half }
}

/// The place of a number in that order.
pub fn zigzag(n: i64) -> u64
    ensures { result ≡ zigzag n }
{
    if n < 0 {
        (-1 - n) as u64 * 2 + 1
    } else {
        n as u64 * 2
    }
}

/// A number in base 128, and how many groups it has.
pub fn groups(n: u64) -> ([u8; GROUP_COUNT], usize)
    ensures text { take result.1 result.0 ≡ uvarint_text n }
    ensures count { result.1 ≤ group_count }
{
    let mut groups = [0; GROUP_COUNT];
    let mut high = n;
    for i in 0..LOW_GROUP_COUNT {
        if high < BASE {
            groups[i] = high as u8;
            return (groups, i + 1);
        }
        groups[i] = (BASE + high % BASE) as u8;
        high /= BASE;
    }
    groups[LOW_GROUP_COUNT] = high as u8;
    (groups, GROUP_COUNT)
}
