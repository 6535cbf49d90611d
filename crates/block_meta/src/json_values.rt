//! Members of a JSON object, each of the kind that its field has.

ghost use Rattle.std.specs.Prelude.{◌≡◌, ◌⊎◌, Option, option_map};
ghost use Rattle.base.specs.Reading.{Gives, Answers};
ghost use Rattle.serde_json.specs.View.{view, items_view};
ghost use Rattle.block_meta.specs.declared.refusal.MetaRefusal.TheVariants.{NoMemory, MissingField, WrongKind, BadUlid};
ghost use Rattle.block_meta.specs.Members.{json_of, object_of, member_of, needed_of, section_of, of_kind, unsigned_of, signed_of, whole_of, text_of, ulid_of, version_of, count_of};
ghost use Rattle.serde_json.specs.Find.{as_array};

use crate::MetaRefusal;
use label_sets::Text;
use serde_json::Value;
use std::alloc::Global;
use ulid_core::Ulid;

/// The value of a text that is one JSON object.
#[tactic(auto, unfolding(crate::specs::Members::object_of))]
pub(crate) fn read_object(alloc: Global, bytes: &[u8]) -> Result<Value, MetaRefusal>
    ensures { Gives NoMemory view result (object_of bytes.now) }
{
    let value = read_json(alloc, bytes)?;
    if value.is_object() {
        Ok(value)
    } else {
        Err(MetaRefusal::NotJson)
    }
}

#[tactic(auto, using(crate::proofs::Texts::json_read, crate::proofs::Texts::json_refused, crate::proofs::Texts::json_not_text))]
fn read_json(alloc: Global, bytes: &[u8]) -> Result<Value, MetaRefusal>
    ensures { Gives NoMemory view result (json_of bytes.now) }
{
    let Ok(text) = std::str::from_utf8(bytes) else {
        return Err(MetaRefusal::NotJson);
    };
    match Value::from_str(alloc, text) {
        Ok(value) => Ok(value),
        Err(error) if error.is_memory() => Err(MetaRefusal::NoMemory),
        Err(_) => Err(MetaRefusal::NotJson),
    }
}

/// The member of that name, where it is there and not `null`.
#[tactic(auto, unfolding(crate::specs::Members::member_of))]
pub(crate) fn member<'v>(object: &'v Value, name: &str) -> Option<&'v Value>
    ensures { option_map (λ v. view v.now) result ≡ member_of name.now (view object.now) }
{
    match object.get(name) {
        Some(value) if !value.is_null() => Some(value),
        _ => None,
    }
}

/// The member of that name, which has to be there.
#[tactic(auto, unfolding(crate::specs::Members::needed_of))]
pub(crate) fn needed_member<'v>(
    alloc: Global,
    object: &'v Value,
    name: &str,
) -> Result<&'v Value, MetaRefusal>
    ensures { Gives NoMemory (λ v. view v.now) result (needed_of name.now (view object.now)) }
{
    match member(object, name) {
        Some(value) => Ok(value),
        None => Err(missing(alloc, name)),
    }
}

/// The object of that name, if there is one.
#[tactic(auto, unfolding(crate::specs::Members::section_of))]
pub(crate) fn section<'v>(
    alloc: Global,
    object: &'v Value,
    name: &str,
) -> Result<Option<&'v Value>, MetaRefusal>
    ensures { Gives NoMemory (λ found. option_map (λ v. view v.now) found) result
        (section_of name.now (view object.now)) }
{
    match member(object, name) {
        Some(value) if value.is_object() => Ok(Some(value)),
        Some(_) => Err(wrong_kind(alloc, name)),
        None => Ok(None),
    }
}

/// The version that is written.
pub(crate) const VERSION: u64 = 1;

/// A version is the number 1.
#[tactic(auto, unfolding(crate::specs::Members::version_of))]
pub(crate) fn version(value: &Value) -> Result<(), MetaRefusal>
    ensures { Answers (λ v. v) result (version_of (view value.now)) }
{
    match value.as_u64() {
        Some(1) => Ok(()),
        _ => Err(MetaRefusal::BadVersion),
    }
}

#[tactic(auto, unfolding(crate::specs::Members::unsigned_of, crate::specs::Members::of_kind))]
pub(crate) fn as_unsigned(alloc: Global, value: &Value, name: &str) -> Result<u64, MetaRefusal>
    ensures { Gives NoMemory (λ n. n) result (unsigned_of name.now (view value.now)) }
{
    match value.as_u64() {
        Some(number) => Ok(number),
        None => Err(wrong_kind(alloc, name)),
    }
}

#[tactic(auto, unfolding(crate::specs::Members::signed_of, crate::specs::Members::of_kind))]
pub(crate) fn as_signed(alloc: Global, value: &Value, name: &str) -> Result<i64, MetaRefusal>
    ensures { Gives NoMemory (λ n. n) result (signed_of name.now (view value.now)) }
{
    match value.as_i64() {
        Some(number) => Ok(number),
        None => Err(wrong_kind(alloc, name)),
    }
}

/// A number of 64 bits, with or without a sign.
#[tactic(auto, unfolding(crate::specs::Members::whole_of, crate::specs::Members::of_kind))]
pub(crate) fn whole(alloc: Global, value: &Value, name: &str) -> Result<i128, MetaRefusal>
    ensures { Gives NoMemory (λ n. n) result (whole_of name.now (view value.now)) }
{
    let Some(number) = value.as_number() else {
        return Err(wrong_kind(alloc, name));
    };
    match number.as_i128() {
        Some(whole) => Ok(whole),
        None => Err(wrong_kind(alloc, name)),
    }
}

#[tactic(auto, unfolding(crate::specs::Members::text_of, crate::specs::Members::of_kind))]
pub(crate) fn text(alloc: Global, value: &Value, name: &str) -> Result<Text, MetaRefusal>
    ensures { Gives NoMemory (λ t. t) result (text_of name.now (view value.now)) }
{
    match value.as_str() {
        Some(text) => Ok(Text::from_str(alloc, text)?),
        None => Err(wrong_kind(alloc, name)),
    }
}

#[tactic(auto, unfolding(crate::specs::Members::ulid_of, crate::specs::Members::text_of, crate::specs::Members::of_kind))]
pub(crate) fn ulid(alloc: Global, value: &Value, name: &str) -> Result<Ulid, MetaRefusal>
    ensures { Gives NoMemory (λ u. u) result (ulid_of name.now (view value.now)) }
{
    let Some(text) = value.as_str() else {
        return Err(wrong_kind(alloc, name));
    };
    match Ulid::read(text) {
        Ok(ulid) => Ok(ulid),
        Err(_) => Err(bad_ulid(alloc, name)),
    }
}

/// The items of a list.
#[tactic(auto, unfolding(crate::specs::Members::of_kind))]
pub(crate) fn items<'v>(
    alloc: Global,
    value: &'v Value,
    name: &str,
) -> Result<&'v Vec<Value>, MetaRefusal>
    ensures { Gives NoMemory (λ v. items_view v.now.items) result
        (of_kind name.now (as_array (view value.now))) }
{
    match value.as_array() {
        Some(items) => Ok(items),
        None => Err(wrong_kind(alloc, name)),
    }
}

/// A number that counts, 0 where it is absent.
#[tactic(auto, unfolding(crate::specs::Members::count_of))]
pub(crate) fn count(alloc: Global, object: &Value, name: &str) -> Result<u64, MetaRefusal>
    ensures { Gives NoMemory (λ n. n) result (count_of name.now (view object.now)) }
{
    match member(object, name) {
        Some(value) => as_unsigned(alloc, value, name),
        None => Ok(0),
    }
}

pub(crate) fn missing(alloc: Global, name: &str) -> MetaRefusal
    ensures { (result ≡ NoMemory) ⊎ (result ≡ MissingField name.now) }
{
    match Text::from_str(alloc, name) {
        Ok(name) => MetaRefusal::MissingField(name),
        Err(_) => MetaRefusal::NoMemory,
    }
}

pub(crate) fn wrong_kind(alloc: Global, name: &str) -> MetaRefusal
    ensures { (result ≡ NoMemory) ⊎ (result ≡ WrongKind name.now) }
{
    match Text::from_str(alloc, name) {
        Ok(name) => MetaRefusal::WrongKind(name),
        Err(_) => MetaRefusal::NoMemory,
    }
}

fn bad_ulid(alloc: Global, name: &str) -> MetaRefusal
    ensures { (result ≡ NoMemory) ⊎ (result ≡ BadUlid name.now) }
{
    match Text::from_str(alloc, name) {
        Ok(name) => MetaRefusal::BadUlid(name),
        Err(_) => MetaRefusal::NoMemory,
    }
}
