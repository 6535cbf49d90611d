//! Label sets as text: `{name="value",other="value"}`. While a text is read, the place of a `BadText` counts the bytes
//! that are left; `read_labels` makes it the place from the front.
ghost use Rattle.std.specs.Prelude.{◌≡◌, ◌⊎◌, ◌+◌, ◌<◌, ◌≤◌, [], ◌∷◌, ◌++◌, length, take, false, true, IsErr, IfOk, IfErr, IfSome, IfNone, OnOk, OnErr};
ghost use Rattle.std.specs.Str.{IsUtf8, bytes_eq};
ghost use Rattle.std.specs.List.{prefix_len, list_any};
ghost use Rattle.base.specs.Reading.{Gives, Answers};
ghost use Rattle.label_sets.specs.declared.label.Label.{Label};
ghost use Rattle.std.specs.List.Sorted.{IsSortedBy};
ghost use Rattle.label_sets.specs.Labels.{names_of, has_lesser_name};
ghost use Rattle.label_sets.specs.Notation.{read_set, conclusion, repeats, is_name_byte, name_length, rest_past, with_byte, value_at, pair_at, pairs_at, end_at, walk_at, placed_at, quoted_byte, quoted, pair_text, comma_pair_text, pairs_text, set_text};

use crate::label_set::sort_by_name;
use crate::name::{is_name_byte, is_name_start};
use crate::{Label, LabelRefusal, Text};
use base::{NoMemory, cut_on_err};
use std::alloc::Global;

/// A refusal, and what is left of the text from the refused pair on.
#[derive(Clone, Copy)]
struct Stop<'a> {
    refusal: LabelRefusal,
    pair: &'a [u8],
}

/// The labels that were read, in the order of the text, and what follows the set, or why reading stopped.
#[derive(Drop)]
struct Walk<'a> {
    labels: Vec<Label>,
    end: Result<&'a [u8], Stop<'a>>,
}

/// Reads the labels of the set at the front of a text, in ascending order, and how many bytes the set took.
#[tactic(auto, unfolding(crate::specs::Notation::read_set))]
pub(crate) fn read_labels(alloc: Global, text: &[u8]) -> Result<(Vec<Label>, usize), LabelRefusal>
    requires { IsUtf8 text.now }
    ensures { Gives LabelRefusal.NoMemory (λ read. (read.0.items, read.1)) result
        (read_set text.now) }
{
    let Walk { labels, end } = read_braces(alloc, text);
    match end {
        Ok(after) => whole_set(labels, after, text.len()),
        Err(stop) => Err(first_refusal(labels, stop, text.len())?),
    }
}

/// The labels in order, where no name stands twice.
#[tactic(auto, unfolding(crate::specs::Notation::conclusion), using(crate::proofs::RepeatedNames::repeats_sorted))]
fn whole_set(
    labels: Vec<Label>,
    after: &[u8],
    total: usize,
) -> Result<(Vec<Label>, usize), LabelRefusal>
    ensures { Gives LabelRefusal.NoMemory (λ read. (read.0.items, read.1)) result
        (conclusion total labels.items (Ok after.now)) }
{
    let mut labels = labels;
    sort_by_name(&mut labels)?;
    if has_repeated_name(labels.as_slice()) {
        return Err(LabelRefusal::Repeated);
    }
    Ok((labels, total.saturating_sub(after.len())))
}

/// The first refusal, where reading stopped: a name that stands twice was refused before.
fn first_refusal(labels: Vec<Label>, stop: Stop<'_>, total: usize) -> Result<LabelRefusal, NoMemory>
    ensures memory { stop.entry.refusal ≡ LabelRefusal.NoMemory → IsErr result }
    ensures first { IfOk result (λ refusal.
        conclusion total labels.items (Err (stop.entry.refusal, stop.entry.pair.now))
        ≡ Err refusal) }
{
    if stop.refusal == LabelRefusal::NoMemory {
        return Err(NoMemory);
    }
    let mut labels = labels;
    sort_by_name(&mut labels)?;
    let (name, _) = stop.pair.split_at(name_length(stop.pair));
    if repeats_with(labels.as_slice(), name) {
        return Ok(LabelRefusal::Repeated);
    }
    Ok(placed_at(stop.refusal, total))
}

/// Tells whether a name stands twice, with one more name.
fn repeats_with(labels: &[Label], name: &[u8]) -> bool
    requires { IsSortedBy has_lesser_name labels.now }
    ensures { result ≡ repeats (name.now ∷ names_of labels.now) }
{
    has_name(labels, name) || has_repeated_name(labels)
}

/// The refusal with its place from the front of the text.
#[tactic(auto, unfolding(crate::specs::Notation::placed_at))]
fn placed_at(refusal: LabelRefusal, total: usize) -> LabelRefusal
    ensures { result ≡ placed_at total refusal }
{
    match refusal {
        LabelRefusal::BadText(left) => LabelRefusal::BadText(total.saturating_sub(left)),
        other => other,
    }
}

/// Reads the labels of a set.
#[tactic(auto, unfolding(crate::specs::Notation::walk_at, crate::specs::Notation::at_brace, crate::specs::Notation::after_brace, crate::specs::Notation::stopped_at))]
fn read_braces(alloc: Global, text: &[u8]) -> Walk<'_>
    requires { IsUtf8 text.now }
    ensures read { IfOk result.end (λ after.
        walk_at text.now ≡ (result.labels.items, Ok after.now)) }
    ensures refused { IfErr result.end (λ stop. (stop.refusal ≡ LabelRefusal.NoMemory)
        ⊎ (walk_at text.now ≡ (result.labels.items, Err (stop.refusal, stop.pair.now)))) }
{
    let Ok(inside) = rest_past(b'{', text) else {
        return Walk {
            labels: Vec::new(alloc),
            end: Err(stop_at(text)),
        };
    };
    match rest_past(b'}', inside) {
        Ok(after) => Walk {
            labels: Vec::new(alloc),
            end: Ok(after),
        },
        Err(_) => read_pairs(alloc, inside),
    }
}

/// Reads the labels of the pairs up to the closing brace.
fn read_pairs(alloc: Global, text: &[u8]) -> Walk<'_>
    requires { IsUtf8 text.now }
    ensures read { IfOk result.end (λ after.
        pairs_at (length text.now + 1) text.now ≡ (result.labels.items, Ok after.now)) }
    ensures refused { IfErr result.end (λ stop. (stop.refusal ≡ LabelRefusal.NoMemory)
        ⊎ (pairs_at (length text.now + 1) text.now
        ≡ (result.labels.items, Err (stop.refusal, stop.pair.now)))) }
{
    let mut labels = Vec::new(alloc);
    let mut pair = text;
    loop {
        let rest = match add_pair(alloc, pair, &mut labels) {
            Ok(rest) => rest,
            Err(refusal) => {
                return Walk {
                    labels,
                    end: Err(Stop { refusal, pair }),
                };
            }
        };
        match rest_past(b',', rest) {
            Ok(next) => pair = next,
            Err(_) => {
                return Walk {
                    labels,
                    end: end_at(rest),
                };
            }
        }
    }
}

/// What follows the closing brace.
#[tactic(auto, unfolding(crate::specs::Notation::end_at, crate::specs::Notation::at_end, crate::specs::Notation::stopped_at))]
fn end_at(text: &[u8]) -> Result<&[u8], Stop<'_>>
    ensures read { IfOk result (λ after. end_at text.now ≡ ([], Ok after.now)) }
    ensures refused { IfErr result (λ stop.
        end_at text.now ≡ ([], Err (stop.refusal, stop.pair.now))) }
{
    match rest_past(b'}', text) {
        Ok(after) => Ok(after),
        Err(_) => Err(stop_at(text)),
    }
}

/// Adds the label of one pair, and gives what follows the pair.
fn add_pair<'a>(
    alloc: Global,
    text: &'a [u8],
    labels: &mut Vec<Label>,
) -> Result<&'a [u8], LabelRefusal>
    requires { IsUtf8 text.now }
    ensures added { IfOk result (λ rest. (label : Label) × (pair_at text.now ≡ Ok (label, rest.now))
        × (labels.new.items ≡ labels.old.items ++ label ∷ [])) }
    ensures refused { IfErr result (λ e. (e ≡ LabelRefusal.NoMemory) ⊎ (pair_at text.now ≡ Err e)) }
    ensures unchanged { OnErr result (labels.new.items ≡ labels.old.items) }
    ensures shorter { IfOk result (λ rest. length rest.now < length text.now) }
    ensures utf8 { IfOk result (λ rest. IsUtf8 rest.now) }
{
    let (label, rest) = read_pair(alloc, text)?;
    labels.push(label)?;
    Ok(rest)
}

/// Nothing goes on here, and no name stands here.
fn stop_at(rest: &[u8]) -> Stop<'_>
    ensures refusal { result.refusal ≡ LabelRefusal.BadText (length rest.now) }
    ensures pair { result.pair.now ≡ [] }
{
    Stop {
        refusal: LabelRefusal::BadText(rest.len()),
        pair: &[],
    }
}

/// Reads one pair `name="value"`, and gives what follows the pair.
#[tactic(auto, unfolding(crate::specs::Notation::pair_at, crate::specs::Notation::name_at))]
fn read_pair(alloc: Global, text: &[u8]) -> Result<(Label, &[u8]), LabelRefusal>
    requires { IsUtf8 text.now }
    ensures gives { Gives LabelRefusal.NoMemory (λ read. (read.0, read.1.now)) result
        (pair_at text.now) }
    ensures shorter { IfOk result (λ read. length read.1.now < length text.now) }
    ensures utf8 { IfOk result (λ read. IsUtf8 read.1.now) }
{
    let (name, rest) = text.split_at(name_length(text));
    let after = rest_past(b'=', rest)?;
    if name.is_empty() {
        return Err(LabelRefusal::EmptyName);
    }
    let inside = rest_past(b'"', after)?;
    let (value, rest) = read_value(alloc, inside)?;
    if value.is_empty() {
        return Err(LabelRefusal::EmptyValue);
    }
    let label = Label {
        name: name_text(alloc, name)?,
        value: value_text(value),
    };
    Ok((label, rest))
}

/// What follows this byte at the front of a text.
#[tactic(auto, unfolding(crate::specs::Notation::rest_past))]
fn rest_past(byte: u8, text: &[u8]) -> Result<&[u8], LabelRefusal>
    ensures answers { Answers (λ rest. rest.now) result (rest_past byte text.now) }
{
    match text {
        [first, rest @ ..] if *first == byte => Ok(rest),
        _ => Err(LabelRefusal::BadText(text.len())),
    }
}

/// Reads the value in front of a closing quote, and gives what follows the quote.
fn read_value(alloc: Global, text: &[u8]) -> Result<(Vec<u8>, &[u8]), LabelRefusal>
    ensures { Gives LabelRefusal.NoMemory (λ read. (read.0.items, read.1.now)) result
        (value_at false text.now) }
{
    let mut value = Vec::new(alloc);
    let mut rest = text;
    loop {
        let (next, after) = value_byte(rest)?;
        match next {
            None => return Ok((value, after)),
            Some(byte) => value.push(byte)?,
        }
        rest = after;
    }
}

/// The next byte of the value, or none at the closing quote, and what follows.
#[tactic(auto, unfolding(crate::specs::Notation::value_at))]
fn value_byte(text: &[u8]) -> Result<(Option<u8>, &[u8]), LabelRefusal>
    ensures ended { IfOk result (λ read.
        IfNone read.0 (value_at false text.now ≡ Ok ([], read.1.now))) }
    ensures more { IfOk result (λ read. IfSome read.0 (λ byte.
        value_at false text.now ≡ with_byte byte (value_at false read.1.now))) }
    ensures shorter { IfOk result (λ read. length read.1.now < length text.now) }
    ensures refused { IfErr result (λ e. value_at false text.now ≡ Err e) }
{
    let [first, after @ ..] = text else {
        return Err(LabelRefusal::BadText(0));
    };
    match *first {
        b'"' => Ok((None, after)),
        b'\n' => Err(LabelRefusal::BadText(text.len())),
        b'\\' => {
            let (byte, after) = unescaped_byte(after)?;
            Ok((Some(byte), after))
        }
        byte => Ok((Some(byte), after)),
    }
}

/// The byte for which a backslash and what follows it stand.
#[tactic(auto, unfolding(crate::specs::Notation::value_at))]
fn unescaped_byte(text: &[u8]) -> Result<(u8, &[u8]), LabelRefusal>
    ensures read { IfOk result (λ read.
        (value_at true text.now ≡ with_byte read.0 (value_at false read.1.now))
        × (length read.1.now < length text.now)) }
    ensures refused { IfErr result (λ e. value_at true text.now ≡ Err e) }
{
    let [first, after @ ..] = text else {
        return Err(LabelRefusal::BadText(0));
    };
    match *first {
        b'n' => Ok((b'\n', after)),
        byte @ (b'\\' | b'"') => Ok((byte, after)),
        _ => Err(LabelRefusal::BadText(text.len())),
    }
}

/// How long the longest name at the front of a text is.
#[tactic(auto, unfolding(crate::specs::Notation::name_length))]
fn name_length(text: &[u8]) -> usize
    ensures value { result ≡ name_length text.now }
    ensures within { result ≤ length text.now }
{
    match text {
        [first, ..] if is_name_start(*first) => name_bytes(text),
        _ => 0,
    }
}

fn name_bytes(text: &[u8]) -> usize
    ensures value { result ≡ prefix_len is_name_byte text.now }
    ensures within { result ≤ length text.now }
{
    text.iter().take_while(|byte| is_name_byte(**byte)).count()
}

/// Names are ASCII, so they are texts.
fn name_text(alloc: Global, name: &[u8]) -> Result<Text, NoMemory>
    requires { IsUtf8 name.now }
    ensures { IfOk result (λ text. text ≡ name.now) }
{
    match std::str::from_utf8(name) {
        Ok(name) => Text::from_str(alloc, name),
        Err(_) => unreachable!(),
    }
}

fn value_text(value: Vec<u8>) -> Text
    requires { IsUtf8 value.items }
    ensures { result ≡ value.items }
{
    match String::from_utf8(value) {
        Ok(value) => Text::from_string(value),
        Err(_) => unreachable!(),
    }
}

fn has_name(labels: &[Label], name: &[u8]) -> bool
    ensures { result ≡ list_any (λ l. bytes_eq l.name name.now) labels.now }
{
    labels
        .iter()
        .any(|label| label.name.as_str().as_bytes() == name)
}

/// Tells whether two neighbours have one name.
fn has_repeated_name(labels: &[Label]) -> bool
    requires { IsSortedBy has_lesser_name labels.now }
    ensures { result ≡ repeats (names_of labels.now) }
{
    for i in 1..labels.len() {
        if labels[i - 1].name == labels[i].name {
            return true;
        }
    }
    false
}

/// Appends the notation of a set.
pub(crate) fn put_labels(out: &mut Vec<u8>, labels: &[Label]) -> Result<(), NoMemory>
    ensures ok { OnOk result (out.new.items ≡ out.old.items ++ set_text labels.now) }
    ensures err { OnErr result (out.new.items ≡ out.old.items) }
{
    let start = out.len();
    let put = put_braces(out, labels);
    cut_on_err(out, start, put)
}

/// Appends the same, or a part of it where memory runs out.
#[tactic(auto, unfolding(crate::specs::Notation::set_text))]
fn put_braces(out: &mut Vec<u8>, labels: &[Label]) -> Result<(), NoMemory>
    ensures ok { OnOk result (out.new.items ≡ out.old.items ++ set_text labels.now) }
    ensures kept { take (length out.old.items) out.new.items ≡ out.old.items }
{
    out.push(b'{')?;
    put_pairs(out, labels)?;
    out.push(b'}')?;
    Ok(())
}

#[tactic(auto, unfolding(crate::specs::Notation::pairs_text))]
fn put_pairs(out: &mut Vec<u8>, labels: &[Label]) -> Result<(), NoMemory>
    ensures ok { OnOk result (out.new.items ≡ out.old.items ++ pairs_text labels.now) }
    ensures kept { take (length out.old.items) out.new.items ≡ out.old.items }
{
    let [first, others @ ..] = labels else {
        return Ok(());
    };
    put_pair(out, first)?;
    for label in others {
        put_comma_pair(out, label)?;
    }
    Ok(())
}

#[tactic(auto, unfolding(crate::specs::Notation::comma_pair_text))]
fn put_comma_pair(out: &mut Vec<u8>, label: &Label) -> Result<(), NoMemory>
    ensures ok { OnOk result (out.new.items ≡ out.old.items ++ comma_pair_text label.now) }
    ensures kept { take (length out.old.items) out.new.items ≡ out.old.items }
{
    out.push(b',')?;
    put_pair(out, label)
}

#[tactic(auto, unfolding(crate::specs::Notation::pair_text))]
fn put_pair(out: &mut Vec<u8>, label: &Label) -> Result<(), NoMemory>
    ensures ok { OnOk result (out.new.items ≡ out.old.items ++ pair_text label.now) }
    ensures kept { take (length out.old.items) out.new.items ≡ out.old.items }
{
    out.extend_from_slice(label.name.as_str().as_bytes())?;
    out.extend_from_slice(b"=\"")?;
    put_quoted(out, label.value.as_str().as_bytes())?;
    out.push(b'"')?;
    Ok(())
}

#[tactic(auto, unfolding(crate::specs::Notation::quoted))]
fn put_quoted(out: &mut Vec<u8>, value: &[u8]) -> Result<(), NoMemory>
    ensures ok { OnOk result (out.new.items ≡ out.old.items ++ quoted value.now) }
    ensures kept { take (length out.old.items) out.new.items ≡ out.old.items }
{
    for byte in value {
        put_quoted_byte(out, *byte)?;
    }
    Ok(())
}

#[tactic(auto, unfolding(crate::specs::Notation::quoted_byte))]
fn put_quoted_byte(out: &mut Vec<u8>, byte: u8) -> Result<(), NoMemory>
    ensures ok { OnOk result (out.new.items ≡ out.old.items ++ quoted_byte byte) }
    ensures err { OnErr result (out.new.items ≡ out.old.items) }
{
    match byte {
        b'\\' => out.extend_from_slice(b"\\\\")?,
        b'"' => out.extend_from_slice(b"\\\"")?,
        b'\n' => out.extend_from_slice(b"\\n")?,
        _ => out.push(byte)?,
    }
    Ok(())
}
