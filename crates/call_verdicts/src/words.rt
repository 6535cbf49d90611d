//! The words of the command line. What a call does is decided by them alone: no setting comes from elsewhere.

ghost use Rattle.std.specs.Prelude.{◌≡◌, Some, None, IfSome, option_map};
ghost use Rattle.call_verdicts.specs.Words.{block_word, bucket_word, named_by, number_word, replay_shelf, replay_word, shelf_word};

use base::read_unsigned;
use ulid_core::Ulid;

/// The words that name the bucket and the shelf of a run.
#[derive(Clone, Copy)]
pub struct Named<'a> {
    pub bucket: &'a str,
    pub shelf: &'a str,
}

/// Reads the words `serial BUCKET SHELF`.
pub fn read_serial(words: &[String]) -> Option<Named<'_>>
    ensures bucket { option_map (λ named. named.bucket.now) result ≡ bucket_word words.now }
    ensures shelf { IfSome result (λ named. named_by named.shelf.now ≡ shelf_word words.now) }
    ensures block { IfSome result (λ named. None ≡ block_word words.now) }
{
    let [call, bucket, shelf] = words else {
        return None;
    };
    if call.as_str() != "serial" {
        return None;
    }
    Some(Named {
        bucket: bucket.as_str(),
        shelf: shelf.as_str(),
    })
}

/// Reads the words `replay BUCKET SHELF`.
pub fn read_replay(words: &[String]) -> Option<Named<'_>>
    ensures bucket { option_map (λ named. named.bucket.now) result ≡ replay_word words.now }
    ensures shelf { IfSome result (λ named. named_by named.shelf.now ≡ replay_shelf words.now) }
    ensures none { result ≡ None → replay_shelf words.now ≡ None }
{
    let [call, bucket, shelf] = words else {
        return None;
    };
    if call.as_str() != "replay" {
        return None;
    }
    Some(Named {
        bucket: bucket.as_str(),
        shelf: shelf.as_str(),
    })
}

/// The word that names a shelf, and the block of it that is to be checked.
#[derive(Clone, Copy)]
pub struct Asked<'a> {
    pub shelf: &'a str,
    pub block: Ulid,
}

/// Reads the words `check SHELF ULID`.
pub fn read_check(words: &[String]) -> Option<Asked<'_>>
    ensures block { option_map (λ asked. asked.block) result ≡ block_word words.now }
    ensures shelf { IfSome result (λ asked. named_by asked.shelf.now ≡ shelf_word words.now) }
    ensures run { IfSome result (λ asked. bucket_word words.now ≡ None) }
    ensures none { result ≡ None → bucket_word words.now ≡ None → shelf_word words.now ≡ None }
{
    let [call, shelf, block] = words else {
        return None;
    };
    if call.as_str() != "check" {
        return None;
    }
    match Ulid::read(block.as_str()) {
        Ok(block) => Some(Asked {
            shelf: shelf.as_str(),
            block,
        }),
        Err(_) => None,
    }
}

/// Reads the words `generate NUMBER`.
pub fn read_generate(words: &[String]) -> Option<u64>
    ensures number { result ≡ number_word words.now }
    ensures bucket { IfSome result (λ _. bucket_word words.now ≡ None) }
    ensures shelf { IfSome result (λ _. shelf_word words.now ≡ None) }
    ensures block { IfSome result (λ _. block_word words.now ≡ None) }
{
    let [call, number] = words else {
        return None;
    };
    if call.as_str() != "generate" {
        return None;
    }
    match read_unsigned(number.as_str()) {
        Ok(number) => Some(number),
        Err(_) => None,
    }
}
