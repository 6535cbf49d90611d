//! The object store that all activities work on. What a contract can say of it is what the bucket itself tells: one in
//! memory tells what stands, one in a folder nothing of what it holds.

ghost use Rattle.std.specs.Prelude.{◌≡◌, ◌≤◌, [], ◌∷◌, IfSome, option_map};
ghost use Rattle.bucket_core.specs.Asking.{puts, gets, gets_range, deletes, lists, Asks, AsksOnce};
ghost use Rattle.bucket_core.specs.Causes.{KeepsFaults, put_failed, get_failed, delete_failed, page_failed};
ghost use Rattle.bucket_core.specs.Contents.{IsKey, after_put, after_delete, range_of, Shows};
ghost use Rattle.bucket_core.specs.Pages.{ShowsPage};

use crate::{DeleteAnswer, GetAnswer, PageAnswer, PutAnswer};
use wire_bytes::Blob;

/// Objects under keys. A key is a text that is not empty and does not begin with `/`.
pub trait Bucket {
    ghost use Rattle.std.specs.Prelude.{◌≡◌, List, ℕ, Some, IsSome};
    ghost use Rattle.bucket_core.specs.Contents.{Contents, IsKey};
    ghost use Rattle.bucket_core.specs.Told.{BucketTold};

    /// What is told of it: what stands, the calls that were asked, how often it has failed, and whether no call fails from
    /// here on.
    ghost told: { Self → BucketTold };

    /// Puts an object in the place of what stands under the key.
    fn put(&mut self, key: &str, bytes: &Blob) -> PutAnswer
        requires { IsKey key.now }
        ensures left { (told self.new).contents
            ≡ option_map (after_put key.now bytes.now result) (told self.old).contents }
        ensures asks { AsksOnce (told self.old).asked (told self.new).asked
            (puts key.now bytes.now) result PutAnswer.NoMemory }
        ensures kept { KeepsFaults (told self.old) (told self.new) (put_failed result) };

    /// The whole object under the key.
    fn get(&mut self, key: &str) -> GetAnswer
        ensures shown { IfSome (told self.old).contents (λ c. Shows (c key.now) result) }
        ensures left { (told self.new).contents ≡ (told self.old).contents }
        ensures asks { AsksOnce (told self.old).asked (told self.new).asked
            (gets key.now) result GetAnswer.NoMemory }
        ensures kept { KeepsFaults (told self.old) (told self.new) (get_failed result) };

    /// The object's bytes from a place on, at most `len` of them, and none where the place is past the end.
    fn get_range(&mut self, key: &str, from: u64, len: u64) -> GetAnswer
        ensures shown { IfSome (told self.old).contents
            (λ c. Shows (option_map (range_of from len) (c key.now)) result) }
        ensures left { (told self.new).contents ≡ (told self.old).contents }
        ensures asks { AsksOnce (told self.old).asked (told self.new).asked
            (gets_range key.now from len) result GetAnswer.NoMemory }
        ensures kept { KeepsFaults (told self.old) (told self.new) (get_failed result) };

    /// Takes away what stands under the key.
    fn delete(&mut self, key: &str) -> DeleteAnswer
        ensures left { (told self.new).contents
            ≡ option_map (after_delete key.now result) (told self.old).contents }
        ensures asks { Asks (told self.old).asked (told self.new).asked (deletes key.now ∷ []) }
        ensures kept { KeepsFaults (told self.old) (told self.new) (delete_failed result) };

    /// The least names greater than `after`, at most `limit` of them. Without `within` a name is a key's part before
    /// its first slash; else it is the text after `within` and a slash.
    fn page(&mut self, within: &str, after: &str, limit: u32) -> PageAnswer
        requires { 1 ≤ limit }
        ensures shown { IfSome (told self.old).contents
            (λ c. ShowsPage c within.now after.now limit result) }
        ensures left { (told self.new).contents ≡ (told self.old).contents }
        ensures asks { AsksOnce (told self.old).asked (told self.new).asked
            (lists within.now after.now limit) result PageAnswer.NoMemory }
        ensures kept { KeepsFaults (told self.old) (told self.new) (page_failed result) };

    /// Objects stand under keys alone.
    ghost only_keys: { (bucket : Self) (c : Contents) (key : List ℕ)
        → (told bucket).contents ≡ Some c → IsSome (c key) → IsKey key };
}
