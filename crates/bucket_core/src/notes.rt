//! What a bucket or a shelf was asked, as clauses see it. A note takes no memory, so none is left out.

ghost use Rattle.std.specs.Prelude.{◌≡◌, ◌++◌, [], ◌∷◌};
ghost use Rattle.bucket_core.specs.Asking.{puts, gets, gets_range, deletes, lists};
ghost use Rattle.bucket_core.specs.Spelled.{text_told, text_noted};
ghost use Rattle.bucket_core.specs.Named.{names_told};
ghost use Rattle.bucket_core.specs.Noted.{call_of, calls_told};

use std::snapshot::Snapshot;

/// The last byte of a text, and those before it.
#[derive(Drop)]
struct Spelling {
    last: u8,
    before: Option<Snapshot<Spelling>>,
}

/// A text, for clauses alone.
fn spelling_of(bytes: &[u8]) -> Option<Snapshot<Spelling>>
    ensures { text_told result ≡ bytes.now }
{
    spelled_on(None, bytes)
}

/// A text and what follows it, for clauses alone. The loop over its bytes keeps nothing when the program runs.
fn spelled_on(text: Option<Snapshot<Spelling>>, bytes: &[u8]) -> Option<Snapshot<Spelling>>
    ensures { text_told result ≡ text_told text ++ bytes.now }
{
    let mut before = text;
    for place in 0..bytes.len() {
        let last = bytes[place];
        before = Some(Snapshot::of(&Spelling { last, before }));
    }
    before
}

/// A call, with its arguments.
#[derive(Drop)]
enum Asked {
    Put(Option<Snapshot<Spelling>>, Option<Snapshot<Spelling>>),
    Get(Option<Snapshot<Spelling>>),
    GetRange(Option<Snapshot<Spelling>>, u64, u64),
    Delete(Option<Snapshot<Spelling>>),
    Page(Option<Snapshot<Spelling>>, Option<Snapshot<Spelling>>, u32),
}

/// A text that is spelled piece by piece, for clauses alone.
#[derive(Drop)]
pub(crate) struct TextNotes {
    text: Option<Snapshot<Spelling>>,
}

impl TextNotes {
    /// Nothing is spelled yet.
    pub(crate) fn new() -> TextNotes
        ensures { text_noted result ≡ [] }
    {
        TextNotes { text: None }
    }

    /// Spells these bytes behind the others.
    pub(crate) fn note(&mut self, bytes: &[u8])
        ensures { text_noted self.new ≡ text_noted self.old ++ bytes.now }
    {
        self.text = spelled_on(self.text.take(), bytes);
    }
}

/// The last call, and those before it.
#[derive(Drop)]
struct Calls {
    last: Asked,
    before: Option<Snapshot<Calls>>,
}

/// The calls that a bucket was asked, in order.
#[derive(Drop)]
pub struct CallNotes {
    calls: Option<Snapshot<Calls>>,
}

impl CallNotes {
    /// Nothing was asked yet.
    pub fn new() -> CallNotes
        ensures { calls_told result ≡ [] }
    {
        CallNotes { calls: None }
    }

    fn add(&mut self, last: Asked)
        ensures { calls_told self.new ≡ calls_told self.old ++ call_of last ∷ [] }
    {
        let before = self.calls.take();
        self.calls = Some(Snapshot::of(&Calls { last, before }));
    }

    /// Notes the put of these bytes under this key.
    pub fn note_put(&mut self, key: &str, bytes: &[u8])
        ensures { calls_told self.new ≡ calls_told self.old ++ puts key.now bytes.now ∷ [] }
    {
        let key = spelling_of(key.as_bytes());
        self.add(Asked::Put(key, spelling_of(bytes)));
    }

    /// Notes the get of this key.
    pub fn note_get(&mut self, key: &str)
        ensures { calls_told self.new ≡ calls_told self.old ++ gets key.now ∷ [] }
    {
        self.add(Asked::Get(spelling_of(key.as_bytes())));
    }

    /// Notes the get of so many bytes of this key, from this place on.
    pub fn note_range(&mut self, key: &str, from: u64, len: u64)
        ensures { calls_told self.new ≡ calls_told self.old ++ gets_range key.now from len ∷ [] }
    {
        self.add(Asked::GetRange(spelling_of(key.as_bytes()), from, len));
    }

    /// Notes the deletion of this key.
    pub fn note_delete(&mut self, key: &str)
        ensures { calls_told self.new ≡ calls_told self.old ++ deletes key.now ∷ [] }
    {
        self.add(Asked::Delete(spelling_of(key.as_bytes())));
    }

    /// Notes the page of at most so many names within this name and behind that one.
    pub fn note_page(&mut self, within: &str, after: &str, limit: u32)
        ensures { calls_told self.new
            ≡ calls_told self.old ++ lists within.now after.now limit ∷ [] }
    {
        let within = spelling_of(within.as_bytes());
        self.add(Asked::Page(within, spelling_of(after.as_bytes()), limit));
    }
}

/// The last name, and those before it.
#[derive(Drop)]
struct Names {
    last: Option<Snapshot<Spelling>>,
    before: Option<Snapshot<Names>>,
}

/// The names that a shelf was asked, in order.
#[derive(Drop)]
pub struct NameNotes {
    names: Option<Snapshot<Names>>,
}

impl NameNotes {
    /// Nothing was asked yet.
    pub fn new() -> NameNotes
        ensures { names_told result ≡ [] }
    {
        NameNotes { names: None }
    }

    /// Notes the reading of the file of this name.
    pub fn note(&mut self, name: &str)
        ensures { names_told self.new ≡ names_told self.old ++ name.now ∷ [] }
    {
        let last = spelling_of(name.as_bytes());
        let before = self.names.take();
        self.names = Some(Snapshot::of(&Names { last, before }));
    }
}
