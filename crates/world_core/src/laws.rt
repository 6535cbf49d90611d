ghost use Rattle.std.specs.Prelude.{◌≡◌, ℕ, IsTrue, List, ◌∷◌, ◌++◌, Some, None};
ghost use Rattle.block_keys.specs.KeyText.{key_text};
ghost use Rattle.block_keys.specs.declared.key.Key.{Key};
ghost use Rattle.world_core.specs.Journals.{IsNumbered};
ghost use Rattle.world_core.specs.Moments.{HasMoments};
ghost use Rattle.world_core.specs.Standing.{has_landed, stands, IsHonest, IsUnchanged};
ghost use Rattle.world_core.specs.Worlds.{IsOfBytes};
ghost use Rattle.world_core.specs.declared.op.Op.TheVariants.{Put, Delete};
ghost use Rattle.world_core.specs.declared.entry.Entry.{Entry};

/// A law: under a key stand the bytes of its last landed put, and nothing where a landed delete of the key came later.
pub fn last_landed_stands()
    ensures put { (before after : List Entry) (e : Entry) (key : Key) (bytes : List ℕ) →
        e.op ≡ Put key bytes → IsTrue (has_landed e.reply) → IsUnchanged (key_text key) after →
        stands (before ++ e ∷ after) (key_text key) ≡ Some bytes }
    ensures deleted { (before after : List Entry) (e : Entry) (key : Key) →
        e.op ≡ Delete key → IsTrue (has_landed e.reply) → IsUnchanged (key_text key) after →
        stands (before ++ e ∷ after) (key_text key) ≡ None }
    ensures never_put { (entries : List Entry) (text : List ℕ) → IsUnchanged text entries
        → stands entries text ≡ None }
{}

/// A law: each front of a journal is one, with its numbers and its moments, and each front of an honest journal is honest.
pub fn fronts_are_journals()
    ensures numbers { (front others : List Entry) → IsNumbered (front ++ others)
        → IsNumbered front }
    ensures moments { (tick : ℕ) (front others : List Entry) → HasMoments tick (front ++ others)
        → HasMoments tick front }
    ensures bytes { (front others : List Entry) → IsOfBytes (front ++ others)
        → IsOfBytes front }
    ensures honest { (front others : List Entry) → IsHonest (front ++ others) → IsHonest front }
{}
