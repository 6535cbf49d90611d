//! The machine of an upload. It looks at the meta first, since a block whose meta stands is complete. One that was
//! interrupted is done again from its first object: that does no harm, as a key of a block always has the same bytes.

ghost use Rattle.std.specs.Prelude.{◌≡◌, ℕ, ◌<◌, ◌≤◌, List, [], ◌∷◌, length, drop, Option, Some, IfOk, IsTrue, IsSomeAnd};
ghost use Rattle.world_core.specs.Machines.{GoesOn, Falls};
ghost use Rattle.world_core.specs.Operations.{IsAnswer, entry_of};
ghost use Rattle.world_core.specs.declared.op.Op.{Op};
ghost use Rattle.world_core.specs.declared.entry.Entry.{Entry};
ghost use Rattle.world_core.specs.Plans.{Runs};
ghost use Rattle.block_keys.specs.Blocks.{IsBlock};
ghost use Rattle.shipper.specs.Limits.{most_objects, have_lawful_keys, begun};
ghost use Rattle.shipper.specs.Uploads.{upload};
ghost use Rattle.shipper.specs.declared.upload.UploadEnd.{UploadEnd};

use base::NoMemory;
use block_keys::{Key, Object, ObjectList};
use std::collections::VecDeque;
use std::snapshot::Snapshot;
use ulid_core::Ulid;
use world_core::{Act, Machine, Op, Reply, Seen};

/// How an upload ended.
#[derive(Clone, Copy, Debug, PartialEq, Eq)]
pub enum UploadEnd {
    /// So many objects were put.
    Done(u32),
    /// The block's meta stands already.
    Already,
    /// The entry of this number failed.
    Fault(u64),
}

/// How far an upload has come.
#[derive(Clone, Copy, Debug, PartialEq, Eq)]
pub(crate) enum Stage {
    /// The look at the meta is next, or is waited for.
    Looking,
    /// It waits for the put of the next object.
    Putting,
}

/// The upload of one block.
#[derive(Drop)]
pub struct Upload {
    ulid: Ulid,
    /// The objects as they were handed over. It has no bytes.
    objects: Snapshot<Vec<Object>>,
    /// The objects whose puts are still to be asked for. An object leaves with its put.
    waiting: VecDeque<Object>,
    /// The place of the object whose put is waited for.
    place: usize,
    stage: Stage,
    ghost keys: { IsTrue (have_lawful_keys objects.value.items) },
    ghost few: { length objects.value.items ≤ most_objects },
    ghost within: { place < length objects.value.items },
    ghost rest: { waiting.items ≡ drop (begun stage place) objects.value.items },
}

/// Takes the first of the objects that wait.
fn take_first(waiting: &mut VecDeque<Object>) -> Object
    requires { 0 < length waiting.old.items }
    ensures { waiting.old.items ≡ result ∷ waiting.new.items }
{
    match waiting.pop_front() {
        Some(object) => object,
        None => unreachable!(),
    }
}

impl Upload {
    ghost use Rattle.world_core.specs.Leads.{does};
    ghost use Rattle.shipper.specs.UploadStates.{PutsNext, left_of, asked_upload, count_of};

    /// An upload of a block's objects, segments first, then the index, then the meta. It takes no memory today.
    pub fn start(objects: ObjectList) -> Result<Upload, NoMemory>
        requires { (ulid : ℕ) × IsBlock ulid objects }
        ensures begun { IfOk result ⟦<Upload as Machine>⟧.fresh }
        ensures run { (ulid : ℕ) → IsBlock ulid objects
            → IfOk result (λ started.
            (entries : List Entry) (end : Option UploadEnd) (last : Upload)
            → ⟦<Upload as Machine>⟧.may started entries end last
            → Runs (upload ulid objects) entries end) }
    {
        let objects = objects.into_vec();
        let ulid = objects[0].key.ulid();
        let all = Snapshot::of(&objects);
        let waiting = VecDeque::from_vec(objects);
        Ok(Upload {
            ulid,
            objects: all,
            waiting,
            place: 0,
            stage: Stage::Looking,
        })
    }

    /// Asks for the put of the object at a place, the first of those that wait, and lets go of it.
    fn put_at(&mut self, place: usize) -> Act<UploadEnd>
        requires next { begun self.old.stage self.old.place ≡ place }
        requires some { place < length self.old.objects.value.items }
        ensures puts { PutsNext self.old.objects.value.items place result }
        ensures waits { self.new.stage ≡ Stage.Putting }
        ensures objects { self.new.objects.value.items ≡ self.old.objects.value.items }
        ensures place { self.new.place ≡ place }
    {
        let object = take_first(&mut self.waiting);
        self.place = place;
        self.stage = Stage::Putting;
        Act::Do(Op::Put(object.key, object.bytes))
    }

    /// Goes on after the look at the meta.
    fn after_look(&mut self, seen: Seen) -> Result<Act<UploadEnd>, NoMemory>
        requires stage { self.old.stage ≡ Stage.Looking }
        requires answer { IsSomeAnd (asked_upload self.old) (λ op. IsAnswer op seen) }
        ensures goes_on { (seat : ℕ) (op : Op) → asked_upload self.old ≡ Some op
            → GoesOn (does left_of) asked_upload self.old (entry_of seat op seen ∷ []) result
            self.new }
        ensures falls { Falls (count_of self.old) result (count_of self.new) }
    {
        match seen.reply {
            Reply::Found(_) => Ok(Act::Done(UploadEnd::Already)),
            Reply::Failed(_) => Ok(Act::Done(UploadEnd::Fault(seen.seq))),
            _ => Ok(self.put_at(0)),
        }
    }

    /// Goes on after a put.
    fn after_put(&mut self, seen: Seen) -> Result<Act<UploadEnd>, NoMemory>
        requires stage { self.old.stage ≡ Stage.Putting }
        requires answer { IsSomeAnd (asked_upload self.old) (λ op. IsAnswer op seen) }
        ensures goes_on { (seat : ℕ) (op : Op) → asked_upload self.old ≡ Some op
            → GoesOn (does left_of) asked_upload self.old (entry_of seat op seen ∷ []) result
            self.new }
        ensures falls { Falls (count_of self.old) result (count_of self.new) }
    {
        if let Reply::Failed(_) = seen.reply {
            return Ok(Act::Done(UploadEnd::Fault(seen.seq)));
        }
        let next = self.place + 1;
        if self.waiting.is_empty() {
            return Ok(Act::Done(UploadEnd::Done(next as u32)));
        }
        Ok(self.put_at(next))
    }
}

impl Machine for Upload {
    type End = UploadEnd;

    ghost use Rattle.world_core.specs.Leads.{does};
    ghost use Rattle.shipper.specs.UploadStates.{left_of, asked_upload, count_of};
    ghost use Rattle.shipper.specs.declared.upload.Stage.TheVariants.{Looking};

    ghost may = { does left_of };

    ghost asked = { asked_upload };

    ghost measure = { count_of };

    ghost fresh = { λ upload. upload.stage ≡ Looking };

    fn first(&mut self) -> Result<Act<UploadEnd>, NoMemory> {
        Ok(Act::Do(Op::Get(Key::Meta(self.ulid))))
    }

    fn step(&mut self, seen: Seen) -> Result<Act<UploadEnd>, NoMemory> {
        match self.stage {
            Stage::Looking => self.after_look(seen),
            Stage::Putting => self.after_put(seen),
        }
    }
}
