//! The world of a run.

ghost use Rattle.std.specs.Prelude.{◌≡◌, ◌<◌, ◌≤◌, ◌+◌, ◌^◌, ◌⊎◌, [], ◌∷◌, Some, None, IfOk, IfErr, OnOk, OnErr, IfSome, IsSome, IsTrue, length, replicate, option_map, slice_get};
ghost use Rattle.cc_meaning.specs.declared.value.Object.TheVariants as object;
ghost use Rattle.cc_meaning_world.specs.Changes.{less_by, with_instructions, with_words, with_status, with_object, with_object_at, put_in, more_units, with_static, number_for, with_literal, with_constant, with_event};
ghost use Rattle.cc_meaning_world.specs.Opening.{out_object, opening_world};
ghost use Rattle.cc_world.specs.Noted.{Rises, InRange};
ghost use Rattle.cc_world.specs.Shapes.{shape_of, values_in, units_in, is_builder};
ghost use Rattle.cc_world.specs.Held.{with_noted_literal, with_noted_constant, with_cursor, IsWritten, SameWorld, TakesObject, TakesEvent, LacksRoom, HasRoom, Spends, AsPaid};

use crate::heap::Heap;
use crate::opening::{OUT_OBJECT, statics};
use crate::shape::Shape;
use cc_list::List;
use cc_meaning::fault::Memory;
use cc_meaning::lists::{ClassIx, Cursors, FieldIx, ObjId, TextIx, Units};
use cc_meaning::program::Program;
use cc_meaning::report::{Event, Limits};
use cc_meaning::value::{Object, Value, Values};
use std::alloc::Global;
use std::marker::Model;

/// The world of a run. Contracts see it as the world of the definitions, the number of its program's texts, and the room that is spare.
#[derive(Drop)]
pub struct World {
    heap: Heap,
    statics: Values,
    /// A place for each text of the program, and one for each class.
    literals: List<Option<ObjId>>,
    constants: List<Option<ObjId>>,
    statuses: List<u8>,
    cursors: Cursors,
    events: Vec<Event>,
    instructions: u64,
    words: u32,
}

impl Model for World {
    ghost use Rattle.std.specs.Prelude.{◌≡◌, ◌-◌, ◌<◌, ◌^◌, length};
    ghost use Rattle.cc_world.specs.Noted.{made_in, NamesBelow};
    ghost use Rattle.cc_world.specs.Held.{Held};

    ghost Value = { Held };

    ghost view = { λ w. record {
      world = record {
        objects = w.heap.objects;
        statics = w.statics;
        literals = made_in w.literals;
        constants = made_in w.constants;
        counters = record { instructions = w.instructions; words = w.words; statuses = w.statuses };
        cursors = w.cursors;
        events = w.events.items;
      };
      texts = length w.literals;
      spare = record { objects = w.heap.spare_objects; slots = w.heap.spare_slots; events = w.events.cap - length w.events.items };
    } };

    ghost invariant = { λ w. (length w.events.items < 2 ^ 32) × ((length w.constants ≡ length w.statuses) ×
        (NamesBelow (length w.heap.objects) w.literals × NamesBelow (length w.heap.objects) w.constants)) };
}

/// So many places, in which nothing is noted.
fn places(alloc: Global, count: usize) -> Result<List<Option<ObjId>>, Memory>
    ensures { IfOk result (λ row. row ≡ replicate count None) }
{
    Ok(List::from_vec(vec![in alloc; None; count]?))
}

impl World {
    /// The world before anything was done, in which `System.out` is the one object. It has room for every literal and class constant of the program.
    #[tactic(auto, using(crate::proofs::Rows::empty_row, crate::proofs::Rows::no_names), unfolding(cc_meaning_world::specs::Opening::opening_world))]
    pub fn new(alloc: Global, program: &Program, limits: Limits) -> Result<World, Memory>
        ensures world { IfOk result (λ held. held.world ≡ opening_world program.now limits) }
        ensures texts { IfOk result (λ held. held.texts ≡ length program.now.texts) }
    {
        let classes = program.classes.len();
        Ok(World {
            heap: Heap::new(alloc)?,
            statics: statics(alloc, program)?,
            literals: places(alloc, program.texts.len())?,
            constants: places(alloc, classes)?,
            statuses: List::from_vec(vec![in alloc; 0; classes]?),
            cursors: List::from_vec(vec![in alloc; 0; classes]?),
            events: Vec::new(alloc),
            instructions: limits.instructions,
            words: limits.words,
        })
    }
}

/// What is left, and how it is spent. These calls take no memory.
impl World {
    /// Takes one from the instructions left, or none where none is left: then the answer is false.
    #[tactic(auto, unfolding(cc_meaning_world::specs::Changes::with_instructions))]
    pub fn spend_instruction(&mut self) -> bool
        ensures spends { Spends 1 self.old.world.counters.instructions result self.new.world.counters.instructions }
        ensures rest { self.new ≡ record self.old { world = with_instructions self.old.world self.new.world.counters.instructions } }
    {
        if self.instructions == 0 {
            return false;
        }
        self.instructions -= 1;
        true
    }

    /// Takes `n` from the words left, or none where too few are left: then the answer is false.
    #[tactic(auto, using(crate::proofs::Spending::enough, crate::proofs::Spending::too_few), unfolding(cc_meaning_world::specs::Changes::with_words))]
    pub fn spend_words(&mut self, n: u32) -> bool
        ensures spends { Spends n self.old.world.counters.words result self.new.world.counters.words }
        ensures rest { self.new ≡ record self.old { world = with_words self.old.world self.new.world.counters.words } }
        // So the evaluator pays for a thing.
        ensures paid { AsPaid (less_by n self.old.world.counters.words) self.old.world.counters.words result self.new.world.counters.words }
    {
        if self.words < n {
            return false;
        }
        self.words -= n;
        true
    }

    /// How many instructions are left.
    pub fn instructions_left(&self) -> u64
        ensures { result ≡ self.now.world.counters.instructions }
    {
        self.instructions
    }

    /// Sets how many instructions are left.
    #[tactic(auto, unfolding(cc_meaning_world::specs::Changes::with_instructions))]
    pub fn set_instructions_left(&mut self, n: u64)
        ensures { self.new ≡ record self.old { world = with_instructions self.old.world n } }
    {
        self.instructions = n;
    }

    /// How many words are left.
    pub fn words_left(&self) -> u32
        ensures { result ≡ self.now.world.counters.words }
    {
        self.words
    }

    /// Sets how many words are left.
    #[tactic(auto, unfolding(cc_meaning_world::specs::Changes::with_words))]
    pub fn set_words_left(&mut self, n: u32)
        ensures { self.new ≡ record self.old { world = with_words self.old.world n } }
    {
        self.words = n;
    }
}

/// What reads and writes objects. These calls take no memory.
impl World {
    /// How many objects there are.
    pub fn len(&self) -> u32
        ensures value { result ≡ length self.now.world.objects }
        ensures fits { length self.now.world.objects < 2 ^ 32 }
    {
        self.heap.len()
    }

    /// The number of the object of `System.out`.
    pub fn out_object(&self) -> ObjId
        ensures { result ≡ out_object }
    {
        OUT_OBJECT
    }

    /// What the object of a number is.
    pub fn shape(&self, id: ObjId) -> Shape
        requires { id < length self.now.world.objects }
        ensures { option_map shape_of (slice_get self.now.world.objects id) ≡ Some result }
    {
        self.heap.shape(id)
    }

    /// A field of an instance or an element of an array.
    pub fn slot(&self, id: ObjId, i: u32) -> Value
        requires { i < length (values_in (slice_get self.now.world.objects id)) }
        ensures { slice_get (values_in (slice_get self.now.world.objects id)) i ≡ Some result }
    {
        self.heap.slot(id, i)
    }

    /// Writes a field of an instance or an element of an array.
    #[tactic(auto, unfolding(cc_meaning_world::specs::Changes::with_object_at))]
    pub fn set_slot(&mut self, id: ObjId, i: u32, value: Value)
        requires { i < length (values_in (slice_get self.old.world.objects id)) }
        ensures { IsWritten (put_in i value (slice_get self.old.world.objects id)) id self.old self.new }
    {
        self.heap.set_slot(id, i, value);
    }

    /// The units of a text or a builder, lent.
    pub fn units(&self, id: ObjId) -> &[u16]
        requires { IsSome (units_in (slice_get self.now.world.objects id)) }
        ensures { units_in (slice_get self.now.world.objects id) ≡ Some result.now }
    {
        self.heap.units(id)
    }

    /// Gives a builder other units.
    #[tactic(auto, unfolding(cc_meaning_world::specs::Changes::with_object_at))]
    pub fn replace_units(&mut self, id: ObjId, units: Units)
        requires builder { IsTrue (is_builder (slice_get self.old.world.objects id)) }
        requires short { length units < 2 ^ 32 }
        ensures { self.new ≡ record self.old { world = with_object_at self.old.world id (object.Builder units) } }
    {
        self.heap.replace_units(id, units);
    }
}

/// What puts objects in. These calls ask for memory; without it the world is as before.
impl World {
    /// Makes room for so many objects, values of objects and events.
    pub fn reserve(&mut self, objects: u32, slots: u32, events: u32) -> Result<(), Memory>
        ensures same { SameWorld self.old self.new }
        ensures room { OnOk result (HasRoom objects slots events self.new.spare) }
    {
        self.heap.reserve(objects, slots)?;
        self.events.reserve(events as usize)?;
        Ok(())
    }

    /// Puts an object behind the others: its number is how many there were. Where there is no memory the object comes back.
    #[tactic(auto, using(crate::proofs::Rows::names_kept), unfolding(cc_meaning_world::specs::Changes::with_object))]
    pub fn make(&mut self, object: Object) -> Result<ObjId, (Object, Memory)>
        requires { length self.old.world.objects + 1 < 2 ^ 32 }
        ensures number { IfOk result (λ id. id ≡ length self.old.world.objects) }
        ensures ok { OnOk result (self.new.world ≡ with_object self.old.world object) }
        ensures texts { self.new.texts ≡ self.old.texts }
        ensures spare { OnOk result (TakesObject object self.old.spare self.new.spare) }
        ensures back { IfErr result (λ fault. fault.0 ≡ object) }
        ensures err { OnErr result (SameWorld self.old self.new) }
        ensures refused { OnErr result (LacksRoom object self.old.spare) }
    {
        self.heap.make(object)
    }

    /// Puts an instance with copies of these values behind the other objects.
    #[tactic(auto, using(crate::proofs::Rows::names_kept), unfolding(cc_meaning_world::specs::Changes::with_object))]
    pub fn make_instance(&mut self, class: ClassIx, values: &[Value]) -> Result<ObjId, Memory>
        requires { length self.old.world.objects + 1 < 2 ^ 32 }
        ensures number { IfOk result (λ id. id ≡ length self.old.world.objects) }
        ensures ok { OnOk result (self.new.world ≡ with_object self.old.world (object.Instance class values.now)) }
        ensures texts { self.new.texts ≡ self.old.texts }
        ensures spare { OnOk result (TakesObject (object.Instance class values.now) self.old.spare self.new.spare) }
        ensures err { OnErr result (SameWorld self.old self.new) }
        ensures refused { OnErr result (LacksRoom (object.Instance class values.now) self.old.spare) }
    {
        self.heap.make_instance(class, values)
    }

    /// Puts an array of so many elements, each of which is `value`, behind the other objects.
    #[tactic(auto, using(crate::proofs::Rows::names_kept), unfolding(cc_meaning_world::specs::Changes::with_object))]
    pub fn make_array(&mut self, class: ClassIx, len: u32, value: Value) -> Result<ObjId, Memory>
        requires { length self.old.world.objects + 1 < 2 ^ 32 }
        ensures number { IfOk result (λ id. id ≡ length self.old.world.objects) }
        ensures ok { OnOk result (self.new.world ≡ with_object self.old.world (object.Array class (replicate len value))) }
        ensures texts { self.new.texts ≡ self.old.texts }
        ensures spare { OnOk result (TakesObject (object.Array class (replicate len value)) self.old.spare self.new.spare) }
        ensures err { OnErr result (SameWorld self.old self.new) }
        ensures refused { OnErr result (LacksRoom (object.Array class (replicate len value)) self.old.spare) }
    {
        self.heap.make_array(class, len, value)
    }

    /// Puts units behind those of a builder, in place. A builder has fewer than 2^32 units: one that would get more is refused too.
    #[tactic(auto, unfolding(cc_meaning_world::specs::Changes::with_object_at))]
    pub fn append(&mut self, id: ObjId, units: &[u16]) -> Result<(), Memory>
        requires { IsTrue (is_builder (slice_get self.old.world.objects id)) }
        ensures ok { OnOk result (IsWritten (more_units units.now (slice_get self.old.world.objects id)) id self.old self.new) }
        ensures err { OnErr result (self.new ≡ self.old) }
    {
        self.heap.append(id, units)
    }
}

/// Statics, classes and what was made for literals and constants. These calls take no memory.
impl World {
    /// What a static field holds.
    pub fn static_value(&self, field: FieldIx) -> Value
        requires { field < length self.now.world.statics }
        ensures { slice_get self.now.world.statics field ≡ Some result }
    {
        self.statics[field as usize]
    }

    /// Writes a static field.
    #[tactic(auto, unfolding(cc_meaning_world::specs::Changes::with_static))]
    pub fn set_static(&mut self, field: FieldIx, value: Value)
        requires { field < length self.old.world.statics }
        ensures { self.new ≡ record self.old { world = with_static self.old.world field value } }
    {
        self.statics.set(field as usize, value);
    }

    /// How far a class is started: 0 not, 1 in progress, 2 ready, 3 failed.
    pub fn status(&self, class: ClassIx) -> u8
        requires { class < length self.now.world.counters.statuses }
        ensures { slice_get self.now.world.counters.statuses class ≡ Some result }
    {
        self.statuses[class as usize]
    }

    /// Sets how far a class is started.
    #[tactic(auto, unfolding(cc_meaning_world::specs::Changes::with_status, cc_meaning_world::specs::Changes::with_statuses))]
    pub fn set_status(&mut self, class: ClassIx, status: u8)
        requires { class < length self.old.world.counters.statuses }
        ensures { self.new ≡ record self.old { world = with_status self.old.world class status } }
    {
        self.statuses.set(class as usize, status);
    }

    /// The object that was made for a text's literals, where one was.
    #[tactic(auto, using(crate::proofs::Rows::number_in, crate::proofs::Rows::row_rises, crate::proofs::Rows::row_in_range, crate::proofs::Rows::named))]
    pub fn literal(&self, text: TextIx) -> Option<ObjId>
        requires { text < self.now.texts }
        ensures number { result ≡ number_for text self.now.world.literals }
        ensures rises { Rises self.now.world.literals }
        ensures in_range { InRange self.now.texts (length self.now.world.objects) self.now.world.literals }
        ensures object { IfSome result (λ id. id < length self.now.world.objects) }
    {
        *self.literals.at(text as usize)
    }

    /// Notes the object that was made for a text's literals.
    #[tactic(auto, using(crate::proofs::Rows::noted_in, crate::proofs::Rows::same_room, crate::proofs::Rows::names_set, crate::proofs::Noting::first), unfolding(cc_meaning_world::specs::Changes::with_literal))]
    pub fn set_literal(&mut self, text: TextIx, object: ObjId)
        requires text { text < self.old.texts }
        requires object { object < length self.old.world.objects }
        ensures noted { self.new ≡ record self.old { world = with_noted_literal text object self.old.world } }
        // So a run notes the first one.
        ensures first { number_for text self.old.world.literals ≡ None → self.new.world ≡ with_literal text self.old.world object }
    {
        self.literals.set(text as usize, Some(object));
    }

    /// The object that was made for a class's constants, where one was.
    #[tactic(auto, using(crate::proofs::Rows::number_in, crate::proofs::Rows::row_rises, crate::proofs::Rows::row_in_range, crate::proofs::Rows::named))]
    pub fn constant(&self, class: ClassIx) -> Option<ObjId>
        requires { class < length self.now.world.counters.statuses }
        ensures number { result ≡ number_for class self.now.world.constants }
        ensures rises { Rises self.now.world.constants }
        ensures in_range { InRange (length self.now.world.counters.statuses) (length self.now.world.objects) self.now.world.constants }
        ensures object { IfSome result (λ id. id < length self.now.world.objects) }
    {
        *self.constants.at(class as usize)
    }

    /// Notes the object that was made for a class's constants.
    #[tactic(auto, using(crate::proofs::Rows::noted_in, crate::proofs::Rows::same_room, crate::proofs::Rows::names_set, crate::proofs::Noting::first), unfolding(cc_meaning_world::specs::Changes::with_constant))]
    pub fn set_constant(&mut self, class: ClassIx, object: ObjId)
        requires class { class < length self.old.world.counters.statuses }
        requires object { object < length self.old.world.objects }
        ensures noted { self.new ≡ record self.old { world = with_noted_constant class object self.old.world } }
        // So a run notes the first one.
        ensures first { number_for class self.old.world.constants ≡ None → self.new.world ≡ with_constant class self.old.world object }
    {
        self.constants.set(class as usize, Some(object));
    }

    /// How many answers of a class's script were taken.
    pub fn cursor(&self, class: ClassIx) -> u32
        requires { class < length self.now.world.cursors }
        ensures { slice_get self.now.world.cursors class ≡ Some result }
    {
        self.cursors[class as usize]
    }

    /// Sets how many answers of a class's script were taken.
    pub fn set_cursor(&mut self, class: ClassIx, cursor: u32)
        requires { class < length self.old.world.cursors }
        ensures { self.new ≡ record self.old { world = with_cursor class cursor self.old.world } }
    {
        self.cursors.set(class as usize, cursor);
    }
}

/// Events. Only `add_event` asks for memory.
impl World {
    /// How many events were recorded.
    pub fn event_count(&self) -> u32
        ensures value { result ≡ length self.now.world.events }
        ensures fits { length self.now.world.events < 2 ^ 32 }
    {
        self.events.len() as u32
    }

    /// An event, lent; they count from 0.
    pub fn event(&self, i: u32) -> &Event
        requires { i < length self.now.world.events }
        ensures { slice_get self.now.world.events i ≡ Some result.now }
    {
        &self.events[i as usize]
    }

    /// Records an event behind the others. Where there is no memory it comes back.
    #[tactic(auto, unfolding(cc_meaning_world::specs::Changes::with_event))]
    pub fn add_event(&mut self, event: Event) -> Result<(), (Event, Memory)>
        requires { length self.old.world.events + 1 < 2 ^ 32 }
        ensures ok { OnOk result (self.new.world ≡ with_event self.old.world event) }
        ensures texts { self.new.texts ≡ self.old.texts }
        ensures spare { OnOk result (TakesEvent self.old.spare self.new.spare) }
        ensures back { IfErr result (λ fault. fault.0 ≡ event) }
        ensures err { OnErr result (self.new ≡ self.old) }
        ensures refused { OnErr result (self.old.spare.events ≡ 0) }
    {
        if self.events.reserve(1).is_err() {
            return Err((event, Memory));
        }
        self.events.push_reserved(event);
        Ok(())
    }
}
