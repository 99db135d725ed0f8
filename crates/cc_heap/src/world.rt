//! The world of a run.

ghost use Rattle.std.specs.Prelude.{◌≡◌, ◌<◌, ◌+◌, ◌^◌, Some, length, slice_get, IfOk, IfErr, OnOk, OnErr};
ghost use Rattle.cc_meaning_run.specs.Acts.{less_by, with_words, with_object, with_event};
ghost use Rattle.cc_meaning_run.specs.Eval.{with_instructions};
ghost use Rattle.cc_meaning_run.specs.Local.{out_object, opening_world};
ghost use Rattle.cc_heap.specs.Made.{number_for, Rises};
ghost use Rattle.cc_heap.specs.Effects.{with_object_at, with_static, with_status, with_literal, with_constant, with_cursor, Spends, AsPaid};

use crate::opening::{OUT_OBJECT, heap, statics};
use cc_list::List;
use cc_meaning::fault::Memory;
use cc_meaning::lists::{ClassIx, Cursors, FieldIx, ObjId, TextIx};
use cc_meaning::program::Program;
use cc_meaning::report::{Event, Limits};
use cc_meaning::value::{Object, Value, Values};
use std::alloc::Global;
use std::marker::Model;

/// The world of a run. Contracts see it as the world of the definitions, and the number of its program's texts.
#[derive(Drop)]
pub struct World {
    objects: Vec<Object>,
    statics: Values,
    /// A place for each text of the program, and one for each class.
    literals: List<Option<ObjId>>,
    constants: List<Option<ObjId>>,
    statuses: List<u8>,
    cursors: Cursors,
    events: Vec<Event>,
    instructions: u64,
    words: u32,
}

impl Model for World {
    ghost use Rattle.std.specs.Prelude.{◌≡◌, ◌<◌, ◌^◌, length};
    ghost use Rattle.cc_heap.specs.Made.{made_in};
    ghost use Rattle.cc_heap.specs.Effects.{Held};

    ghost Value = { Held };

    ghost view = { λ w. record {
      world = record {
        objects = w.objects.items;
        statics = w.statics;
        literals = made_in w.literals;
        constants = made_in w.constants;
        counters = record { instructions = w.instructions; words = w.words; statuses = w.statuses };
        cursors = w.cursors;
        events = w.events.items;
      };
      texts = length w.literals;
    } };

    ghost invariant = { λ w. (length w.objects.items < 2 ^ 32) × (length w.events.items < 2 ^ 32) × (length w.constants ≡ length w.statuses) };
}

impl World {
    /// The world before anything was done, in which `System.out` is the one object. It has room for every literal and class constant of the program.
    #[tactic(auto, using(crate::proofs::Rows::empty_row), unfolding(cc_meaning_run::specs::Local::opening_world))]
    pub fn new(alloc: Global, program: &Program, limits: Limits) -> Result<World, Memory>
        ensures { IfOk result (λ held. held ≡ record { world = opening_world program.now limits; texts = length program.now.texts }) }
    {
        let classes = program.classes.len();
        Ok(World {
            objects: heap(alloc)?,
            statics: statics(alloc, program)?,
            literals: List::from_vec(vec![in alloc; None; program.texts.len()]?),
            constants: List::from_vec(vec![in alloc; None; classes]?),
            statuses: List::from_vec(vec![in alloc; 0; classes]?),
            cursors: List::from_vec(vec![in alloc; 0; classes]?),
            events: Vec::new(alloc),
            instructions: limits.instructions,
            words: limits.words,
        })
    }
}

/// What is left, and how it is spent. These calls take no memory.
impl World {
    /// Takes one from the instructions left, or none where none is left: then the answer is false.
    #[tactic(auto, unfolding(cc_meaning_run::specs::Eval::with_instructions))]
    pub fn spend_instruction(&mut self) -> bool
        ensures spends { Spends 1 self.old.world.counters.instructions result self.new.world.counters.instructions }
        ensures rest { self.new ≡ record self.old { world = with_instructions self.old.world self.new.world.counters.instructions } }
    {
        if self.instructions == 0 {
            return false;
        }
        self.instructions -= 1;
        true
    }

    /// Takes `n` from the words left, or none where too few are left: then the answer is false.
    #[tactic(auto, using(crate::proofs::Spending::enough, crate::proofs::Spending::too_few), unfolding(cc_meaning_run::specs::Acts::with_words))]
    pub fn spend_words(&mut self, n: u32) -> bool
        ensures spends { Spends n self.old.world.counters.words result self.new.world.counters.words }
        ensures rest { self.new ≡ record self.old { world = with_words self.old.world self.new.world.counters.words } }
        // So the evaluator pays for a thing.
        ensures paid { AsPaid (less_by n self.old.world.counters.words) self.old.world.counters.words result self.new.world.counters.words }
    {
        if self.words < n {
            return false;
        }
        self.words -= n;
        true
    }

    /// How many instructions are left.
    pub fn instructions_left(&self) -> u64
        ensures { result ≡ self.now.world.counters.instructions }
    {
        self.instructions
    }

    /// Sets how many instructions are left.
    #[tactic(auto, unfolding(cc_meaning_run::specs::Eval::with_instructions))]
    pub fn set_instructions_left(&mut self, n: u64)
        ensures { self.new ≡ record self.old { world = with_instructions self.old.world n } }
    {
        self.instructions = n;
    }

    /// How many words are left.
    pub fn words_left(&self) -> u32
        ensures { result ≡ self.now.world.counters.words }
    {
        self.words
    }

    /// Sets how many words are left.
    #[tactic(auto, unfolding(cc_meaning_run::specs::Acts::with_words))]
    pub fn set_words_left(&mut self, n: u32)
        ensures { self.new ≡ record self.old { world = with_words self.old.world n } }
    {
        self.words = n;
    }
}

/// The heap. Only `make` takes memory.
impl World {
    /// Puts an object at the end of the heap: its number is how many there were. Where there is no memory the object comes back.
    #[tactic(auto, unfolding(cc_meaning_run::specs::Acts::with_object))]
    pub fn make(&mut self, object: Object) -> Result<ObjId, (Object, Memory)>
        requires { length self.old.world.objects + 1 < 2 ^ 32 }
        ensures number { IfOk result (λ id. id ≡ length self.old.world.objects) }
        ensures ok { OnOk result (self.new ≡ record self.old { world = with_object self.old.world object }) }
        ensures back { IfErr result (λ fault. fault.0 ≡ object) }
        ensures err { OnErr result (self.new ≡ self.old) }
    {
        let id = self.objects.len() as u32;
        match self.objects.push(object) {
            Ok(()) => Ok(id),
            Err(refused) => Err((refused.value, Memory)),
        }
    }

    /// The object of a number, lent.
    pub fn get(&self, id: ObjId) -> &Object
        requires { id < length self.now.world.objects }
        ensures { slice_get self.now.world.objects id ≡ Some result.now }
    {
        &self.objects[id as usize]
    }

    /// Puts another object in the stead of that of a number.
    pub fn put(&mut self, id: ObjId, object: Object)
        requires { id < length self.old.world.objects }
        ensures { self.new ≡ record self.old { world = with_object_at id object self.old.world } }
    {
        self.objects[id as usize] = object;
    }

    /// How many objects there are.
    pub fn len(&self) -> u32
        ensures value { result ≡ length self.now.world.objects }
        ensures fits { length self.now.world.objects < 2 ^ 32 }
    {
        self.objects.len() as u32
    }

    /// The number of the object of `System.out`.
    pub fn out_object(&self) -> ObjId
        ensures { result ≡ out_object }
    {
        OUT_OBJECT
    }
}

/// Statics, classes and what was made for literals and constants. These calls take no memory.
impl World {
    /// What a static field holds.
    pub fn static_value(&self, field: FieldIx) -> Value
        requires { field < length self.now.world.statics }
        ensures { slice_get self.now.world.statics field ≡ Some result }
    {
        self.statics[field as usize]
    }

    /// Writes a static field.
    pub fn set_static(&mut self, field: FieldIx, value: Value)
        requires { field < length self.old.world.statics }
        ensures { self.new ≡ record self.old { world = with_static field value self.old.world } }
    {
        self.statics.set(field as usize, value);
    }

    /// How far a class is started: 0 not, 1 in progress, 2 ready, 3 failed.
    pub fn status(&self, class: ClassIx) -> u8
        requires { class < length self.now.world.counters.statuses }
        ensures { slice_get self.now.world.counters.statuses class ≡ Some result }
    {
        self.statuses[class as usize]
    }

    /// Sets how far a class is started.
    pub fn set_status(&mut self, class: ClassIx, status: u8)
        requires { class < length self.old.world.counters.statuses }
        ensures { self.new ≡ record self.old { world = with_status class status self.old.world } }
    {
        self.statuses.set(class as usize, status);
    }

    /// The object that was made for a text's literals, where one was.
    #[tactic(auto, using(crate::proofs::Rows::number_in, crate::proofs::Rows::row_rises))]
    pub fn literal(&self, text: TextIx) -> Option<ObjId>
        requires { text < self.now.texts }
        ensures number { result ≡ number_for text self.now.world.literals }
        ensures rises { Rises self.now.world.literals }
    {
        *self.literals.at(text as usize)
    }

    /// Notes the object that was made for a text's literals.
    #[tactic(auto, using(crate::proofs::Rows::noted_in, crate::proofs::Rows::same_room))]
    pub fn set_literal(&mut self, text: TextIx, object: ObjId)
        requires { text < self.old.texts }
        ensures { self.new ≡ record self.old { world = with_literal text object self.old.world } }
    {
        self.literals.set(text as usize, Some(object));
    }

    /// The object that was made for a class's constants, where one was.
    #[tactic(auto, using(crate::proofs::Rows::number_in, crate::proofs::Rows::row_rises))]
    pub fn constant(&self, class: ClassIx) -> Option<ObjId>
        requires { class < length self.now.world.counters.statuses }
        ensures number { result ≡ number_for class self.now.world.constants }
        ensures rises { Rises self.now.world.constants }
    {
        *self.constants.at(class as usize)
    }

    /// Notes the object that was made for a class's constants.
    #[tactic(auto, using(crate::proofs::Rows::noted_in))]
    pub fn set_constant(&mut self, class: ClassIx, object: ObjId)
        requires { class < length self.old.world.counters.statuses }
        ensures { self.new ≡ record self.old { world = with_constant class object self.old.world } }
    {
        self.constants.set(class as usize, Some(object));
    }

    /// How many answers of a class's script were taken.
    pub fn cursor(&self, class: ClassIx) -> u32
        requires { class < length self.now.world.cursors }
        ensures { slice_get self.now.world.cursors class ≡ Some result }
    {
        self.cursors[class as usize]
    }

    /// Sets how many answers of a class's script were taken.
    pub fn set_cursor(&mut self, class: ClassIx, cursor: u32)
        requires { class < length self.old.world.cursors }
        ensures { self.new ≡ record self.old { world = with_cursor class cursor self.old.world } }
    {
        self.cursors.set(class as usize, cursor);
    }
}

/// Events. Only `add_event` takes memory.
impl World {
    /// How many events were recorded.
    pub fn event_count(&self) -> u32
        ensures value { result ≡ length self.now.world.events }
        ensures fits { length self.now.world.events < 2 ^ 32 }
    {
        self.events.len() as u32
    }

    /// An event, lent; they count from 0.
    pub fn event(&self, i: u32) -> &Event
        requires { i < length self.now.world.events }
        ensures { slice_get self.now.world.events i ≡ Some result.now }
    {
        &self.events[i as usize]
    }

    /// Records an event behind the others. Where there is no memory it comes back.
    #[tactic(auto, unfolding(cc_meaning_run::specs::Acts::with_event))]
    pub fn add_event(&mut self, event: Event) -> Result<(), (Event, Memory)>
        requires { length self.old.world.events + 1 < 2 ^ 32 }
        ensures ok { OnOk result (self.new ≡ record self.old { world = with_event self.old.world event }) }
        ensures back { IfErr result (λ fault. fault.0 ≡ event) }
        ensures err { OnErr result (self.new ≡ self.old) }
    {
        match self.events.push(event) {
            Ok(()) => Ok(()),
            Err(refused) => Err((refused.value, Memory)),
        }
    }
}
