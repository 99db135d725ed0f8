//! The objects of a world: a table of heads, and one row of values.

ghost use Rattle.std.specs.Prelude.{◌≡◌, ◌+◌, ◌<◌, ◌≤◌, ◌^◌, ◌⊎◌, [], ◌∷◌, ◌++◌, length, Some, IfOk, IfErr, OnOk, OnErr, IsSome, IsTrue, slice_get, slice_set, replicate, option_map};
ghost use Rattle.cc_meaning.specs.declared.value.Object.TheVariants as object;
ghost use Rattle.cc_meaning_world.specs.Changes.{more_units, put_in};
ghost use Rattle.cc_world.specs.Shapes.{shape_of, size_of, values_of, values_in, units_in, is_builder};
ghost use Rattle.cc_world.specs.Flat.{formed, shape_formed, object_in, IsWhole, Rewrites, SameHeap, HeapTakes, HeapLacks};

use crate::shape::Shape;
use cc_list::List;
use cc_meaning::fault::Memory;
use cc_meaning::lists::{ClassIx, ObjId, Units};
use cc_meaning::value::{Object, Value, Values};
use std::alloc::Global;
use std::marker::Model;

/// Whether values are the fields of an instance or the elements of an array.
#[derive(Clone, Copy)]
enum Form {
    Instance,
    Array,
}

/// What an object is, and where its values or units are: values stand side by side in the row, from a place on.
#[derive(Drop)]
enum Head {
    Out,
    Slots {
        form: Form,
        class: ClassIx,
        from: usize,
        len: u32,
    },
    Text(Units),
    Builder(Units),
    Constant(ClassIx),
}

/// The objects of a world. Contracts see them as a list.
#[derive(Drop)]
pub(crate) struct Heap {
    heads: Vec<Head>,
    row: Vec<Value>,
}

impl Model for Heap {
    ghost use Rattle.std.specs.Prelude.{◌-◌, ◌<◌, ◌^◌, length};
    ghost use Rattle.cc_world.specs.Flat.{Stored, Laid, objects_in};

    ghost Value = { Stored };

    ghost view = { λ h. record {
      objects = objects_in h.row.items h.heads.items;
      spare_objects = h.heads.cap - length h.heads.items;
      spare_slots = h.row.cap - length h.row.items;
    } };

    ghost invariant = { λ h. (length h.heads.items < 2 ^ 32) × Laid 0 h.heads.items h.row.items };
}

/// The greatest number of values or units of an object.
const LONGEST: usize = u32::MAX as usize;

/// How many values or units an object holds.
fn size(object: &Object) -> usize
    ensures { result ≡ size_of object.now }
{
    match object {
        Object::Out => 0,
        Object::Instance { values, .. } => values.len(),
        Object::Array { values, .. } => values.len(),
        Object::Text(units) => units.len(),
        Object::Builder(units) => units.len(),
        Object::Constant(_) => 0,
    }
}

fn slots_shape(form: Form, class: ClassIx, len: u32) -> Shape
    ensures { result ≡ shape_formed form class len }
{
    match form {
        Form::Instance => Shape::Instance { class, len },
        Form::Array => Shape::Array { class, len },
    }
}

/// What takes no memory.
impl Heap {
    /// How many objects there are.
    pub(crate) fn len(&self) -> u32
        ensures value { result ≡ length self.now.objects }
        ensures fits { length self.now.objects < 2 ^ 32 }
    {
        self.heads.len() as u32
    }

    pub(crate) fn shape(&self, id: ObjId) -> Shape
        requires { id < length self.now.objects }
        ensures { option_map shape_of (slice_get self.now.objects id) ≡ Some result }
    {
        match &self.heads[id as usize] {
            Head::Out => Shape::Out,
            Head::Slots {
                form,
                class,
                len,
                ..
            } => slots_shape(*form, *class, *len),
            Head::Text(units) => Shape::Text {
                len: units.len() as u32,
            },
            Head::Builder(units) => Shape::Builder {
                len: units.len() as u32,
            },
            Head::Constant(class) => Shape::Constant(*class),
        }
    }

    /// A field of an instance, or an element of an array.
    #[tactic(auto, using(crate::proofs::Flat::object_at, crate::proofs::Flat::get_span, crate::proofs::Flat::slots_fit))]
    pub(crate) fn slot(&self, id: ObjId, i: u32) -> Value
        requires { i < length (values_in (slice_get self.now.objects id)) }
        ensures { slice_get (values_in (slice_get self.now.objects id)) i ≡ Some result }
    {
        match &self.heads[id as usize] {
            Head::Slots { from, .. } => self.row[*from + i as usize],
            _ => unreachable!(),
        }
    }

    /// Writes a field of an instance or an element of an array.
    pub(crate) fn set_slot(&mut self, id: ObjId, i: u32, value: Value)
        requires { i < length (values_in (slice_get self.old.objects id)) }
        ensures { Rewrites (put_in i value (slice_get self.old.objects id)) id self.old self.new }
    {
        match &self.heads[id as usize] {
            Head::Slots { from, .. } => {
                let at = *from + i as usize;
                self.row[at] = value;
            }
            _ => unreachable!(),
        }
    }

    /// The units of a text or a builder, lent.
    pub(crate) fn units(&self, id: ObjId) -> &[u16]
        requires { IsSome (units_in (slice_get self.now.objects id)) }
        ensures { units_in (slice_get self.now.objects id) ≡ Some result.now }
    {
        match &self.heads[id as usize] {
            Head::Text(units) => units.as_slice(),
            Head::Builder(units) => units.as_slice(),
            _ => unreachable!(),
        }
    }

    /// Gives a builder other units.
    pub(crate) fn replace_units(&mut self, id: ObjId, units: Units)
        requires builder { IsTrue (is_builder (slice_get self.old.objects id)) }
        requires short { length units < 2 ^ 32 }
        ensures { self.new ≡ record self.old { objects = slice_set self.old.objects id (object.Builder units) } }
    {
        self.heads[id as usize] = Head::Builder(units);
    }
}

/// What asks for memory.
impl Heap {
    /// The heap whose one object is `System.out`.
    pub(crate) fn new(alloc: Global) -> Result<Heap, Memory>
        ensures { IfOk result (λ heap. heap.objects ≡ object.Out ∷ []) }
    {
        let mut heads = Vec::new(alloc);
        if heads.push(Head::Out).is_err() {
            return Err(Memory);
        }
        Ok(Heap {
            heads,
            row: Vec::new(alloc),
        })
    }

    /// Makes room for so many objects and values.
    pub(crate) fn reserve(&mut self, objects: u32, slots: u32) -> Result<(), Memory>
        ensures same { SameHeap self.old self.new }
        ensures objects { OnOk result (objects ≤ self.new.spare_objects) }
        ensures slots { OnOk result (slots ≤ self.new.spare_slots) }
    {
        self.heads.reserve(objects as usize)?;
        self.row.reserve(slots as usize)?;
        Ok(())
    }

    /// Puts units behind those of a builder, in place.
    pub(crate) fn append(&mut self, id: ObjId, units: &[u16]) -> Result<(), Memory>
        requires { IsTrue (is_builder (slice_get self.old.objects id)) }
        ensures ok { OnOk result (Rewrites (more_units units.now (slice_get self.old.objects id)) id self.old self.new) }
        ensures err { OnErr result (self.new ≡ self.old) }
    {
        match &mut self.heads[id as usize] {
            Head::Builder(held) => {
                if units.len() > LONGEST || held.len() > LONGEST - units.len() {
                    return Err(Memory);
                }
                held.extend_from_slice(units)?;
                Ok(())
            }
            _ => unreachable!(),
        }
    }

    /// Puts a head without values behind the others.
    #[tactic(auto, using(crate::proofs::Flat::objects_whole))]
    fn put(&mut self, head: Head) -> ObjId
        requires room { 0 < self.old.spare_objects }
        requires few { length self.old.objects + 1 < 2 ^ 32 }
        requires whole { IsWhole head }
        ensures number { result ≡ length self.old.objects }
        ensures objects { self.new.objects ≡ self.old.objects ++ object_in [] head ∷ [] }
        ensures spare { self.new.spare_objects + 1 ≡ self.old.spare_objects }
        ensures slots { self.new.spare_slots ≡ self.old.spare_slots }
    {
        let id = self.heads.len() as u32;
        self.heads.push_reserved(head);
        id
    }

    /// Moves values to the end of the row, as those of a new object. Where there is no memory they come back.
    #[tactic(auto, using(crate::proofs::Flat::laid_slots, crate::proofs::Flat::objects_slots))]
    fn put_values(&mut self, form: Form, class: ClassIx, values: Values) -> Result<ObjId, Values>
        requires room { 0 < self.old.spare_objects }
        requires few { length self.old.objects + 1 < 2 ^ 32 }
        requires short { length values < 2 ^ 32 }
        ensures number { IfOk result (λ id. id ≡ length self.old.objects) }
        ensures ok { OnOk result (self.new.objects ≡ self.old.objects ++ formed form class values ∷ []) }
        ensures spare { OnOk result (self.new.spare_objects + 1 ≡ self.old.spare_objects) }
        ensures slots { OnOk result (self.old.spare_slots ≤ self.new.spare_slots + length values) }
        ensures back { IfErr result (λ kept. kept ≡ values) }
        ensures err { OnErr result (SameHeap self.old self.new) }
        ensures refused { OnErr result (self.old.spare_slots < length values) }
    {
        let id = self.heads.len() as u32;
        let from = self.row.len();
        let len = values.len() as u32;
        let mut values = values.into_vec();
        if self.row.append(&mut values).is_err() {
            return Err(List::from_vec(values));
        }
        self.heads.push_reserved(Head::Slots {
            form,
            class,
            from,
            len,
        });
        Ok(id)
    }

    /// Puts an object behind the others. Where there is no memory it comes back.
    pub(crate) fn make(&mut self, object: Object) -> Result<ObjId, (Object, Memory)>
        requires { length self.old.objects + 1 < 2 ^ 32 }
        ensures number { IfOk result (λ id. id ≡ length self.old.objects) }
        ensures ok { OnOk result (self.new.objects ≡ self.old.objects ++ object ∷ []) }
        ensures spare { OnOk result (HeapTakes object self.old self.new) }
        ensures back { IfErr result (λ fault. fault.0 ≡ object) }
        ensures err { OnErr result (SameHeap self.old self.new) }
        ensures refused { OnErr result (HeapLacks object self.old) }
    {
        if size(&object) > LONGEST || self.heads.reserve(1).is_err() {
            return Err((object, Memory));
        }
        match object {
            Object::Out => Ok(self.put(Head::Out)),
            Object::Instance { class, values } => {
                match self.put_values(Form::Instance, class, values) {
                    Ok(id) => Ok(id),
                    Err(values) => Err((Object::Instance { class, values }, Memory)),
                }
            }
            Object::Array { class, values } => {
                match self.put_values(Form::Array, class, values) {
                    Ok(id) => Ok(id),
                    Err(values) => Err((Object::Array { class, values }, Memory)),
                }
            }
            Object::Text(units) => Ok(self.put(Head::Text(units))),
            Object::Builder(units) => Ok(self.put(Head::Builder(units))),
            Object::Constant(class) => Ok(self.put(Head::Constant(class))),
        }
    }

    /// Puts an instance with copies of these values behind the other objects.
    pub(crate) fn make_instance(
        &mut self,
        class: ClassIx,
        values: &[Value],
    ) -> Result<ObjId, Memory>
        requires { length self.old.objects + 1 < 2 ^ 32 }
        ensures number { IfOk result (λ id. id ≡ length self.old.objects) }
        ensures ok { OnOk result (self.new.objects ≡ self.old.objects ++ object.Instance class values.now ∷ []) }
        ensures spare { OnOk result (HeapTakes (object.Instance class values.now) self.old self.new) }
        ensures err { OnErr result (SameHeap self.old self.new) }
        ensures refused { OnErr result (HeapLacks (object.Instance class values.now) self.old) }
    {
        if values.len() > LONGEST {
            return Err(Memory);
        }
        let id = self.heads.len() as u32;
        let from = self.row.len();
        self.heads.reserve(1)?;
        self.row.extend_from_slice(values)?;
        self.heads.push_reserved(Head::Slots {
            form: Form::Instance,
            class,
            from,
            len: values.len() as u32,
        });
        Ok(id)
    }

    /// Puts an array of so many elements, each of which is `value`, behind the other objects.
    pub(crate) fn make_array(
        &mut self,
        class: ClassIx,
        len: u32,
        value: Value,
    ) -> Result<ObjId, Memory>
        requires { length self.old.objects + 1 < 2 ^ 32 }
        ensures number { IfOk result (λ id. id ≡ length self.old.objects) }
        ensures ok { OnOk result (self.new.objects ≡ self.old.objects ++ object.Array class (replicate len value) ∷ []) }
        ensures spare { OnOk result (HeapTakes (object.Array class (replicate len value)) self.old self.new) }
        ensures err { OnErr result (SameHeap self.old self.new) }
        ensures refused { OnErr result (HeapLacks (object.Array class (replicate len value)) self.old) }
    {
        let id = self.heads.len() as u32;
        let from = self.row.len();
        let Some(end) = from.checked_add(len as usize) else {
            return Err(Memory);
        };
        self.heads.reserve(1)?;
        self.row.resize(end, value)?;
        self.heads.push_reserved(Head::Slots {
            form: Form::Array,
            class,
            from,
            len,
        });
        Ok(id)
    }
}
