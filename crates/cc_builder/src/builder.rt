//! A DEX file in the making.

ghost use Rattle.std.specs.Prelude.{◌≡◌, ◌++◌, [], ◌∷◌, ◌+◌, ◌<◌, length, IfOk, OnOk, OnErr};
ghost use Rattle.cc_meaning_builder.specs.Built.{Built};
ghost use Rattle.cc_meaning_builder.specs.WellNamed.{WellNamed};
ghost use Rattle.cc_builder.specs.Added.{units_of, new_class, new_field, new_method, with_interface, with_field, with_method, changed};

use crate::raw_classes;
use crate::text::{named_class, units_of};
use cc_builder_laws::written_is_read_again;
use cc_dex_writer::write_file;
use cc_list::List;
use cc_meaning::fault::Memory;
use cc_meaning::listing::{ListedValue, Listing};
use cc_meaning::lists::Bytes;
use cc_meaning_builder::content::{Content, ListedClass, ListedField, ListedMethod};
use cc_tables::tables_of;
use std::alloc::Global;
use std::marker::Model;

/// A DEX file in the making. Contracts see it as the classes that were added, with their members, in the order in which they were added.
///
/// Names are descriptors, as `Lp/Main;` and `[I`, and prototypes, as `(I)V`. No call looks at what they spell, nor at whether members suit their classes.
#[derive(Drop)]
pub struct DexBuilder {
    classes: Content,
    alloc: Global,
}

impl Model for DexBuilder {
    ghost use Rattle.std.specs.Prelude.{List};
    ghost use Rattle.cc_meaning_builder.specs.declared.content.ListedClass.{ListedClass};

    ghost Value = { List ListedClass };

    ghost view = { λ builder. builder.classes };
}

impl DexBuilder {
    /// A file of no classes.
    pub fn new(alloc: Global) -> Result<DexBuilder, Memory>
        ensures { IfOk result (λ builder. builder ≡ []) }
    {
        Ok(DexBuilder {
            classes: List::new(alloc),
            alloc,
        })
    }

    /// The classes that were added.
    pub fn content(&self) -> &Content
        ensures { result.now ≡ self.now }
    {
        &self.classes
    }

    /// Adds a class that has no members yet, with access flags of the format (section "access_flags Definitions"), and answers its number, counted from 0.
    /// An empty `superclass` says that it has none.
    ///
    /// # Errors
    ///
    /// `Memory`: there is none for the class, or 2 ^ 32 classes were added before it. Nothing is added then.
    pub fn class(&mut self, name: &str, superclass: &str, flags: u32) -> Result<u32, Memory>
        ensures added { OnOk result (self.new ≡ self.old ++ new_class name.now superclass.now flags ∷ []) }
        ensures number { IfOk result (λ number. number ≡ length self.old) }
        ensures count { OnOk result (length self.new ≡ length self.old + 1) }
        ensures there { IfOk result (λ number. number < length self.new) }
        ensures refused { OnErr result (self.new ≡ self.old) }
    {
        let number = u32::try_from(self.classes.len()).map_err(|_| Memory)?;
        let class = ListedClass {
            name: units_of(self.alloc, name)?,
            superclass: named_class(self.alloc, superclass)?,
            flags,
            interfaces: List::new(self.alloc),
            fields: List::new(self.alloc),
            methods: List::new(self.alloc),
        };
        self.classes.push(class)?;
        Ok(number)
    }

    /// Says that a class implements an interface, behind those that it was said to implement before.
    ///
    /// # Errors
    ///
    /// `Memory`: there is none for the name. Nothing is added then.
    pub fn implements(&mut self, class: u32, interface: &str) -> Result<(), Memory>
        requires { class < length self.old }
        ensures added { OnOk result (self.new ≡ changed (with_interface (units_of interface.now)) class self.old) }
        ensures count { length self.new ≡ length self.old }
        ensures refused { OnErr result (self.new ≡ self.old) }
    {
        let name = units_of(self.alloc, interface)?;
        self.classes.at_mut(class as usize).interfaces.push(name)?;
        Ok(())
    }

    /// Adds a field to a class, behind those that it has. `value` is what a static field begins with; without one that is zero or null.
    ///
    /// # Errors
    ///
    /// `Memory`: there is none for the field. Nothing is added then.
    pub fn field(
        &mut self,
        class: u32,
        name: &str,
        kind: &str,
        flags: u32,
        value: Option<ListedValue>,
    ) -> Result<(), Memory>
        requires { class < length self.old }
        ensures added { OnOk result (self.new ≡ changed (with_field (new_field name.now kind.now flags value)) class self.old) }
        ensures count { length self.new ≡ length self.old }
        ensures refused { OnErr result (self.new ≡ self.old) }
    {
        let field = ListedField {
            name: units_of(self.alloc, name)?,
            kind: units_of(self.alloc, kind)?,
            flags,
            value,
        };
        self.classes.at_mut(class as usize).fields.push(field)?;
        Ok(())
    }

    /// Adds a method to a class, behind those that it has, with its code where it has some.
    ///
    /// # Errors
    ///
    /// `Memory`: there is none for the method. Nothing is added then.
    pub fn method(
        &mut self,
        class: u32,
        name: &str,
        proto: &str,
        flags: u32,
        code: Option<Listing>,
    ) -> Result<(), Memory>
        requires { class < length self.old }
        ensures added { OnOk result (self.new ≡ changed (with_method (new_method name.now proto.now flags code)) class self.old) }
        ensures count { length self.new ≡ length self.old }
        ensures refused { OnErr result (self.new ≡ self.old) }
    {
        let method = ListedMethod {
            name: units_of(self.alloc, name)?,
            proto: units_of(self.alloc, proto)?,
            flags,
            code,
        };
        self.classes.at_mut(class as usize).methods.push(method)?;
        Ok(())
    }

    /// The bytes of the file (Dalvik Executable format, section File layout): its tables in the order of the format, with a row for each thing that is named,
    /// and the members with their code. Where all names are well formed, and the file is within the bounds of the format, it is read again: no fault is
    /// there but in the code, tries or values that were added, and where none is, the file spells exactly the classes, members and code that were added.
    ///
    /// # Errors
    ///
    /// `Memory`: there is none for the file, a table would have more than 2 ^ 32 rows, or a mark of one unit names the row 65,536 or one behind it (of these,
    /// texts can be named by const-string/jumbo).
    pub fn finish(&self) -> Result<Bytes, Memory>
        ensures { IfOk result (λ file. WellNamed self.now → Built self.now file) }
    {
        written_is_read_again();
        let ids = tables_of(self.alloc, &self.classes)?;
        let (classes, outs) = raw_classes(self.alloc, &self.classes, &ids)?;
        write_file(self.alloc, &ids, &classes, &outs)
    }
}
