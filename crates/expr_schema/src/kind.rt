//! The kinds of values.
ghost use Rattle.std.specs.Prelude.{◌≡◌, ◌≢◌, ◌↔◌, ℕ, List, Option, None, Some, IsTrue, IfOk, OnErr, OnOk, option_map};
ghost use Rattle.std.specs.Option.{option_copied};
ghost use Rattle.expr_error.specs.ErrorKind.{OnlyMemory};
ghost use Rattle.expr_schema.specs.Kinds.{HasKind, IsNilable, Fits, SameFields, array, field, keyed, nilable, no_others};
ghost use Rattle.expr_schema.specs.KindView.{fields_from, fields_view, kind_view, named_of, others_of, entry_view};
ghost use Rattle.expr_value.specs.Names.{find};
ghost use Rattle.expr_value.specs.declared.value.Value.{Value, Nil};

use crate::error::SchemaError;
use crate::reader::read_kind;
use expr_value::{Boxed, OrderedMap, Result, Text};
use std::alloc::Global;

/// A kind of values: the set of the values that are of it.
#[cycle(kinds)]
#[derive(Drop)]
pub enum Kind {
    /// Every value.
    Any,
    /// No value. The items of an empty array are of this kind.
    Never,
    Nil,
    Bool,
    Integer,
    String,
    Bytes,
    Duration,
    Month,
    Weekday,
    DateTime,
    Timezone,
    /// An array, each of whose items is of a kind.
    Array(Boxed<Kind>),
    /// A map with names as keys.
    Map(Fields),
    /// A map with scalars as keys, each of whose values is of a kind.
    KeyedMap(Boxed<Kind>),
    /// A value of a kind, or nil.
    Nilable(Boxed<Kind>),
}

/// The names of a map, each with what stands there. Where `others` is `None`, nothing stands at any other name. Else a
/// value of that kind or nothing does.
#[cycle(kinds)]
#[derive(Drop)]
pub struct Fields {
    pub(crate) named: OrderedMap<Text, FieldKind>,
    pub(crate) others: Option<Boxed<Kind>>,
}

/// What stands at a name: a value of a kind, and if it isn't required maybe nothing.
#[cycle(kinds)]
#[derive(Drop)]
pub struct FieldKind {
    pub kind: Kind,
    pub required: bool,
}

impl Kind {
    /// Reads a kind from a text. No clause says which kind it is.
    ///
    /// # Errors
    ///
    /// Returns `Text` with the first fault of the text, or `Memory` if an allocation fails.
    pub fn parse(alloc: Global, text: &str) -> std::result::Result<Kind, SchemaError> {
        read_kind(alloc, text)
    }

    /// An array, each of whose items is of a kind.
    pub fn array(alloc: Global, item: Kind) -> Result<Kind>
        ensures ok { IfOk result (λ k. kind_view k ≡ array (kind_view item)) }
        ensures err { OnlyMemory result }
    {
        Ok(Kind::Array(Boxed::new(alloc, item)?))
    }

    /// A map with scalars as keys, each of whose values is of a kind.
    pub fn keyed_map(alloc: Global, item: Kind) -> Result<Kind>
        ensures ok { IfOk result (λ k. kind_view k ≡ keyed (kind_view item)) }
        ensures err { OnlyMemory result }
    {
        Ok(Kind::KeyedMap(Boxed::new(alloc, item)?))
    }

    /// A value of a kind, or nil. A kind that takes nil stays as it is.
    pub fn nilable(alloc: Global, kind: Kind) -> Result<Kind>
        ensures ok { IfOk result (λ k. (v : Value)
            → (HasKind (kind_view k) v ↔ HasKind (nilable (kind_view kind)) v)) }
        ensures err { OnlyMemory result }
    {
        if kind.takes_nil() {
            return Ok(kind);
        }
        match kind {
            Kind::Never => Ok(Kind::Nil),
            kind => Ok(Kind::Nilable(Boxed::new(alloc, kind)?)),
        }
    }

    /// Whether nil is of this kind.
    pub fn takes_nil(&self) -> bool
        ensures { IsTrue result ↔ HasKind (kind_view self.now) Nil }
    {
        matches!(self, Kind::Any | Kind::Nil | Kind::Nilable(_))
    }

    /// The kind without nil, if it takes nil beside other values.
    pub fn without_nil(&self) -> &Kind
        ensures values { (v : Value) → v ≢ Nil
            → (HasKind (kind_view self.now) v ↔ HasKind (kind_view result.now) v) }
        ensures fits { Fits (kind_view result.now) (kind_view self.now) }
        ensures core { ¬ IsNilable (kind_view result.now) }
    {
        let mut kind = self;
        while let Kind::Nilable(inner) = kind {
            kind = inner.get();
        }
        kind
    }
}

impl Fields {
    /// Nothing at any name.
    pub fn new(alloc: Global) -> Fields
        ensures { fields_view result ≡ no_others }
    {
        Fields {
            named: OrderedMap::new(alloc),
            others: None,
        }
    }

    /// What stands at a name, or `None` if no field has the name.
    pub fn get(&self, name: &str) -> Option<&FieldKind>
        ensures { option_map entry_view (option_copied result) ≡ find name.now (named_of self.now) }
    {
        self.named.get(name)
    }

    /// The kind of the values that may stand at the names that no field has, or `None` where nothing may.
    pub fn others(&self) -> Option<&Kind>
        ensures { option_map kind_view (option_copied result) ≡ others_of self.now }
    {
        match &self.others {
            Some(kind) => Some(kind.get()),
            None => None,
        }
    }

    /// Whether no field has a name.
    pub(crate) fn lacks(&self, name: &Text) -> bool
        ensures { IsTrue result ↔ (find name.now (named_of self.now) ≡ None) }
    {
        self.named.get_by_key(name).is_none()
    }

    /// The kind of the values that may stand at a name, or `None` where nothing may.
    pub(crate) fn wanted(&self, name: &Text) -> Option<&Kind> {
        match self.named.get_by_key(name) {
            Some(field) => Some(&field.kind),
            None => match &self.others {
                Some(kind) => Some(kind.get()),
                None => None,
            },
        }
    }

    /// Sets what stands at a name. If an allocation fails, the fields stay the same.
    pub fn insert(&mut self, name: Text, entry: FieldKind) -> Result<()>
        ensures ok { let e = entry_view entry in OnOk result
            (SameFields (fields_view self.new) (field name e.kind e.required (fields_view self.old))) }
        ensures err { OnErr result (self.new ≡ self.old) }
        ensures refusal { OnlyMemory result }
    {
        self.named.insert(name, entry)
    }

    /// Lets a value of a kind, or nothing, stand at each name that no field has.
    pub fn open(&mut self, alloc: Global, kind: Kind) -> Result<()>
        ensures ok { OnOk result
            (fields_view self.new ≡ fields_from (named_of self.old) (Some (kind_view kind))) }
        ensures err { OnErr result (self.new ≡ self.old) }
        ensures refusal { OnlyMemory result }
    {
        self.others = Some(Boxed::new(alloc, kind)?);
        Ok(())
    }
}
