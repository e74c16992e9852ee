//! Schemas: what a host says of its names and its functions.
ghost use Rattle.std.specs.Prelude.{◌≡◌, ◌↔◌, ℕ, List, Option, None, Some, MatchOption, OnErr, OnOk, IsTrue, bytes_eq, option_map, true, false, if◌then◌else◌};
ghost use Rattle.std.specs.Option.{option_copied};
ghost use Rattle.expr_context.specs.Contexts.{context_of};
ghost use Rattle.expr_error.specs.ErrorKind.{OnlyMemory};
ghost use Rattle.expr_schema.specs.KindView.{fields_view, kind_view, entry_view};
ghost use Rattle.expr_schema.specs.Kinds.{Present, SameFields, StandsAt, field, no_others};
ghost use Rattle.expr_schema.specs.SchemaView.{scope_of, signature_of};
ghost use Rattle.expr_schema.specs.Scopes.{AllStand, Conforms, MissingStand, ValueStands, ValuesStand};
ghost use Rattle.expr_value.specs.Names.{find};

use crate::admits::may_stand;
use crate::error::SchemaError;
use crate::kind::{FieldKind, Fields, Kind};
use crate::mismatch::Mismatch;
use crate::reader::read_fields;
use expr_context::Context;
use expr_value::{Items, OrderedMap, Result, Text};
use std::alloc::Global;

/// Which errors a function of a host may return.
#[derive(Clone, Copy, Debug, PartialEq, Eq)]
pub enum Effect {
    /// None, unless memory runs out.
    Total,
    /// That of a pattern that can't be built.
    Matching,
    /// Any.
    Failing,
}

/// What a host says of a function: the kinds of its arguments, the kind of its result, and which errors it may return.
#[derive(Drop)]
pub struct Signature {
    pub arguments: Items<Kind>,
    pub gives: Kind,
    pub effect: Effect,
}

/// What a host says of its contexts and its functions.
#[derive(Drop)]
pub struct Schema {
    pub(crate) names: Fields,
    functions: OrderedMap<Text, Signature>,
    alloc: Global,
}

impl Schema {
    /// A schema without names and functions.
    pub fn new(alloc: Global) -> Schema
        ensures names { (scope_of result).names ≡ no_others }
        ensures functions { (key : List ℕ) → (scope_of result).functions key ≡ None }
    {
        Schema {
            names: Fields::new(alloc),
            functions: OrderedMap::new(alloc),
            alloc,
        }
    }

    /// Reads a schema from a text. No clause says which schema it is.
    ///
    /// # Errors
    ///
    /// Returns `Text` with the first fault of the text, or `Memory` if an allocation fails.
    pub fn parse(alloc: Global, text: &str) -> std::result::Result<Schema, SchemaError> {
        let names = read_fields(alloc, text)?;
        Ok(Schema {
            names,
            functions: OrderedMap::new(alloc),
            alloc,
        })
    }

    /// Says that a name stands for a value of a kind. What was said of the name before is lost.
    pub fn name(&mut self, name: &str, kind: Kind) -> Result<()>
        ensures ok { OnOk result (SameFields (scope_of self.new).names
            (field name.now (kind_view kind) true (scope_of self.old).names)) }
        ensures err { OnErr result (scope_of self.new ≡ scope_of self.old) }
        ensures refusal { OnlyMemory result }
    {
        let name = Text::copy(self.alloc, name)?;
        let required = true;
        self.names.insert(name, FieldKind { kind, required })
    }

    /// Says that a name stands for a value of a kind, or for nothing. What was said of the name before is lost.
    pub fn optional(&mut self, name: &str, kind: Kind) -> Result<()>
        ensures ok { OnOk result (SameFields (scope_of self.new).names
            (field name.now (kind_view kind) false (scope_of self.old).names)) }
        ensures err { OnErr result (scope_of self.new ≡ scope_of self.old) }
        ensures refusal { OnlyMemory result }
    {
        let name = Text::copy(self.alloc, name)?;
        let required = false;
        self.names.insert(name, FieldKind { kind, required })
    }

    /// Says what a function takes and gives. What was said of the function before is lost.
    pub fn function(&mut self, name: &str, signature: Signature) -> Result<()>
        ensures ok { OnOk result ((key : List ℕ) → (scope_of self.new).functions key
            ≡ (if bytes_eq key name.now then Some (signature_of signature)
            else (scope_of self.old).functions key)) }
        ensures err { OnErr result (scope_of self.new ≡ scope_of self.old) }
        ensures refusal { OnlyMemory result }
    {
        let name = Text::copy(self.alloc, name)?;
        self.functions.insert(name, signature)
    }

    /// What is said of the names.
    pub fn names(&self) -> &Fields
        ensures { fields_view result.now ≡ (scope_of self.now).names }
    {
        &self.names
    }

    /// What is said of a function, or `None` if nothing is.
    pub fn signature(&self, name: &str) -> Option<&Signature>
        ensures { option_map signature_of (option_copied result) ≡ (scope_of self.now).functions name.now }
    {
        self.functions.get(name)
    }

    /// The first name of which a context doesn't keep to the schema, or `None` if the context keeps to it. Each value is
    /// looked at once, and nothing is allocated.
    pub fn mismatch<'a>(&'a self, context: &'a Context) -> Option<Mismatch<'a>>
        ensures { MatchOption result (Conforms (scope_of self.now) (context_of context.now))
            (λ m. ¬ StandsAt (scope_of self.now).names m.name.now (find m.name.now context.now)) }
    {
        fields_mismatch(context, &self.names)
    }

    /// Whether a context keeps to the schema: at each name stands what the schema says, and nothing at any other name,
    /// unless the schema is open.
    pub fn admits(&self, context: &Context) -> bool
        ensures { IsTrue result ↔ Conforms (scope_of self.now) (context_of context.now) }
    {
        self.mismatch(context).is_none()
    }
}

/// The first name of which a context doesn't keep to fields.
pub(crate) fn fields_mismatch<'a>(context: &'a Context, fields: &'a Fields) -> Option<Mismatch<'a>>
    ensures { MatchOption result (AllStand (fields_view fields.now) context.now)
        (λ m. ¬ StandsAt (fields_view fields.now) m.name.now (find m.name.now context.now)) }
{
    match value_mismatch(context, fields) {
        Some(mismatch) => Some(mismatch),
        None => missing_mismatch(context, fields),
    }
}

/// The first name of a context whose value may not stand there.
fn value_mismatch<'a>(context: &'a Context, fields: &'a Fields) -> Option<Mismatch<'a>>
    ensures { MatchOption result (ValuesStand (fields_view fields.now) context.now)
        (λ m. ¬ StandsAt (fields_view fields.now) m.name.now (find m.name.now context.now)) }
{
    for (name, _) in context.iter() {
        if let Some(mismatch) = mismatch_at(context, name, fields) {
            return Some(mismatch);
        }
    }
    None
}

/// A name, if the value of the context may not stand there.
fn mismatch_at<'a>(context: &'a Context, name: &'a Text, fields: &'a Fields) -> Option<Mismatch<'a>>
    ensures { MatchOption result (ValueStands (fields_view fields.now) context.now name.now)
        (λ m. ¬ StandsAt (fields_view fields.now) m.name.now (find m.name.now context.now)) }
{
    match context.get(name.as_str()) {
        Some(value) => {
            if may_stand(value, name, fields) {
                return None;
            }
            Some(Mismatch::at(name, Some(value), fields.wanted(name)))
        }
        None => None,
    }
}

/// The first name at which a value has to stand, and none does.
fn missing_mismatch<'a>(context: &'a Context, fields: &'a Fields) -> Option<Mismatch<'a>>
    ensures { MatchOption result (MissingStand (fields_view fields.now) context.now)
        (λ m. ¬ StandsAt (fields_view fields.now) m.name.now (find m.name.now context.now)) }
{
    let names = fields.named.keys();
    let entries = fields.named.values();
    for i in 0..entries.len() {
        let name = &names[i];
        let entry = &entries[i];
        if lacks_required(context, name, entry) {
            return Some(Mismatch::at(name, None, Some(&entry.kind)));
        }
    }
    None
}

/// Whether a field is required and a context has no value of its name.
fn lacks_required(context: &Context, name: &Text, entry: &FieldKind) -> bool
    ensures yes { IsTrue result → ¬ Present (entry_view entry.now).required (find name.now context.now) }
    ensures no { ¬ IsTrue result → Present (entry_view entry.now).required (find name.now context.now) }
{
    entry.required && context.get(name.as_str()).is_none()
}
