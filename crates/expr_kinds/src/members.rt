//! The check of fields, items and other parts of values.
ghost use Rattle.std.specs.Prelude.{◌≡◌, IfOk, IfSome};
ghost use Rattle.expr_error.specs.ErrorKind.{OnlyMemory};
ghost use Rattle.expr_kinds.specs.Checks.{Checks, PartFits};
ghost use Rattle.expr_kinds.specs.Scopes.{at_name};
ghost use Rattle.expr_schema.specs.KindView.{fields_view, kind_view};
ghost use Rattle.expr_schema.specs.Kinds.{Fits, map};
ghost use Rattle.expr_schema.specs.Scopes.{Scope};
ghost use Rattle.expr_tree.specs.Term.{Term, index, literal, postfix};
ghost use Rattle.expr_tree.specs.TermOf.{term_of};
ghost use Rattle.expr_value.specs.declared.value.Value.{String};

use crate::bases::fits_base;
use crate::checked::{Checked, joined_effect};
use crate::tables::Base;
use expr_schema::{Fields, Kind};
use expr_tree::node::Node;
use expr_value::{Result, Text, Value};
use std::alloc::Global;

/// The name that a node is, if it is a literal string.
pub(crate) fn literal_name(node: &Node) -> Option<&Text>
    ensures { IfSome result (λ n. term_of node.now ≡ literal (String n.now)) }
{
    match node {
        Node::Value(value) => match value {
            Value::String(text) => Some(text),
            _ => None,
        },
        _ => None,
    }
}

/// What is known of the field of a name. `a?.n` never fails: it is nil if `a` isn't a map.
pub(crate) fn member_checked(
    alloc: Global,
    name: &Text,
    optional: bool,
    operand: &Checked,
) -> Result<Checked>
    ensures ok { IfOk result (λ c. (s : Scope) (t : Term) → Checks operand.now s t
        → Checks c s (postfix (index (literal (String name.now)) optional) t)) }
    ensures err { OnlyMemory result }
{
    let effect = operand.effect;
    if let Some(fields) = fields_of(&operand.kind) {
        let kind = field_kind(alloc, fields, name)?;
        return Ok(Checked { kind, effect });
    }
    if !optional {
        return Ok(Checked::unknown());
    }
    if let Some(fields) = fields_of(operand.kind.without_nil()) {
        let part = field_kind(alloc, fields, name)?;
        let kind = Kind::nilable(alloc, part)?;
        return Ok(Checked { kind, effect });
    }
    Ok(Checked {
        kind: Kind::Any,
        effect,
    })
}

/// The fields of the maps that are of a kind.
fn fields_of(kind: &Kind) -> Option<&Fields>
    ensures { IfSome result (λ f. Fits (kind_view kind.now) (map (fields_view f.now))) }
{
    match kind {
        Kind::Map(fields) => Some(fields),
        _ => None,
    }
}

/// The kind of what stands at a name: nil, if nothing does.
fn field_kind(alloc: Global, fields: &Fields, name: &Text) -> Result<Kind>
    ensures ok { IfOk result (λ k. Fits (at_name (fields_view fields.now) name.now) (kind_view k)) }
    ensures err { OnlyMemory result }
{
    match fields.get(name.as_str()) {
        Some(field) => {
            let kind = field.kind.copy(alloc)?;
            if field.required {
                return Ok(kind);
            }
            let with_nil = Kind::nilable(alloc, kind)?;
            Ok(with_nil)
        }
        None => match fields.others() {
            Some(other) => {
                let kind = other.copy(alloc)?;
                let with_nil = Kind::nilable(alloc, kind)?;
                Ok(with_nil)
            }
            None => Ok(Kind::Nil),
        },
    }
}

/// What is known of the part at a key. With `?` it is no error if the operand has no parts.
pub(crate) fn part_checked(
    alloc: Global,
    key: &Checked,
    optional: bool,
    operand: &Checked,
) -> Result<Checked>
    ensures ok { IfOk result (λ c. (s : Scope) (t i : Term) → Checks operand.now s t → Checks key.now s i
        → Checks c s (postfix (index i optional) t)) }
    ensures err { OnlyMemory result }
{
    let effect = joined_effect(operand.effect, key.effect);
    let part = part_kind(alloc, &operand.kind, &key.kind)?;
    match part {
        Some(kind) => Ok(Checked { kind, effect }),
        None => {
            if optional {
                return Ok(Checked {
                    kind: Kind::Any,
                    effect,
                });
            }
            Ok(Checked::unknown())
        }
    }
}

/// The kind of the parts of the values of a kind at keys of a kind, or `None` if there may be none.
fn part_kind(alloc: Global, whole: &Kind, key: &Kind) -> Result<Option<Kind>>
    ensures ok { IfOk result (λ o. IfSome o (λ k. PartFits (kind_view whole.now) (kind_view key.now)
        (kind_view k))) }
    ensures err { OnlyMemory result }
{
    match whole {
        Kind::Array(item) => {
            if !fits_base(key, Base::Integer) {
                return Ok(None);
            }
            let kind = item.get().copy(alloc)?;
            let part = Kind::nilable(alloc, kind)?;
            Ok(Some(part))
        }
        Kind::Bytes => {
            if !fits_base(key, Base::Integer) {
                return Ok(None);
            }
            let part = Kind::nilable(alloc, Kind::Integer)?;
            Ok(Some(part))
        }
        Kind::KeyedMap(item) => {
            let kind = item.get().copy(alloc)?;
            let part = Kind::nilable(alloc, kind)?;
            Ok(Some(part))
        }
        _ => Ok(None),
    }
}
