//! What code needs from its host.
ghost use Rattle.std.specs.Prelude.{◌≡◌, ◌&&◌, ◌||◌, ℕ, List, IfOk, OnOk, bytes_eq, map, string_bytes};
ghost use Rattle.std.specs.List.{list_any};
ghost use Rattle.std.specs.Option.{option_copied};
ghost use Rattle.expr_error.specs.ErrorKind.{OnlyMemory};
ghost use Rattle.expr_code.specs.InMemory.{op_of};
ghost use Rattle.expr_lowering.specs.Blocks.{blocks_of};
ghost use Rattle.expr_lowering.specs.Owned.{own_text, own_value};
ghost use Rattle.expr_lowering.specs.HostNeeds.{AreFunctionsOf, AreMissing, name_if_any, with_nil};
ghost use Rattle.expr_lowering.specs.Sought.{lacks, sought_by, sought_in_all, sought_in_block};
ghost use Rattle.expr_lowering.specs.declared.needs.Sought.TheVariants.{Names};

use crate::kept::OwnedCode;
use crate::name_set::NameSet;
use expr_code::{Block, Instruction};
use expr_context::Context;
use expr_pattern::Pattern;
use expr_value::{Result, Value};
use std::alloc::{AllocError, Global};

type OwnInstruction = Instruction<Box<Value>, Box<String>, Box<Pattern>>;

type OwnBlock = Block<Box<Value>, Box<String>, Box<Pattern>>;

/// What to collect from code.
#[derive(Clone, Copy)]
pub(crate) enum Sought {
    /// The functions that it calls.
    Functions,
    /// The names that it looks up.
    Names,
}

/// The distinct names of the functions that code calls, in byte order. They include built-ins but not
/// methods.
///
/// # Errors
///
/// Returns `MemoryError` if an allocation fails.
pub fn functions_of(alloc: Global, code: &OwnedCode) -> Result<Vec<String>>
    ensures ok { IfOk result (λ ns. AreFunctionsOf (map string_bytes ns.items)
        (blocks_of own_value own_text code.now)) }
    ensures err { OnlyMemory result }
{
    let mut names = NameSet::new(alloc);
    add_of_block(&code.first, Sought::Functions, &mut names)?;
    add_of_blocks(&code.later, Sought::Functions, &mut names)?;
    Ok(names.into_vec()?)
}

/// The distinct names that code looks up only outside of its predicates and that a context doesn't have, in
/// byte order.
///
/// # Errors
///
/// Returns `MemoryError` if an allocation fails.
pub fn missing_names(alloc: Global, code: &OwnedCode, context: &Context) -> Result<Vec<String>>
    ensures ok { IfOk result (λ ns. AreMissing (blocks_of own_value own_text code.now) context.now
        (map string_bytes ns.items)) }
    ensures err { OnlyMemory result }
{
    let mut in_predicates = NameSet::new(alloc);
    add_of_blocks(&code.later, Sought::Names, &mut in_predicates)?;
    let mut missing = NameSet::new(alloc);
    add_missing(&code.first, &in_predicates, context, &mut missing)?;
    Ok(missing.into_vec()?)
}

/// Sets each of these names to nil in a context, in this order. A name that it has keeps its position and
/// loses its value.
///
/// # Errors
///
/// Returns `MemoryError` if an allocation fails.
pub fn with_nil(context: Context, names: Vec<String>) -> Result<Context>
    ensures ok { IfOk result (λ filled. filled ≡ with_nil (map string_bytes names.items) context) }
    ensures err { OnlyMemory result }
{
    let mut filled = context;
    for name in names {
        filled.insert(name, Value::Nil)?;
    }
    Ok(filled)
}

/// Adds the names that a block looks up, except those of predicates and those that a context has.
fn add_missing(
    block: &[OwnInstruction],
    in_predicates: &NameSet,
    context: &Context,
    missing: &mut NameSet,
) -> std::result::Result<(), AllocError>
    ensures { OnOk result ((name : List ℕ) → list_any (bytes_eq name) missing.new
        ≡ (list_any (bytes_eq name) missing.old || (list_any (bytes_eq name) (sought_in_block Names block.now)
        && lacks name in_predicates.now context.now))) }
{
    for instruction in block {
        add_if_missing(instruction, in_predicates, context, missing)?;
    }
    Ok(())
}

/// Adds the name that an instruction looks up, except one of predicates and one that a context has.
fn add_if_missing(
    instruction: &OwnInstruction,
    in_predicates: &NameSet,
    context: &Context,
    missing: &mut NameSet,
) -> std::result::Result<(), AllocError>
    ensures { OnOk result ((name : List ℕ) → list_any (bytes_eq name) missing.new
        ≡ (list_any (bytes_eq name) missing.old
        || (list_any (bytes_eq name) (sought_by Names (op_of own_value own_text instruction.now))
        && lacks name in_predicates.now context.now))) }
{
    match sought_in(instruction, Sought::Names) {
        Some(name) => {
            if lacks(name, in_predicates, context) {
                return missing.add(name);
            }
            Ok(())
        }
        None => Ok(()),
    }
}

/// Whether a name is neither one of predicates nor in the context.
fn lacks(name: &str, in_predicates: &NameSet, context: &Context) -> bool
    ensures { result ≡ lacks name.now in_predicates.now context.now }
{
    !in_predicates.has(name) && context.get(name).is_none()
}

/// Adds the names of this sort in blocks.
fn add_of_blocks(
    blocks: &[OwnBlock],
    sought: Sought,
    names: &mut NameSet,
) -> std::result::Result<(), AllocError>
    ensures { OnOk result ((name : List ℕ) → list_any (bytes_eq name) names.new
        ≡ (list_any (bytes_eq name) names.old
        || list_any (bytes_eq name) (sought_in_all sought blocks.now))) }
{
    for block in blocks {
        add_of_block(block, sought, names)?;
    }
    Ok(())
}

/// Adds the names of this sort in a block.
fn add_of_block(
    block: &[OwnInstruction],
    sought: Sought,
    names: &mut NameSet,
) -> std::result::Result<(), AllocError>
    ensures { OnOk result ((name : List ℕ) → list_any (bytes_eq name) names.new
        ≡ (list_any (bytes_eq name) names.old
        || list_any (bytes_eq name) (sought_in_block sought block.now))) }
{
    for instruction in block {
        add_of_instruction(instruction, sought, names)?;
    }
    Ok(())
}

/// Adds the name of this sort in an instruction, if it has one.
fn add_of_instruction(
    instruction: &OwnInstruction,
    sought: Sought,
    names: &mut NameSet,
) -> std::result::Result<(), AllocError>
    ensures { OnOk result ((name : List ℕ) → list_any (bytes_eq name) names.new
        ≡ (list_any (bytes_eq name) names.old
        || list_any (bytes_eq name) (sought_by sought (op_of own_value own_text instruction.now)))) }
{
    match sought_in(instruction, sought) {
        Some(name) => names.add(name),
        None => Ok(()),
    }
}

/// The name of this sort in an instruction, if it has one.
fn sought_in(instruction: &OwnInstruction, sought: Sought) -> Option<&str>
    ensures { name_if_any (option_copied result)
        ≡ sought_by sought (op_of own_value own_text instruction.now) }
{
    match sought {
        Sought::Functions => match instruction {
            Instruction::Call(name, _) => Some(name.as_str()),
            Instruction::CallWith(call) => Some(call.name.as_str()),
            _ => None,
        },
        Sought::Names => match instruction {
            Instruction::Name(name) => Some(name.as_str()),
            Instruction::NameAt(name, _) => Some(name.as_str()),
            _ => None,
        },
    }
}
