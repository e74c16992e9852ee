//! The names and functions that a rule asks for.
ghost use Rattle.std.specs.Prelude.{◌≡◌, ◌++◌, ◌∷◌, [], IfOk, OnOk, bytes_eq, map, option_map, string_bytes};
ghost use Rattle.std.specs.BTreeSet.{IsOrdered, insert_key};
ghost use Rattle.std.specs.Cmp.Lexicographic.{slice_cmp};
ghost use Rattle.std.specs.List.{list_any};
ghost use Rattle.std.specs.Ordering.{nat_cmp};
ghost use Rattle.std.specs.String.{string_cmp};
ghost use Rattle.expr_error.specs.ErrorKind.{OnlyMemory};
ghost use Rattle.expr_rules.specs.Needs.{AreAskedBy, AreDistinct, asked_by_block, by_call, by_name};
ghost use Rattle.expr_rules.specs.Tasks.{HasSame, TakesUp, hidden, if_any, is_hidden, own_asked};
ghost use Rattle.expr_rules.specs.declared.needs.NeedKind.TheVariants as NeedKind;
ghost use Rattle.expr_tree.specs.TermOf.{program_term, term_of};

use crate::tasks::{Task, put_parts, put_program, split_items, split_lines, split_pairs};
use expr_functions::Builtin;
use expr_tree::node::{Node, Program};
use expr_value::Result;
use std::alloc::{AllocError, Global};
use std::collections::BTreeSet;

/// What to look for in a program.
#[derive(Clone, Copy, Debug, PartialEq, Eq)]
pub enum NeedKind {
    /// The names that it looks up in its context.
    Names,
    /// The functions that it calls and that aren't built in.
    Functions,
}

/// What a program asks its host for. Each name is there once, in byte order.
#[derive(Debug, Drop)]
pub struct Needs {
    /// The names that it looks up, `$env` among them. In a predicate, a name may also be a field of the item. Names
    /// that its lines bind, and those with `#`, are left out.
    pub names: Vec<String>,
    /// The functions that it calls and that aren't built in.
    pub functions: Vec<String>,
}

/// What a program asks its host for.
///
/// # Errors
///
/// Returns `MemoryError` if an allocation fails.
pub fn needs_of(alloc: Global, program: &Program) -> Result<Needs>
    ensures names { IfOk result (λ needs. AreAskedBy NeedKind.Names (map string_bytes needs.names.items)
        (program_term program.now)) }
    ensures functions { IfOk result (λ needs. AreAskedBy NeedKind.Functions
        (map string_bytes needs.functions.items) (program_term program.now)) }
    ensures err { OnlyMemory result }
{
    Ok(Needs {
        names: asked_by(alloc, program, NeedKind::Names)?,
        functions: asked_by(alloc, program, NeedKind::Functions)?,
    })
}

/// What a program asks for.
fn asked_by(alloc: Global, program: &Program, asked: NeedKind) -> Result<Vec<String>>
    ensures ok { IfOk result (λ names. AreAskedBy asked (map string_bytes names.items)
        (program_term program.now)) }
    ensures err { OnlyMemory result }
{
    let scope = Vec::new(alloc);
    let found = Vec::new(alloc);
    let pending = Vec::new(alloc);
    let found = found_in(program, asked, scope, found, pending)?;
    Ok(distinct(alloc, &found)?)
}

// All that a program asks for, in order. `scope` has room for the names of lines, the last one last, `found` for what is
// found, and `pending` for what is still to be looked at, the next one last. They are empty. (They are parameters because
// the borrow checker accepts a list of references behind `&mut` only if its lifetime is a parameter's.)
fn found_in<'a>(
    program: &'a Program,
    asked: NeedKind,
    mut scope: Vec<&'a str>,
    mut found: Vec<&'a str>,
    mut pending: Vec<Task<'a>>,
) -> std::result::Result<Vec<&'a str>, AllocError>
    requires scope { scope.items ≡ [] }
    requires found { found.items ≡ [] }
    requires pending { pending.items ≡ [] }
    ensures { IfOk result (λ found. map (λ name. name.now) found.items
        ≡ asked_by_block asked (program_term program.now)) }
{
    put_program(program, &mut pending)?;
    while let Some(task) = pending.pop() {
        take_up(task, asked, &mut scope, &mut found, &mut pending)?;
    }
    Ok(found)
}

/// Looks at what comes next.
fn take_up<'a>(
    task: Task<'a>,
    asked: NeedKind,
    scope: &mut Vec<&'a str>,
    found: &mut Vec<&'a str>,
    pending: &mut Vec<Task<'a>>,
) -> std::result::Result<(), AllocError>
    ensures { OnOk result (TakesUp asked task.entry
        (map (λ key. key.now) scope.old.items) (map (λ key. key.now) found.old.items) pending.old.items
        (map (λ key. key.now) scope.new.items) (map (λ key. key.now) found.new.items) pending.new.items) }
{
    match task {
        Task::Node(node) => {
            note(node, asked, scope, found)?;
            put_parts(node, pending)
        }
        Task::Items(items) => split_items(items, pending),
        Task::Pairs(pairs) => split_pairs(pairs, pending),
        Task::Lines(lines, last) => split_lines(lines, last, pending),
        Task::Bind(name) => {
            scope.push(name)?;
            Ok(())
        }
        Task::Unbind => {
            scope.pop();
            Ok(())
        }
    }
}

/// Adds what a node asks for by itself, unless it is the name of a line before.
fn note<'a>(
    node: &'a Node,
    asked: NeedKind,
    scope: &[&'a str],
    found: &mut Vec<&'a str>,
) -> std::result::Result<(), AllocError>
    ensures { OnOk result (map (λ key. key.now) found.new.items
        ≡ map (λ key. key.now) found.old.items
        ++ hidden asked (map (λ key. key.now) scope.now) (own_asked asked (term_of node.now))) }
{
    match own_asked(node, asked) {
        None => Ok(()),
        Some(name) => add_unless_hidden(name, asked, scope, found),
    }
}

/// Adds a name, unless it is that of a line before.
fn add_unless_hidden<'a>(
    name: &'a str,
    asked: NeedKind,
    scope: &[&'a str],
    found: &mut Vec<&'a str>,
) -> std::result::Result<(), AllocError>
    ensures { OnOk result (map (λ key. key.now) found.new.items
        ≡ map (λ key. key.now) found.old.items
        ++ hidden asked (map (λ key. key.now) scope.now) (name.now ∷ [])) }
{
    if !is_hidden(name, asked, scope) {
        found.push(name)?;
    }
    Ok(())
}

/// What a node asks for by itself.
fn own_asked<'a>(node: &'a Node, asked: NeedKind) -> Option<&'a str>
    ensures { if_any (option_map (λ name. name.now) result) ≡ own_asked asked (term_of node.now) }
{
    match node {
        Node::Ident(name) => by_name(name, asked),
        Node::Func {
            ident,
            args: _,
            predicate: _,
        } => by_call(ident, asked),
        _ => None,
    }
}

/// What a name asks for. One with `#` is a predicate's own.
fn by_name(name: &str, asked: NeedKind) -> Option<&str>
    ensures { if_any (option_map (λ name. name.now) result) ≡ by_name asked name.now }
{
    match asked {
        NeedKind::Names => {
            if name.as_bytes().starts_with(b"#") {
                return None;
            }
            Some(name)
        }
        NeedKind::Functions => None,
    }
}

/// What a call of a function asks for by itself.
fn by_call(name: &str, asked: NeedKind) -> Option<&str>
    ensures { if_any (option_map (λ name. name.now) result) ≡ by_call asked name.now }
{
    match asked {
        NeedKind::Names => None,
        NeedKind::Functions => {
            if Builtin::from_name(name).is_some() {
                return None;
            }
            Some(name)
        }
    }
}

/// Whether a name is that of a line before.
fn is_hidden(name: &str, asked: NeedKind, scope: &[&str]) -> bool
    ensures { result ≡ is_hidden asked (map (λ key. key.now) scope.now) name.now }
{
    match asked {
        NeedKind::Names => holds(scope, name),
        NeedKind::Functions => false,
    }
}

/// Whether a name is among these.
fn holds(names: &[&str], name: &str) -> bool
    ensures { result ≡ list_any (λ key. bytes_eq name.now key.now) names.now }
{
    names.iter().any(|held| name == *held)
}

/// Each of some names once, in byte order.
fn distinct(alloc: Global, names: &[&str]) -> std::result::Result<Vec<String>, AllocError>
    ensures { IfOk result (λ sorted. AreDistinct (map string_bytes sorted.items)
        (map (λ name. name.now) names.now)) }
{
    let set = set_of(alloc, names)?;
    set.into_iter().collect(alloc)
}

/// A set of some names.
fn set_of(alloc: Global, names: &[&str]) -> std::result::Result<BTreeSet<String>, AllocError>
    ensures { IfOk result (λ set. HasSame set.keys (map (λ name. name.now) names.now)) }
{
    let mut set = BTreeSet::new(alloc);
    for name in names {
        add_name(alloc, &mut set, *name)?;
    }
    Ok(set)
}

/// Adds a copy of a name, if it isn't there yet.
fn add_name(
    alloc: Global,
    set: &mut BTreeSet<String>,
    name: &str,
) -> std::result::Result<(), AllocError>
    requires { IsOrdered string_cmp set.old }
    ensures ordered { IsOrdered string_cmp set.new }
    ensures added { OnOk result (map string_bytes set.new.keys
        ≡ insert_key (slice_cmp nat_cmp) (map string_bytes set.old.keys) name.now) }
{
    if set.contains(name) {
        return Ok(());
    }
    let name = String::from_str(alloc, name)?;
    set.insert(name)?;
    Ok(())
}
