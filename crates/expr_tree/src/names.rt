//! The names that a program uses.
ghost use Rattle.std.specs.Prelude.{◌≡◌, ◌↔◌, ◌++◌, [], IsTrue, IfOk, OnOk, map, string_bytes};
ghost use Rattle.std.specs.List.{Contains};
ghost use Rattle.std.specs.List.Sorted.{IsStrictlySortedBy};
ghost use Rattle.std.specs.Cmp.Lexicographic.{slice_cmp};
ghost use Rattle.std.specs.Ordering.{nat_cmp};
ghost use Rattle.expr_tree.specs.Children.{children, own_name};
ghost use Rattle.expr_tree.specs.LentChildren.{lent_terms, maybe_child, program_children};
ghost use Rattle.expr_tree.specs.Names.{block_operands, env, has_env, AreNamesOf, with_name, with_names};
ghost use Rattle.expr_tree.specs.TermOf.{term_of, program_term};
ghost use Rattle.expr_error.specs.ErrorKind.{OnlyMemory};

use crate::children::{Children, children_of};
use crate::node::{Node, PostfixOperator, Program};
use expr_value::Result;
use std::alloc::{AllocError, Global};
use std::collections::BTreeSet;
use std::marker::Model;

impl Program {
    /// Each name, with or without `#`, that is an operand anywhere in the program. Each is there once, in byte order,
    /// and `$env` is left out.
    pub fn names(&self, alloc: Global) -> Result<Vec<String>>
        ensures ok { IfOk result (λ ns. AreNamesOf (map string_bytes ns.items) (program_term self.now)) }
        ensures err { OnlyMemory result }
    {
        names_within(self, alloc, Vec::new(alloc))
    }

    /// Whether `$env` is an operand anywhere in the program.
    ///
    /// # Errors
    ///
    /// Returns `MemoryError` if an allocation fails.
    pub fn uses_env(&self, alloc: Global) -> Result<bool>
        ensures ok { IfOk result (λ uses. IsTrue uses
            ↔ Contains (block_operands (program_term self.now)) env) }
        ensures err { OnlyMemory result }
    {
        env_is_within(self, Vec::new(alloc))
    }
}

// Collects the names in a program. `waiting` has room for the nodes that are still to be visited, and is empty. (It is
// a parameter because the borrow checker accepts a list of references behind `&mut` only if its lifetime is a
// parameter's.)
fn names_within<'a>(
    program: &'a Program,
    alloc: Global,
    mut waiting: Vec<&'a Node>,
) -> Result<Vec<String>>
    requires { waiting.items ≡ [] }
    ensures ok { IfOk result (λ ns. AreNamesOf (map string_bytes ns.items) (program_term program.now)) }
    ensures err { OnlyMemory result }
{
    let mut names = Names::new(alloc);
    wait_for_program(program, &mut waiting)?;
    while let Some(node) = waiting.pop() {
        gather(node, &mut names, &mut waiting)?;
    }
    Ok(names.into_vec()?)
}

// Looks for `$env` in a program. `waiting` has room for the nodes that are still to be visited, and is empty.
fn env_is_within<'a>(program: &'a Program, mut waiting: Vec<&'a Node>) -> Result<bool>
    requires { waiting.items ≡ [] }
    ensures ok { IfOk result (λ uses. IsTrue uses
        ↔ Contains (block_operands (program_term program.now)) env) }
    ensures err { OnlyMemory result }
{
    wait_for_program(program, &mut waiting)?;
    while let Some(node) = waiting.pop() {
        if is_env(node) {
            return Ok(true);
        }
        wait_for_children(node, &mut waiting)?;
    }
    Ok(false)
}

fn is_env(node: &Node) -> bool
    ensures { result ≡ has_env (own_name (term_of node.now)) }
{
    match children_of(node) {
        Children::Name(name) => name == "$env",
        _ => false,
    }
}

// Distinct names in byte order.
#[derive(Drop)]
struct Names {
    alloc: Global,
    set: BTreeSet<String>,
}

impl Model for Names {
    ghost use Rattle.std.specs.Prelude.{◌≡◌, List, ℕ, map, string_bytes};
    ghost use Rattle.std.specs.BTreeSet.{IsOrdered};
    ghost use Rattle.std.specs.String.{string_cmp};

    ghost Value = { List (List ℕ) };

    ghost view = { λ n. map string_bytes n.set.keys };

    ghost invariant = { λ n. IsOrdered string_cmp n.set };
}

impl Names {
    fn new(alloc: Global) -> Names
        ensures { result ≡ [] }
    {
        Names {
            alloc,
            set: BTreeSet::new(alloc),
        }
    }

    fn add(&mut self, name: &str) -> std::result::Result<(), AllocError>
        ensures { OnOk result (self.new ≡ with_name self.old name.now) }
    {
        if name == "$env" || self.set.contains(name) {
            return Ok(());
        }
        let name = String::from_str(self.alloc, name)?;
        self.set.insert(name)?;
        Ok(())
    }

    fn into_vec(self) -> std::result::Result<Vec<String>, AllocError>
        ensures names { IfOk result (λ ns. map string_bytes ns.items ≡ self) }
        ensures ascending { IfOk result
            (λ ns. IsStrictlySortedBy (slice_cmp nat_cmp) (map string_bytes ns.items)) }
    {
        let Names { alloc, set } = self;
        set.into_iter().collect(alloc)
    }
}

// Adds the name that the node is, and puts its children in the list of waiting nodes.
fn gather<'a>(
    node: &'a Node,
    names: &mut Names,
    waiting: &mut Vec<&'a Node>,
) -> std::result::Result<(), AllocError>
    ensures names { OnOk result (names.new ≡ with_names names.old (own_name (term_of node.now))) }
    ensures waiting { OnOk result (lent_terms waiting.new.items
        ≡ lent_terms waiting.old.items ++ children (term_of node.now)) }
{
    if let Children::Name(name) = children_of(node) {
        names.add(name)?;
    }
    wait_for_children(node, waiting)
}

// Puts the children of the node in the list of waiting nodes.
fn wait_for_children<'a>(
    node: &'a Node,
    waiting: &mut Vec<&'a Node>,
) -> std::result::Result<(), AllocError>
    ensures { OnOk result (lent_terms waiting.new.items
        ≡ lent_terms waiting.old.items ++ children (term_of node.now)) }
{
    match children_of(node) {
        Children::Name(_) => Ok(()),
        Children::Nodes(first, second, third) => {
            wait_for(first, waiting)?;
            wait_for(second, waiting)?;
            wait_for(third, waiting)
        }
        Children::Items(first, items, program) => {
            wait_for(first, waiting)?;
            wait_for_all(items, waiting)?;
            match program {
                None => Ok(()),
                Some(program) => wait_for_program(program, waiting),
            }
        }
        Children::Pairs(pairs) => wait_for_values(pairs, waiting),
        Children::Choice(condition, consequent, alternative) => {
            waiting.push(condition)?;
            wait_for_program(consequent, waiting)?;
            wait_for_program(alternative, waiting)
        }
    }
}

fn wait_for<'a>(
    node: Option<&'a Node>,
    waiting: &mut Vec<&'a Node>,
) -> std::result::Result<(), AllocError>
    ensures { OnOk result (lent_terms waiting.new.items
        ≡ lent_terms waiting.old.items ++ maybe_child node.entry) }
{
    match node {
        None => Ok(()),
        Some(node) => {
            waiting.push(node)?;
            Ok(())
        }
    }
}

fn wait_for_all<'a>(
    nodes: &'a [Node],
    waiting: &mut Vec<&'a Node>,
) -> std::result::Result<(), AllocError>
    ensures { OnOk result (lent_terms waiting.new.items
        ≡ lent_terms waiting.old.items ++ map term_of nodes.now) }
{
    for node in nodes {
        waiting.push(node)?;
    }
    Ok(())
}

fn wait_for_program<'a>(
    program: &'a Program,
    waiting: &mut Vec<&'a Node>,
) -> std::result::Result<(), AllocError>
    ensures { OnOk result (lent_terms waiting.new.items
        ≡ lent_terms waiting.old.items ++ program_children program.now) }
{
    wait_for_values(&program.lines, waiting)?;
    waiting.push(&program.expr)?;
    Ok(())
}

fn wait_for_values<'a>(
    named: &'a [(String, Node)],
    waiting: &mut Vec<&'a Node>,
) -> std::result::Result<(), AllocError>
    ensures { OnOk result (lent_terms waiting.new.items ≡ lent_terms waiting.old.items ++ map
        (λ l. term_of l.1) named.now) }
{
    for (_name, value) in named {
        waiting.push(value)?;
    }
    Ok(())
}
