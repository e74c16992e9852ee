//! What is still to be written of a text.
ghost use Rattle.std.specs.Prelude.{◌≡◌, ◌+◌, ◌++◌, ◌&&◌, OnOk};
ghost use Rattle.expr_text.specs.Parts as parts;
ghost use Rattle.expr_text.specs.Parts.{PutsParts};
ghost use Rattle.expr_functions.specs.Functions.{higher_order_named};

use expr_functions::HigherOrderCall;
use expr_tree::node::{Node, Program};
use expr_value::{Text, Value};
use std::alloc::AllocError;

/// Where a node stands in a text.
#[derive(Clone, Copy)]
pub(crate) struct Place {
    /// The least level that may begin here: the operator before it captures what is at least so tight. 0: nothing is
    /// before it.
    pub(crate) left: u8,
    /// The level of the operator that follows. 0: none follows.
    pub(crate) right: u8,
    /// Whether no name with `#` may be free in the node, since a call would promote it.
    pub(crate) is_hashless: bool,
}

impl Place {
    /// A place of its own: between brackets, commas or words.
    pub(crate) fn apart(is_hashless: bool) -> Place
        ensures { result ≡ parts.apart is_hashless }
    {
        Place {
            left: 0,
            right: 0,
            is_hashless,
        }
    }

    /// The place of an operand before an operator of a level.
    pub(crate) fn ahead(self, level: u8) -> Place
        ensures { result ≡ record { left = self.left; right = level; is_hashless = self.is_hashless } }
    {
        Place {
            left: self.left,
            right: level,
            is_hashless: self.is_hashless,
        }
    }

    /// The place of an operand behind an operator that captures what is at least so tight.
    pub(crate) fn behind(self, level: u8) -> Place
        ensures { result ≡ record { left = level; right = self.right; is_hashless = self.is_hashless } }
    {
        Place {
            left: level,
            right: self.right,
            is_hashless: self.is_hashless,
        }
    }
}

/// In which items no name with `#` may be free, since a call would promote them.
#[derive(Clone, Copy)]
pub(crate) enum Ban {
    None,
    All,
    Last,
    First,
    FirstTwo,
}

impl Ban {
    /// That of the arguments of a call without a predicate.
    pub(crate) fn of_call(name: &str, is_hashless: bool) -> Ban
        ensures { result ≡ parts.ban_of_call (higher_order_named name.now) is_hashless }
    {
        if is_hashless {
            return Ban::All;
        }
        match HigherOrderCall::from_name(name) {
            Some(HigherOrderCall::Reduce) => Ban::FirstTwo,
            Some(_) => Ban::Last,
            None => Ban::None,
        }
    }

    /// Of all items or of none.
    pub(crate) fn of_all(is_hashless: bool) -> Ban
        ensures { result ≡ parts.ban_of_all is_hashless }
    {
        if is_hashless { Ban::All } else { Ban::None }
    }

    /// Whether the first item is one of those.
    pub(crate) fn has_first(self, is_last: bool) -> bool
        ensures { result ≡ parts.bans_first self is_last }
    {
        match self {
            Ban::None => false,
            Ban::All | Ban::First | Ban::FirstTwo => true,
            Ban::Last => is_last,
        }
    }

    /// That of the items after the first.
    pub(crate) fn after_first(self) -> Ban
        ensures { result ≡ parts.ban_after self }
    {
        match self {
            Ban::First => Ban::None,
            Ban::FirstTwo => Ban::First,
            other => other,
        }
    }
}

/// A part of a text.
#[derive(Drop)]
pub(crate) enum Part<'a> {
    /// As it is.
    Text(&'a str),
    /// A string, in quotes.
    Quoted(&'a str),
    /// A bytes literal.
    Bytes(&'a [u8]),
    /// An integer literal.
    Integer(i64),
    /// A node.
    Node(&'a Node, Place),
    /// Items with commas between. A comma is before the first too, unless it is the first of all.
    Items(&'a [Node], Ban, bool),
    /// Keys of a map with their nodes, with commas like items. Whether no name with `#` may be free in them, and whether
    /// these are the first.
    Pairs(&'a [(String, Node)], bool, bool),
    /// Keys of a literal map and their values, with commas like items.
    Members(&'a [Text], &'a [Value], bool),
    /// A literal.
    Literal(&'a Value),
    /// Lines of a program, and whether no name with `#` may be free in them.
    Lines(&'a [(String, Node)], bool),
    /// A program, and whether no name with `#` may be free in it.
    Program(&'a Program, bool),
    /// What follows `else`, and whether no name with `#` may be free in it.
    Else(&'a Program, bool),
}

/// Puts a part on top of those that are pending.
pub(crate) fn put<'a>(part: Part<'a>, pending: &mut Vec<Part<'a>>) -> Result<(), AllocError>
    ensures { OnOk result (PutsParts pending.old.items pending.new.items
        (parts.text_of_part part.entry) (parts.part_stands part.entry) (parts.part_steps part.entry)) }
{
    pending.push(part)?;
    Ok(())
}

/// Puts three parts on top of those that are pending, the first uppermost.
pub(crate) fn put_three<'a>(
    first: Part<'a>,
    second: Part<'a>,
    third: Part<'a>,
    pending: &mut Vec<Part<'a>>,
) -> Result<(), AllocError>
    ensures { OnOk result (PutsParts pending.old.items pending.new.items
        (parts.text_of_part first.entry
        ++ (parts.text_of_part second.entry ++ parts.text_of_part third.entry))
        (parts.part_stands first.entry && (parts.part_stands second.entry && parts.part_stands third.entry))
        (parts.part_steps first.entry
        + (parts.part_steps second.entry + parts.part_steps third.entry))) }
{
    put(third, pending)?;
    put(second, pending)?;
    put(first, pending)?;
    Ok(())
}
