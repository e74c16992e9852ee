//! The places of nodes in the order in which the text completes them.

ghost use Rattle.std.specs.Prelude.{◌≤◌};

use crate::places::Place;
use expr_functions::HigherOrderCall;
use std::alloc::{AllocError, Global};

/// The place of a node, or of a predicate in braces.
#[derive(Clone, Copy)]
pub(crate) struct Mark {
    pub(crate) place: Place,
    /// Number of marks right before it that are inside it.
    inside: usize,
    /// Whether a `#` is free in it.
    is_free: bool,
    pub(crate) is_braces: bool,
}

/// Where a node begins: its offset, and the number of marks before those inside it.
#[derive(Clone, Copy)]
pub(crate) struct Beginning {
    pub(crate) start: usize,
    pub(crate) first: usize,
}

/// The marks of a text.
#[derive(Drop)]
pub(crate) struct Marks {
    alloc: Global,
    marks: Vec<Mark>,
}

impl Marks {
    pub(crate) fn new(alloc: Global) -> Marks {
        Marks {
            alloc,
            marks: Vec::new(alloc),
        }
    }

    pub(crate) fn len(&self) -> usize {
        self.marks.len()
    }

    pub(crate) fn get(&self, root: usize) -> Option<Mark> {
        self.marks.get(root).copied()
    }

    /// A beginning at an offset, before any mark inside.
    pub(crate) fn beginning(&self, start: usize) -> Beginning {
        Beginning {
            start,
            first: self.len(),
        }
    }

    /// A node without parts.
    pub(crate) fn leaf(&mut self, place: Place, is_free: bool) -> Result<Beginning, AllocError> {
        let begun = self.beginning(place.start);
        self.put(begun, place.end, is_free, false)?;
        Ok(begun)
    }

    /// A node whose parts are the marks since its beginning.
    pub(crate) fn node(&mut self, begun: Beginning, end: usize) -> Result<(), AllocError> {
        let is_free = self.is_free_since(begun.first);
        self.put(begun, end, is_free, false)
    }

    /// A predicate in braces.
    pub(crate) fn braces(&mut self, begun: Beginning, end: usize) -> Result<(), AllocError> {
        self.put(begun, end, false, true)
    }

    /// A call, whose arguments and predicates are the marks since its beginning.
    pub(crate) fn call(
        &mut self,
        begun: Beginning,
        end: usize,
        call: Option<HigherOrderCall>,
    ) -> Result<(), AllocError> {
        let parts = self.parts(begun.first, self.len())?;
        let predicate = self.predicate(&parts, call);
        let is_free = self.is_free_beside(&parts, predicate);
        self.put(begun, end, is_free, false)
    }

    fn put(
        &mut self,
        begun: Beginning,
        end: usize,
        is_free: bool,
        is_braces: bool,
    ) -> Result<(), AllocError> {
        let place = Place {
            start: begun.start,
            end,
        };
        let inside = self.len().saturating_sub(begun.first);
        self.marks.push(Mark {
            place,
            inside,
            is_free,
            is_braces,
        })?;
        Ok(())
    }

    /// The first of the marks inside this one, or the mark itself.
    pub(crate) fn first_inside(&self, root: usize) -> usize
        ensures { result ≤ root }
    {
        match self.marks.get(root) {
            Some(mark) => root.saturating_sub(mark.inside),
            None => root,
        }
    }

    /// The marks from one to another, without those inside them, from the last to the first.
    pub(crate) fn parts(&self, first: usize, end: usize) -> Result<Vec<usize>, AllocError> {
        let mut parts = Vec::new(self.alloc);
        let mut end = end;
        while end > first {
            let root = end - 1;
            parts.push(root)?;
            end = self.first_inside(root);
        }
        Ok(parts)
    }

    /// The parts of a call with a predicate, from the last to the first: those of the predicate, and then the arguments.
    pub(crate) fn parts_of_call(
        &self,
        root: usize,
        call: Option<HigherOrderCall>,
    ) -> Result<Vec<usize>, AllocError> {
        let parts = self.parts(self.first_inside(root), root)?;
        let predicate = self.predicate(&parts, call);
        let mut ordered = self.parts_of_predicate(&parts, predicate)?;
        for (at, root) in parts.iter().enumerate() {
            if Some(at) != predicate && !self.is_braces(*root) {
                ordered.push(*root)?;
            }
        }
        Ok(ordered)
    }

    fn parts_of_predicate(
        &self,
        parts: &[usize],
        predicate: Option<usize>,
    ) -> Result<Vec<usize>, AllocError> {
        let mut found = Vec::new(self.alloc);
        let Some(at) = predicate else {
            return Ok(found);
        };
        let Some(root) = parts.get(at) else {
            return Ok(found);
        };
        if self.is_braces(*root) {
            return self.parts(self.first_inside(*root), *root);
        }
        found.push(*root)?;
        Ok(found)
    }

    fn is_free_since(&self, first: usize) -> bool {
        let mut end = self.len();
        while end > first {
            let root = end - 1;
            if self.is_free(root) {
                return true;
            }
            end = self.first_inside(root);
        }
        false
    }

    fn is_free(&self, root: usize) -> bool {
        match self.marks.get(root) {
            Some(mark) => mark.is_free,
            None => false,
        }
    }

    fn is_braces(&self, root: usize) -> bool {
        match self.marks.get(root) {
            Some(mark) => mark.is_braces,
            None => false,
        }
    }

    fn is_free_beside(&self, parts: &[usize], predicate: Option<usize>) -> bool {
        for (at, root) in parts.iter().enumerate() {
            if Some(at) != predicate && self.is_free(*root) {
                return true;
            }
        }
        false
    }

    fn braces_in(&self, parts: &[usize]) -> Option<usize> {
        for (at, root) in parts.iter().enumerate() {
            if self.is_braces(*root) {
                return Some(at);
            }
        }
        None
    }

    /// The index of a call's predicate among its parts, which are from the last to the first.
    pub(crate) fn predicate(
        &self,
        parts: &[usize],
        call: Option<HigherOrderCall>,
    ) -> Option<usize> {
        if let Some(at) = self.braces_in(parts) {
            return Some(at);
        }
        match call {
            None => None,
            Some(HigherOrderCall::Reduce) => self.reducer(parts),
            Some(_) => self.free_at(parts, 0),
        }
    }

    fn reducer(&self, parts: &[usize]) -> Option<usize> {
        let second = parts.len().checked_sub(2)?;
        self.free_at(parts, second)
            .or(self.free_at(parts, second + 1))
    }

    fn free_at(&self, parts: &[usize], at: usize) -> Option<usize> {
        let root = *parts.get(at)?;
        if self.is_free(root) { Some(at) } else { None }
    }
}
