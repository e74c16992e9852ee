//! Many top values at a time, the deepest of them first.
ghost use Rattle.std.specs.Prelude.{◌≡◌, ◌≤◌, [], Ok, IfOk, drop, length, option_map, reverse, take, vec_len};
ghost use Rattle.expr_operators.specs.OnOperands.{zip_names};
ghost use Rattle.expr_stack.specs.Cells.{cell_values, first_lent};
ghost use Rattle.expr_stack.specs.Pushes.{Pushes, OnMany};
ghost use Rattle.expr_error.specs.ErrorKind.{OnlyMemory};
ghost use Rattle.expr_value.specs.Names.{put_all};
ghost use Rattle.expr_value.specs.declared.value.Value as value;

use crate::stack::Stack;
use expr_arguments::CowValue;
use expr_value::{Items, Result, Text, Value, ValueMap};
use std::alloc::{Allocator, Global};

impl<'s, A: Allocator + Copy> Stack<'s, A> {
    /// Pops this many values to read them. Those in the kept list are borrowed from it.
    ///
    /// # Errors
    ///
    /// Returns `MemoryError` if an allocation fails.
    #[inline(never)]
    pub fn pop_many<'k>(
        &mut self,
        alloc: Global,
        kept: &'k [Value],
        count: usize,
    ) -> Result<Vec<CowValue<'k>>>
    where
        's: 'k,
        requires { count ≤ length self.old }
        ensures taken { OnMany count kept.now self.old
            (λ vs rest. IfOk result (λ hs. (hs.items ≡ vs) × (self.new ≡ rest))) }
        ensures refusal { OnlyMemory result }
    {
        let mut values = Vec::with_capacity(alloc, count)?;
        while values.len() < count {
            values.push_reserved(self.pop(kept));
        }
        values.reverse();
        Ok(values)
    }

    /// Pops this many values to hold them for longer than the kept list. Those in that list are copied. Beside them are
    /// the items of the deepest one, if that is an array that is borrowed: contracts don't see this of a `CowValue`.
    ///
    /// # Errors
    ///
    /// Returns `MemoryError` if an allocation fails.
    #[inline(never)]
    pub fn take_many(
        &mut self,
        alloc: Global,
        kept: &[Value],
        count: usize,
    ) -> Result<(Vec<CowValue<'s>>, Option<&'s Items<Value>>)>
        requires { count ≤ length self.old }
        ensures taken { OnMany count kept.now self.old
            (λ vs rest. IfOk result (λ got. (got.0.items ≡ vs) × (self.new ≡ rest))) }
        ensures lent { IfOk result (λ got. option_map (λ items. items.now) got.1
            ≡ first_lent (reverse (take count self.old))) }
        ensures refusal { OnlyMemory result }
    {
        let mut values = Vec::with_capacity(alloc, count)?;
        let mut lent = None;
        while values.len() < count {
            let top = self.take_top();
            lent = top.lent_items();
            values.push_reserved(top.to_cow_slow(kept)?);
        }
        values.reverse();
        Ok((values, lent))
    }

    /// Pops this many values to own them. Borrowed values and those in the kept list are copied.
    ///
    /// # Errors
    ///
    /// Returns `MemoryError` if an allocation fails.
    #[inline(never)]
    pub fn take_values(&mut self, alloc: Global, kept: &[Value], count: usize) -> Result<Vec<Value>>
        requires { count ≤ length self.old }
        ensures taken { OnMany count kept.now self.old
            (λ vs rest. IfOk result (λ got. (got.items ≡ vs) × (self.new ≡ rest))) }
        ensures refusal { OnlyMemory result }
    {
        let mut values = Vec::with_capacity(alloc, count)?;
        while values.len() < count {
            match self.take_integer_or_bool() {
                Some(value) => values.push_reserved(value),
                None => values.push_reserved(self.pop_other(kept)?),
            }
        }
        values.reverse();
        Ok(values)
    }

    /// Replaces this many top values by an array of them.
    ///
    /// # Errors
    ///
    /// Returns `MemoryError` if an allocation fails.
    #[inline(never)]
    pub fn collect(&mut self, alloc: Global, kept: &[Value], count: usize) -> Result<()>
        requires { count ≤ length self.old }
        ensures { OnMany count kept.now self.old
            (λ vs rest. Pushes result (λ a. a ≡ Ok (value.Array vs)) rest self.new) }
    {
        let values = self.take_values(alloc, kept, count)?;
        self.push_kept(Value::Array(Items::from_vec(values)))?;
        Ok(())
    }

    /// Replaces the top values, one for each key, by a map of them. A repeated key keeps its first position
    /// and takes the later value.
    ///
    /// # Errors
    ///
    /// Returns `MemoryError` if an allocation fails.
    #[inline(never)]
    pub fn gather(&mut self, alloc: Global, kept: &[Value], keys: Vec<Text>) -> Result<()>
        requires { vec_len keys ≤ length self.old }
        ensures { OnMany (vec_len keys) kept.now self.old
            (λ vs rest. Pushes result
            (λ a. a ≡ Ok (value.Map (put_all [] (zip_names keys.items vs)))) rest self.new) }
    {
        let values = self.take_values(alloc, kept, keys.len())?;
        let map = map_under(alloc, keys, values)?;
        self.push_kept(Value::Map(map))?;
        Ok(())
    }
}

/// The map of these values, each under its key.
///
/// # Errors
///
/// Returns `MemoryError` if an allocation fails.
pub fn map_under(alloc: Global, keys: Vec<Text>, values: Vec<Value>) -> Result<ValueMap>
    ensures ok { IfOk result (λ map. map ≡ put_all [] (zip_names keys.items values.items)) }
    ensures refusal { OnlyMemory result }
{
    let mut map = ValueMap::with_capacity(alloc, keys.len())?;
    for (key, value) in keys.into_iter().zip(values.into_iter()) {
        map.insert(key, value)?;
    }
    Ok(map)
}
