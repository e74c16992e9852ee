//! What programs and code come to, whichever call made them. `answer_of` takes anything that has an answer, so that few functions own
//! a tree.
use expr::{Code, Context, Pattern, Pointer, Program, Result, Value, execute, run};
use std::alloc::Global;

/// What has an answer among names.
pub trait HasAnswer {
    fn answer(&self, alloc: Global, context: &Context) -> Result<Value>;
}

impl HasAnswer for Program {
    fn answer(&self, alloc: Global, context: &Context) -> Result<Value> {
        run(alloc, self, context)
    }
}

impl<L: Pointer<Value>, N: Pointer<String>, P: Pointer<Pattern>> HasAnswer for Code<L, N, P> {
    fn answer(&self, alloc: Global, context: &Context) -> Result<Value> {
        execute(alloc, self, context)
    }
}

/// What a thing that was made comes to.
pub fn answer_of<T: HasAnswer + Drop>(
    alloc: Global,
    context: &Context,
    made: Result<T>,
) -> Result<Value> {
    let thing = made?;
    thing.answer(alloc, context)
}
