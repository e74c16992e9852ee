//! Functions that a host adds to an environment.
use expr_meaning::ExprCall;
use expr_value::{Result, Value};

/// A function that a host adds: a closure that takes the name and the arguments of a call.
pub type Function = Box<dyn Fn(ExprCall) -> Result<Value>>;

/// A function that accepts any arguments.
#[derive(Drop)]
pub struct BoxedFunction {
    pub function: Function,
    ghost callable: { Function.IsAlwaysCallable function },
}

impl BoxedFunction {
    /// Calls the function. Returns its value or its error.
    pub fn call(&self, call: ExprCall) -> Result<Value>
        ensures { Function.post self.now.function call result }
    {
        (self.function)(call)
    }
}
