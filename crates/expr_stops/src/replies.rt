//! The host's replies to calls of its functions.
ghost use Rattle.std.specs.Prelude.{◌≡◌, string_bytes};
ghost use Rattle.expr_stops.specs.Stops.{answer_of, is_to};
ghost use Rattle.expr_value.specs.Answers.{ReturnsExactly};

use expr_meaning::ExprCall;
use expr_value::{Error, Result, Value};

/// A host's reply to a call of its function.
#[derive(Drop)]
pub enum Reply {
    Value(Value),
    /// The function fails, with this message.
    Refusal(String),
}

impl Reply {
    /// The reply as the result of the call.
    ///
    /// # Errors
    ///
    /// Returns `ExprError` with the message if the function failed, and `MemoryError` if an allocation fails.
    pub fn result(&self) -> Result<Value>
        ensures { ReturnsExactly result (answer_of self.now) }
    {
        match self {
            Reply::Value(value) => Ok(value.clone()?),
            Reply::Refusal(text) => Err(Error::ExprError(text.clone()?)),
        }
    }
}

/// A call of a host's function, and the host's reply.
#[derive(Drop)]
pub struct CallReply {
    pub call: ExprCall,
    pub reply: Reply,
}

impl CallReply {
    /// Whether the reply belongs to this call: the names are the same, and the arguments are equal.
    pub fn is_to(&self, call: &ExprCall) -> bool
        ensures { result ≡ is_to self.now (string_bytes call.now.ident) call.now.args.items }
    {
        self.call.ident == call.ident && self.call.args == call.args
    }
}
