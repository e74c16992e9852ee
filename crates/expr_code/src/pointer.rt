//! Owned and borrowed parts of code.
ghost use Rattle.std.specs.Prelude.{◌≡◌};

use expr_value::Value;

/// A pointer to a literal, a name or a pattern. The code owns it in a box, or borrows it.
pub trait Pointer<T> {
    /// The part that it points to.
    ghost held: { Self → T };

    /// The part that it points to.
    fn get(&self) -> &T
        ensures { result.now ≡ held self.now };
}

impl<'p, T> Pointer<T> for &'p T {
    ghost held = { λ r. r.now };

    #[inline(always)]
    fn get(&self) -> &T {
        *self
    }
}

impl<T> Pointer<T> for Box<T> {
    ghost held = { λ b. b.value };

    #[inline(always)]
    fn get(&self) -> &T {
        &**self
    }
}

/// A value that the code owns, even if it borrows its literals.
pub struct OwnedLiteral {
    pub value: Box<Value>,
}

// A separate function, so that the code to drop a block stays small.
impl Drop for OwnedLiteral {
    #[inline(never)]
    fn drop(self) {
        let OwnedLiteral { value: _ } = self;
    }
}

impl Pointer<Value> for OwnedLiteral {
    ghost held = { λ m. m.value.value };

    #[inline(always)]
    fn get(&self) -> &Value {
        &*self.value
    }
}
