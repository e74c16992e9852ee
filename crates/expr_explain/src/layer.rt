//! Names that lines bind, before those around them.
ghost use Rattle.std.specs.Prelude.{◌≡◌, Some, MatchOption};
ghost use Rattle.std.specs.Option.{option_copied};
ghost use Rattle.expr_context.specs.Context.{ContextView};
ghost use Rattle.expr_explain.specs.Layers.{names_inside, with_lines};

use expr_context::{Context, ContextProvider};
use expr_value::{Result, Value};
use std::alloc::Global;

/// A name that a line binds, with its value.
#[derive(Drop)]
pub(crate) struct LineValue<'s> {
    pub(crate) name: &'s str,
    pub(crate) value: Value,
}

/// The names that the lines of a block bind, the innermost last, and the layer around it.
#[derive(Drop)]
pub(crate) struct Layer<'s> {
    pub(crate) lines: Vec<LineValue<'s>>,
    pub(crate) outer: Option<&'s Layer<'s>>,
}

impl<'s> Layer<'s> {
    /// A layer without names.
    pub(crate) fn outermost_layer(alloc: Global) -> Layer<'s>
        ensures { (ctx : ContextView) → names_inside result ctx ≡ ctx }
    {
        Layer {
            lines: Vec::new(alloc),
            outer: None,
        }
    }
}

/// The names of layers, and behind them those of a provider.
#[derive(Drop)]
pub(crate) struct Layered<'s, P> {
    pub(crate) layer: &'s Layer<'s>,
    pub(crate) provider: &'s P,
}

impl<'s, P: ContextProvider> ContextProvider for Layered<'s, P> {
    ghost use Rattle.expr_explain.specs.Layers.{names_inside};

    ghost context = { λ names. names_inside names.layer.now (P.context names.provider.now) };

    fn get(&self, key: &str) -> Option<&Value> {
        look_in_layers(self.layer, self.provider, key)
    }

    #[tactic(auto, using(crate::proofs::Inside::map_in_layers))]
    fn to_context(&self, alloc: Global) -> Result<Context> {
        self.provider.to_context(alloc)
    }

    #[tactic(auto, using(crate::proofs::Inside::map_in_layers))]
    fn environment(&self, alloc: Global) -> Result<Context> {
        self.provider.environment(alloc)
    }
}

/// Looks a name up: in the innermost line that binds it, or else in the provider.
fn look_in_layers<'s, P: ContextProvider>(
    layer: &'s Layer<'s>,
    provider: &'s P,
    key: &str,
) -> Option<&'s Value>
    ensures { option_copied result ≡ (names_inside layer.now (P.context provider.now)).value_of key.now }
{
    let mut at = layer;
    loop {
        if let Some(value) = value_of_line(&at.lines, key) {
            return Some(value);
        }
        match at.outer {
            Some(outer) => at = outer,
            None => return provider.get(key),
        }
    }
}

/// The value of the last of these lines with this name.
fn value_of_line<'s>(lines: &'s [LineValue<'s>], key: &str) -> Option<&'s Value>
    ensures { MatchOption result
        ((ctx : ContextView) → (with_lines lines.now ctx).value_of key.now ≡ ctx.value_of key.now)
        (λ v. (ctx : ContextView) → (with_lines lines.now ctx).value_of key.now ≡ Some v.now) }
{
    let mut count = lines.len();
    while count > 0 {
        count -= 1;
        let line = &lines[count];
        if line.name == key {
            return Some(&line.value);
        }
    }
    None
}
