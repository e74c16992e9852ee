//! Laws about the definitions of the built-ins, each the contract of an empty function.
ghost use Rattle.std.specs.Prelude.{◌≡◌, ◌↔◌, Bool, not, List, [], Ok};
ghost use Rattle.expr_value.specs.Answers.{Answer};
ghost use Rattle.expr_value.specs.declared.value.Value.{Value as value, Bool as truth};
ghost use Rattle.expr_predicates.specs.Allowed.{AreAlike, HasOneAnswer};
ghost use Rattle.expr_predicates.specs.AnswersInTurn.{AnswersInTurn};
ghost use Rattle.expr_predicates.specs.Runs.{FoldMayReturn};
ghost use Rattle.expr_predicates.specs.Folds.{ItemAnswer, Fold, any_holds, none_holds};
ghost use Rattle.expr_value.specs.declared.key.Key.{Key as key};
ghost use Rattle.expr_predicates.specs.Sorting.{IsSorting};

/// What a predicate may return. A law about it holds of every relation between calls and results.
pub trait Predicate {
    ghost use Rattle.expr_context.specs.Told.{PredicateArgsView};
    ghost use Rattle.expr_value.specs.Answers.{Answer};

    /// Whether the predicate may return this result for these arguments.
    ghost may: { Self → PredicateArgsView → Answer → Type 0 };
}

/// A run returns what the built-in's list function makes of some list of results: one allowed result for each of the
/// first items.
pub fn a_run_is_a_list_of_answers<P: Predicate>()
    ensures { (predicate : P) (t : Fold) (items : List value) (answer : Answer)
        → FoldMayReturn t (P.may predicate) items [] answer
        ↔ ((replies : List ItemAnswer) × AnswersInTurn t (P.may predicate) [] items replies answer) }
{}

/// What a run may return depends only on what the predicate may return for its own items.
pub fn a_run_asks_about_its_items<P: Predicate, Q: Predicate>()
    ensures { (one : P) (other : Q) (t : Fold) (items : List value) (answer : Answer)
        → AreAlike t (P.may one) (Q.may other) items
        → FoldMayReturn t (P.may one) items [] answer ↔ FoldMayReturn t (Q.may other) items [] answer }
{}

/// `none` is the opposite of `any` on the same items, if the predicate has one possible result for each and both calls
/// return a value.
pub fn none_is_the_opposite_of_any<P: Predicate>()
    ensures { (predicate : P) (items : List value) (any none : value)
        → HasOneAnswer any_holds (P.may predicate) items
        → FoldMayReturn any_holds (P.may predicate) items [] (Ok any)
        → FoldMayReturn none_holds (P.may predicate) items [] (Ok none)
        → (b : Bool) × (any ≡ truth b) × (none ≡ truth (not b)) }
{}

/// A list has only one stable order by the same keys in the same direction.
pub fn a_list_has_one_stable_order()
    ensures { (down : Bool) (ps qs rs : List (key × value)) → IsSorting down ps qs → IsSorting down ps rs
        → qs ≡ rs }
{}
