//! Laws of kinds. Each is a function without a body.
ghost use Rattle.std.specs.Prelude.{◌≡◌, ℕ, ℤ, pos, Bool, FitsSigned, List, None, Ok, Some, bytes_eq, codes, false, true};
ghost use Rattle.std.specs.Int.{w64};
ghost use Rattle.std.specs.Ordering.{int_eq};
ghost use Rattle.expr_builtins.specs.Conversions.{IsInteger};
ghost use Rattle.expr_context.specs.Context.{ContextView, hash};
ghost use Rattle.expr_functions.specs.declared.operator.Operator.TheVariants.{In, Modulo, NotEqual};
ghost use Rattle.expr_schema.specs.Kinds.{Effect, Fields, HasKind, Kind, array, duration, field, integer, map, nilable, total};
ghost use Rattle.expr_kinds.specs.Effects.{ResultIs};
ghost use Rattle.expr_kinds.specs.Narrowing.{assuming, present_at};
ghost use Rattle.expr_schema.specs.Scopes.{Conforms, Scope};
ghost use Rattle.expr_kinds.specs.Scopes.{Hosts, at_name, bind_kind, given_at, is_absent};
ghost use Rattle.expr_kinds.specs.Typed.{Typed, TypedBlock};
ghost use Rattle.expr_meaning.specs.Allows.{Allows, AllowsBlock};
ghost use Rattle.expr_meaning.specs.World.{world_of};
ghost use Rattle.expr_time.specs.Durations.{SpellsLength};
ghost use Rattle.expr_tree.specs.Term.{Block, Term, call, index, literal, name, no_predicate, no_terms, operation, postfix, term};
ghost use Rattle.expr_value.specs.Answers.{Answer};

use expr_meaning::Functions;
use expr_value::Value;

/// Programs of a kind don't go wrong. Take a program that is of a kind in a scope, and a host and a context for
/// which the scope holds. Then each result that the program may have is a value of that kind, or an error that the
/// effect admits.
pub fn typed_programs_do_not_go_wrong<H: Functions>()
    ensures { (host : H) (ctx : ContextView) (s : Scope) (e : Effect) (program : Block) (k : Kind)
        (answer : Answer)
        → TypedBlock e s program k → Hosts s (H.host host) → Conforms s ctx
        → AllowsBlock (world_of (H.host host) ctx) program answer
        → ResultIs e (λ v. HasKind k v) answer }
{}

/// Conditions narrow names. If a scope holds for a context, and a condition may return a boolean there, then the
/// scope that the condition tells for this boolean holds too.
pub fn conditions_narrow_names<H: Functions>()
    ensures { (host : H) (ctx : ContextView) (s : Scope) (condition : Term) (b : Bool) → Conforms s ctx
        → Allows (world_of (H.host host) ctx) condition (Ok (Value.Bool b))
        → Conforms (assuming condition b s) ctx }
{}

/// A literal excludes an error that only some values of its kind cause. The remainder by a literal other than zero
/// never fails. Nor does `take` with a literal count of zero or more, `int` of a literal that is an integer, or
/// `duration` of one that spells a duration. That holds if the host adds no function of that name.
pub fn literals_exclude_errors()
    ensures remainder { (s : Scope) (t : Term) (n : ℤ) → int_eq n (pos 0) ≡ false → Typed total s t integer
        → Typed total s (operation Modulo t (literal (Value.Integer n))) integer }
    ensures take { (s : Scope) (t : Term) (k : Kind) (n : ℕ) → s.functions (codes "take") ≡ None
        → Typed total s t (array k)
        → Typed total s (call (codes "take") (term t (term (literal (Value.Integer (pos n))) no_terms))
        no_predicate) (array k) }
    ensures int { (s : Scope) (text : List ℕ) → s.functions (codes "int") ≡ None → IsInteger text
        → Typed total s (call (codes "int") (term (literal (Value.String text)) no_terms) no_predicate)
        integer }
    ensures duration { (s : Scope) (text : List ℕ) (n : ℤ) → s.functions (codes "duration") ≡ None
        → FitsSigned w64 n → SpellsLength text n
        → Typed total s (call (codes "duration") (term (literal (Value.String text)) no_terms) no_predicate)
        duration }
{}

/// Conditions narrow fields too. Where `.n != nil` is true in a predicate, the item has a field `n` that isn't nil.
/// The same holds of `n != nil`, if the context has no `n`. Where `"n" in x` is true, the map `x` has a field `n`.
pub fn conditions_narrow_fields()
    ensures item { (s : Scope) (fs : Fields) (n : List ℕ) (k : Kind)
        → given_at s.names hash ≡ Some (map fs) → at_name fs n ≡ nilable k
        → assuming (operation NotEqual (postfix (index (literal (Value.String n)) false) (name hash))
        (literal Value.Nil)) true s
        ≡ bind_kind hash (map (field n k true fs)) s }
    ensures bare { (s : Scope) (fs : Fields) (n : List ℕ) (k : Kind)
        → bytes_eq n (codes "$env") ≡ false → is_absent s.names n ≡ true
        → given_at s.names hash ≡ Some (map fs) → at_name fs n ≡ nilable k
        → assuming (operation NotEqual (name n) (literal Value.Nil)) true s
        ≡ bind_kind hash (map (field n k true fs)) s }
    ensures name { (s : Scope) (x : List ℕ) (fs : Fields) (n : List ℕ) (k : Kind)
        → bytes_eq x (codes "$env") ≡ false → given_at s.names x ≡ Some (map fs) → present_at fs n ≡ Some k
        → assuming (operation In (literal (Value.String n)) (name x)) true s
        ≡ bind_kind x (map (field n k true fs)) s }
{}
