//! Laws about the definitions of the built-ins, each the contract of an empty function.
ghost use Rattle.std.specs.Prelude.{◌≡◌, List, None, Ok, [], ◌∷◌, ◌↔◌, ℕ, negsuc, pos, suc};
ghost use Rattle.std.specs.List.{IsDistinct};
ghost use Rattle.std.specs.Map.{keys_of};
ghost use Rattle.expr_value.specs.Answers.{Then};
ghost use Rattle.expr_value.specs.Keys.{key_eq};
ghost use Rattle.expr_value.specs.Values.{items_of, joined_text};
ghost use Rattle.expr_value.specs.declared.key.Key.{Key as key};
ghost use Rattle.expr_value.specs.declared.value.Value.{Value as value, Array as array, KeyedMap as by_keys};
ghost use Rattle.expr_builtins.specs.Collections.{from_pairs, to_pairs};
ghost use Rattle.expr_builtins.specs.Nested.{all_flat_items, flat_items};
ghost use Rattle.expr_builtins.specs.Matches.{AreMatches};
ghost use Rattle.expr_builtins.specs.Places.{places};
ghost use Rattle.expr_builtins.specs.Texts.{parts, parts_after};

/// Flattening an array gives what flattening its items gives, one after the other. Flattening any other value gives the
/// value.
pub fn arrays_are_opened()
    ensures array { (xs : List value) → flat_items (array xs) ≡ all_flat_items xs }
    ensures other { (v : value) → items_of v ≡ None → flat_items v ≡ v ∷ [] }
{}

/// `fromPairs` of `toPairs` of a keyed map is that map.
pub fn pairs_of_a_map_make_it_again()
    ensures { (m : List (key × value)) → IsDistinct key_eq (keys_of m)
        → Then (λ answer. answer ≡ to_pairs (by_keys m ∷ []))
        (λ pairs answer. answer ≡ from_pairs (pairs ∷ [])) (Ok (by_keys m)) }
{}

/// The parts of a string cut after each separator, joined by nothing, are the string.
pub fn parts_after_joined_are_the_text()
    ensures { (t s : List ℕ) (n : ℕ)
        → (joined_text [] (parts_after s t (negsuc n)) ≡ s)
        × (joined_text [] (parts_after s t (pos (suc n))) ≡ s) }
{}

/// The parts of a string between separators, joined by the separator, are the string.
pub fn parts_joined_are_the_text()
    ensures { (t s : List ℕ) (n : ℕ)
        → (joined_text t (parts s t (negsuc n)) ≡ s) × (joined_text t (parts s t (pos (suc n))) ≡ s) }
{}

/// The matches of a string in another begin at `places`, from the left and without overlaps. No other list of offsets
/// does.
pub fn places_are_the_matches()
    ensures { (t s ps : List ℕ) → AreMatches t s ps ↔ ps ≡ places t s }
{}
