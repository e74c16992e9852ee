//! Programs as text: the text of a program, in one normal form.
//!
//! - `specs/Trees.antt` has the tree in which a program is printed: brackets stand where the grammar needs them, and
//!   nowhere else. `Layout.antt` has the text of that tree, and `Texts.antt` says which programs have a text.
//! - `laws` says what the text is: it compiles to this very program, and each program that `compile` returns has one.
//!   `Back.antt` is for these laws.
//! - `write` is a loop over the parts that are still to be written. So printing takes no stack, and its time is linear
//!   in the length of the text. The other modules have the parts of each form of node, and `specs/Parts.antt` says
//!   what a part is. `Brackets.antt` and `Steps.antt` are for its proof.
//!
//! `to_code` returns `MemoryError` if an allocation fails, and `ExprError` for a program that a host made and that no
//! text compiles to.
#![tactic(auto)]

mod laws;
mod list_parts;
mod literal_parts;
mod node_parts;
mod part;
mod postfix_parts;
mod quoted;
mod sign;
mod word;
mod write;

pub use laws::{
    one_program_of_text, printed_text_has_the_program, printed_tree_fits, printed_tree_is_lowest,
    printed_tree_is_of_program, programs_of_texts_have_text, programs_of_trees_have_text,
    text_gives_the_program_back, text_passes_the_bound,
};
pub use write::{node_to_code, to_code};
