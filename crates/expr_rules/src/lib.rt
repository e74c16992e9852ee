//! Rules, which are expressions in files: which lines are rules, whether they compile, where they are wrong, and what
//! they ask for.
//!
//! - `rule_text` has the rules of a text, and `verdict` says of each whether it compiles, and else where it is wrong.
//!   `specs/Rules.antt` and `Verdicts.antt` have what these mean.
//! - `needs` has the names and functions that a rule asks for. It is a loop over the parts that are still to be looked
//!   at, which `tasks` puts there. `specs/Needs.antt` says which they are, and `Tasks.antt` is for its proof.
//! - `checked` has all that is found of a rule, `lines` and `json` have the text and the JSON of it, and `checking`
//!   checks the rules of a file. `specs/Checked.antt`, `Lines.antt`, `JsonLines.antt` and `Reports.antt` say what is
//!   found and written.
#![tactic(auto)]

mod checked;
mod checking;
mod json;
mod lines;
mod needs;
mod rule_text;
mod tasks;
mod verdict;

pub use checked::{CheckOutcome, CheckedRule, SoundRule, Wishes, check_rule};
pub use checking::{CheckReport, Manner, Totals, check_text};
pub use json::json_line;
pub use lines::{write_fault, write_sound};
pub use needs::{NeedKind, Needs, needs_of};
pub use rule_text::{Layout, RuleText, rules_of};
pub use verdict::{Fault, Spot, Verdict, verdict_of};
