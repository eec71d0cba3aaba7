//! What takes dead code out of a program, node by node?
//!
//! `Statements` is the walker (min_traverse): behind a list it takes out what stands behind a jump there and declares nothing around it,
//! and what rules/DeadCode says goes of it (`trim_statements`), or imports without names behind other requests of their modules
//! (`remove_repeated_imports`), behind a silent statement elsewhere it leaves an empty one, and so behind a branch or a body that does
//! nothing (`empty_statement`), behind a declaration of one name that nothing uses a statement of its value (`state_value`), behind an `if` on a test that is known the branch that runs, or an empty statement, or the `if` without
//! what declares no name in the other branch, and without the values there, behind one whose branches are empty a statement of its test, and
//! behind one with an empty alternate the `if` without it (`try_fold_if`), behind an import the import without the names that nobody uses (`remove_unused_import_specifiers`), behind a
//! module that module with its imports together (`merge_module_imports`), or where none come together with an export from another module in
//! the place of each import that only feeds an export (`merge_import_export`), behind an expression that a known test decides the part that counts, alone, behind a zero, or behind the test where that acts, behind an operation
//! of which nobody takes the value the operands that act, behind such an array, object or sequence its parts that act, and behind an
//! operation that doesn't act its value (min_expressions). Each call does exactly what its rule says, marks what left before it is let go,
//! and touches nothing where nothing goes. `walk_statements` is one pass over a program: what is left comes by edits that a dead code
//! remover may make (steps/Allowed), what was known of the program (`Knows`) is known of what is left, and where no other pass is asked
//! for, nothing of it goes (`IsQuiet` of rules/DeadCode, `ImportsUsed` of rules/Imports) or comes to its parts or its value (`IsSettled` of
//! rules/Expressions).
#![tactic(auto)]

mod blocks;
mod emptied;
mod empty_alternates;
mod empty_ifs;
mod facts;
mod goes;
mod idle;
mod ifs;
mod imports;
mod inert;
mod inside;
mod left_names;
mod merged;
mod names;
mod passed;
mod stated;
mod statements;
mod tries;
mod trimmed;
mod untaken;
mod values;
mod vars;
mod walk;

pub use emptied::empty_statement;
pub use ifs::try_fold_if;
pub use imports::remove_unused_import_specifiers;
pub use merged::merge_module_imports;
pub use passed::merge_import_export;
pub use stated::state_value;
pub use statements::Statements;
pub use trimmed::trim_statements;
pub use walk::walk_statements;
