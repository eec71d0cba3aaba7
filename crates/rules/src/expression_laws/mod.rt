//! Which expressions, and which statements `if`, come to a part of theirs, and why may they become it?
//!
//! `specs/Expressions/Known.antt` has the rules: a conditional on a test that is known becomes the branch that is taken, and a logical
//! expression with a known left side the side that counts, unless it matters where it stands that this stands there itself
//! (`specs/Expressions/Uses.antt`). `specs/Expressions/Unused.antt` has the rule of what nobody takes the value of: of an operation the
//! operand is left that acts, and where that is such an operation again, its operand that acts, and so on. `specs/Expressions/Lists.antt`
//! has that of arrays, sequences and templates, of which the parts are left that act. `specs/Expressions/Indirect.antt` has that of
//! conditionals and logical expressions of which the part that counts may not stand there itself: it stays behind a zero, or behind the
//! test where that acts. `specs/Expressions/OneSided.antt` has that of conditionals of which nobody takes the value and one branch alone
//! acts: they become `&&` or `||`. `specs/Expressions/Sequences.antt` has that of sequences whose value may be taken: the parts leave that
//! don't act, but the last. `specs/Expressions/TwoSides.antt` has that of operations of which nobody takes the value and both sides act:
//! they become a sequence of these, or what does nothing but give a text on a side of a sum the empty one, as the texts of a template do.
//! `specs/Expressions/Objects.antt` has that of object literals of which nobody takes the value: the keys and values of their properties
//! are left that act. `specs/Expressions/Operations.antt` has that of operations that don't act and of which the value is known: they
//! become a literal of it, or unary minus on one, wherever they stand. `specs/Expressions/Ifs.antt` has that of statements `if` on a test
//! that is known: they become the branch that runs, or empty where there is none. `laws` states that what the context of a walk tells of a
//! place is so, that a rule has an answer exactly where the edit of steps/Allowed applies that it makes (of several operations it answers
//! what the last edit leaves), and that they change nothing of a program exactly where no such edit applies
//! (`specs/Expressions/Settled.antt`), which a walk sees node by node (`quiet`). `lawful` states that each is lawful, so that a hook of a
//! walk may apply it. `rows` are small programs and what the rules leave of them, by computing.
//!
//! The code is empty: each function's contract is a law.
pub mod lawful;
pub mod laws;
pub mod names;
pub mod quiet;
pub mod rows;
