// What is asked of trees.

/// A question.
#[derive(Clone, Copy)]
pub(crate) enum Question {
    /// How many nodes and levels the tree has, where the operand is the limit.
    Size,
    /// What a copy of it holds, once its root has the id 7: its size, the spans and ids of its nodes, and its text.
    Copied,
    /// What a copy holds of the name or the text that its first expression is, or else of its root.
    Cloned,
    /// Whether it is the same as the operand, but for spans and ids.
    Equal,
    /// What is left where the empty statements of lists go.
    Cleared,
    /// Whether its first expression is a direct call of `eval`.
    DirectEval,
    /// The names that its first declarator declares.
    BoundNames,
    /// A declaration of the names that `var` declares in its statements.
    KeptNames,
    /// Whether its first expression, or the first statement where that has none, is silent, of names that have no
    /// binding.
    Silent,
    /// How many nodes a walk visits that passes by what lies below blocks.
    Visited,
    /// Its text.
    Written,
    /// Whether it fits the table of node types.
    Fits,
}

const QUESTIONS: [(&str, Question); 12] = [
    ("size", Question::Size),
    ("copy", Question::Copied),
    ("clone", Question::Cloned),
    ("equal", Question::Equal),
    ("clear", Question::Cleared),
    ("eval", Question::DirectEval),
    ("names", Question::BoundNames),
    ("kept", Question::KeptNames),
    ("silent", Question::Silent),
    ("visits", Question::Visited),
    ("text", Question::Written),
    ("fits", Question::Fits),
];

pub(crate) fn question_named(name: &str) -> Option<Question> {
    for (word, question) in QUESTIONS.iter() {
        if *word == name {
            return Some(*question);
        }
    }
    None
}
