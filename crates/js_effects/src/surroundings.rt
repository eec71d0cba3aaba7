// What stands around an expression.

/// What stands around an expression, as far as it is asked whether it is silent there.
#[derive(Clone, Copy)]
pub struct Surroundings {
    /// Whether a `with` statement does.
    pub in_with: bool,
    /// Whether a class does.
    pub in_class: bool,
}
