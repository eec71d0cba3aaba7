// Two checks of a pair, either way round.
ghost use Rattle.std.specs.Prelude.{◌≡◌};
ghost use Rattle.min_expressions.specs.Pair.{joined, Commutes};

use crate::fold::PeepholeOptimizations;

fn joined<A: Drop, B>(a: A, b: Option<B>) -> Option<(A, B)>
    ensures { result ≡ joined a b }
{
    match b {
        Some(b) => Some((a, b)),
        None => None,
    }
}

impl PeepholeOptimizations {
    /// What two checks answer of a pair, where the first takes the first and the second the second. Where the first check refuses
    /// the first, what they answer of the swapped pair, if both take it.
    pub fn commutative_pair<'x, T, A, B, F, G>(
        pair: (&'x T, &'x T),
        check_a: F,
        check_b: G,
    ) -> Option<(A, B)>
    where
        A: Drop,
        F: Fn(&'x T) -> Option<A> + Drop,
        G: Fn(&'x T) -> Option<B> + Drop,
        requires first { F.IsAlwaysCallable check_a }
        requires second { G.IsAlwaysCallable check_b }
        ensures pair { Commutes (F.post check_a) (G.post check_b) pair.entry.0 pair.entry.1 result }
    {
        match check_a(pair.0) {
            Some(a) => joined(a, check_b(pair.1)),
            None => match check_a(pair.1) {
                Some(a) => joined(a, check_b(pair.0)),
                None => None,
            },
        }
    }
}
