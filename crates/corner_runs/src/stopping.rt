// Which limits stop the direction Y of the search, the sum of the rows of artificial limits.
ghost use Rattle.std.specs.Prelude.{◌<◌, ℤ, pos, ◌<ℤ◌, ◌≤ℤ◌, MatchBool};
ghost use Rattle.corner_runs.specs.Answers.{SomeSearch, StoppingAnswer, AlongAnswer};

use tableau_words::view::Tableau;

// a_j · Y for limit j, from 0: the sum of T_rj over the rows of artificial limits.
fn along(tableau: Tableau<'_>, limit: usize) -> i64
    requires place { limit < tableau.counts.shape.limits }
    requires corner { SomeSearch tableau.counts.shape tableau.words.now }
    ensures { AlongAnswer tableau.entry.counts.shape limit tableau.entry.words.now result }
{
    tableau.artificial_sum(1 + tableau.counts.shape().commands + limit)
}

// The least limit, from 0, with a_j · Y > 0.
pub fn least_stopping(tableau: Tableau<'_>) -> Option<usize>
    requires { SomeSearch tableau.counts.shape tableau.words.now }
    ensures { StoppingAnswer tableau.entry.counts.shape tableau.entry.words.now result }
{
    (0..tableau.counts.shape().limits).find(
        |limit: &usize| -> bool
            requires place { limit.now < tableau.counts.shape.limits }
            requires corner { SomeSearch tableau.counts.shape tableau.words.now }
            ensures { (z : ℤ) × AlongAnswer tableau.entry.counts.shape limit.entry.now tableau.entry.words.now z × MatchBool result (pos 0 <ℤ z) (z ≤ℤ pos 0) }
        { along(tableau, *limit) > 0 },
    )
}
