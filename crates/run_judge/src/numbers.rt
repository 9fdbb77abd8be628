// The numbers of a run: "It begins with its own count of numbers"; then waits and edges.
ghost use Rattle.std.specs.Prelude.{◌≡◌, MatchOption};
ghost use Rattle.run_judge.specs.Numbers.{announced, Announced};

// The numbers of a run behind their count, where there are so many.
pub(crate) fn counted(run: &[i64]) -> Option<&[i64]>
    ensures { MatchOption result (announced run.now ≡ 0) (λ numbers. Announced run.now numbers.now) }
{
    let first = run.first()?;
    let end = usize::try_from(*first).ok()?;
    run.get(1..end)
}
