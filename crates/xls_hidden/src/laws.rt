//! A law, on a function with an empty body.

ghost use Rattle.xls_hidden.specs.Laws.{RunsAreLongest};

/// The runs of rows or columns ascend, each as long as it can be for its reason, and a row or column is in one exactly
/// where it can't be seen, for the reason of that run.
pub fn runs_are_longest()
    ensures { RunsAreLongest }
{}
