//! The engine that a choice means.

// The engine that a choice means for a problem.
#[derive(Clone, Copy, Debug, PartialEq, Eq)]
pub(crate) enum Meant {
    // The plain engine.
    ByCancel,
    // The network simplex.
    BySimplex,
    // Cost scaling.
    ByScaling,
    // The network simplex, watched, and where it is a bad case a search that is judged.
    ByFast,
    // Shortest augmenting paths.
    BySap,
}
