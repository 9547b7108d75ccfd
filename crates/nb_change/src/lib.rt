//! What a run of calls on the outside does to files, at each moment and at its end.
//!
//! It rests on `nb_host` alone and has no code: `specs/Changes` is the one record in which each layer above says what its
//! calls change, over whichever names they touch, and `proofs/` has the laws by which such changes go on, one call or one change
//! after another. Nothing here knows what files stand for: that is the predicate that a change is said with.
#![tactic(auto)]
