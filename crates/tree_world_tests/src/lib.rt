//! What a world of trees tells at first, and what it does not take back.
#![tactic(auto, using(tree_world::proofs::Counted::by_session))]

#[cfg(test)]
mod private;
#[cfg(test)]
mod taken_back;
