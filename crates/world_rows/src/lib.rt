//! Worlds that short histories make: what each look-up is told, by whatever answers, and which entries fit.
#![tactic(auto)]

#[cfg(test)]
mod fitting;
#[cfg(test)]
mod flat;
#[cfg(test)]
mod found;
#[cfg(test)]
mod histories;
#[cfg(test)]
mod looked;
#[cfg(test)]
mod private;
#[cfg(test)]
mod turned;
#[cfg(test)]
mod worlds;
