//! Tests of what no contract says and no row of `vectors/` can show: what `?` makes of another
//! error, readers that fail, what Debug writes under its flags, most callers of `example_callers`
//! once, a proxy that rewrites lines and replies, addresses after other bytes, and MLST and the facts
//! of files, for which the program of the rows would have to load `jiff`.
#![tactic(auto)]

#[cfg(test)]
mod addresses;
#[cfg(test)]
mod callers;
#[cfg(test)]
mod errors;
#[cfg(test)]
mod facts;
#[cfg(test)]
mod held;
#[cfg(test)]
mod proxying;
#[cfg(test)]
mod receiving;
#[cfg(test)]
mod values;
