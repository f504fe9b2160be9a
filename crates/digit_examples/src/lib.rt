//! What each call of `digits` answers, on an example: the page of the reference shows it beside the
//! call. A test names in its doc comment the calls that it shows.
#![tactic(auto, unfolding(digits::proofs::Literals::lexical_on_literals))]

#[cfg(test)]
mod bytes;
#[cfg(test)]
mod calling;
#[cfg(test)]
mod decimals;
#[cfg(test)]
mod files;
#[cfg(test)]
mod floats;
#[cfg(test)]
mod forms;
#[cfg(test)]
mod integers;
#[cfg(test)]
mod lists;
#[cfg(test)]
mod literals;
#[cfg(test)]
mod parts;
#[cfg(test)]
mod pieces;
#[cfg(test)]
mod words;
#[cfg(test)]
mod writing;
#[cfg(test)]
mod written;
