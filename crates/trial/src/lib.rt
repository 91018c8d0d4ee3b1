//! Trials of grades, plans, layers, draws and the lines of a book: what a user of them sees.
//! Places and queues are arrays of a test, lent as a program lends them.
#![tactic(auto)]

#[cfg(test)]
mod answers;
#[cfg(test)]
mod draws;
#[cfg(test)]
mod grades;
#[cfg(test)]
mod layers;
#[cfg(test)]
mod lines;
#[cfg(test)]
mod places;
#[cfg(test)]
mod plans;
#[cfg(test)]
mod queues;
#[cfg(test)]
mod runs;
#[cfg(test)]
mod scans;
#[cfg(test)]
mod small;
#[cfg(test)]
mod table;
#[cfg(test)]
mod tallies;
