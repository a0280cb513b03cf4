#![tactic(auto)]

// Tests at the edges of what the calls grant: full lists, one cell left, odd numbers, short tapes.
#[cfg(test)]
mod blank;
#[cfg(test)]
mod lists;
#[cfg(test)]
mod tapes;
#[cfg(test)]
mod unnamed;
