// Checks of tables, folds and quotients by examples.
#![tactic(auto)]

#[cfg(test)]
mod entries;
#[cfg(test)]
mod folding;
#[cfg(test)]
mod limits;
#[cfg(test)]
mod texts;
