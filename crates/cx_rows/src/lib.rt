//! Worked cases of the whole checker, as tables over files and sinks in memory.
#![tactic(auto)]

#[cfg(test)]
mod asking;
#[cfg(test)]
mod cases;
#[cfg(test)]
mod failing;
#[cfg(test)]
mod first_texts;
#[cfg(test)]
mod limits;
#[cfg(test)]
mod shown;
#[cfg(test)]
mod units;
#[cfg(test)]
mod within;
#[cfg(test)]
mod words;
