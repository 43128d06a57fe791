//! Values worked by hand, or by another program, of calls that no run of the program shows exactly.
#![tactic(auto)]

#[cfg(test)]
mod cells;
#[cfg(test)]
mod forms;
#[cfg(test)]
mod lines;
#[cfg(test)]
mod market;
#[cfg(test)]
mod meshes;
#[cfg(test)]
mod numbers;
#[cfg(test)]
mod outside;
#[cfg(test)]
mod patterns;
#[cfg(test)]
mod second_forms;
#[cfg(test)]
mod short;
#[cfg(test)]
mod subdomains;
#[cfg(test)]
mod texts;
#[cfg(test)]
mod words;
