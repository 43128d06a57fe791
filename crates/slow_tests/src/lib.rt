//! What the program makes, beside slow programs that follow its definitions: sums of systems, names and numbers of refined
//! meshes, and colours of cells, on drawn inputs.
#![tactic(auto)]

#[cfg(test)]
mod coloring;
#[cfg(test)]
mod numbering;
#[cfg(test)]
mod slow_colors;
#[cfg(test)]
mod slow_lines;
#[cfg(test)]
mod slow_names;
#[cfg(test)]
mod slow_sum;
#[cfg(test)]
mod sums;
#[cfg(test)]
mod systems;
