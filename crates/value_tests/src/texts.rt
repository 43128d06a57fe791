//! What calls give, as texts that tests compare.
use fem_text::TextFault;
use std::alloc::Global;
use std::fmt::{Debug, Write};

/// The kind of a fault and the number of its line.
pub(crate) fn fault_text<K: Debug>(alloc: Global, fault: &TextFault<K>) -> Option<String> {
    let kind = &fault.kind;
    let line = fault.line;
    format!(in alloc; "{kind:?} {line}").ok()
}

/// Adds the numbers of a row as a line, parted by blanks.
pub(crate) fn add_row(text: &mut String, row: &[i128]) -> Option<()> {
    for value in row {
        write!(text, "{value} ").ok()?;
    }
    text.push_str("\n").ok()
}
