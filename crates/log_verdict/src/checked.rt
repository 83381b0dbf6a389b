use line_check::CheckWhy;

/// How a check of a log ended.
#[derive(Clone, Copy, Debug, PartialEq, Eq)]
pub enum Checked {
    /// Nothing is against the log, and that was written.
    Done,
    /// This reason is against it, at this line, counted from 1, and that was written.
    Refuted { line: u64, why: CheckWhy },
    /// The source failed.
    ReadFault,
    /// The sink failed.
    WriteFault,
    /// Memory was wanting.
    Memory,
}
