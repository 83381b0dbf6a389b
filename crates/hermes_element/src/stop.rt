/// Why reading from the left ends.
#[derive(Clone, Copy)]
pub(crate) enum Stop {
    /// The bytes leave the plain form at this index.
    Shape(usize),
    /// Memory was wanting.
    Memory,
    /// A check fails at this index. The bytes may leave the plain form later.
    EndName(usize),
    Repeated(usize),
    Reference(usize),
    LongValue(usize),
    Deep(usize),
    Many(usize),
}
