/// How many bytes an input has.
pub const INPUT_BYTES: u32 = 48;

/// The most bytes that come with an input.
pub const MOST_BYTES: usize = 4096;

/// What happens, as a C program tells it. What a kind doesn't name is passed over.
#[repr(C)]
#[derive(Clone, Copy)]
pub struct HermesInput {
    /// How many bytes this has, 48.
    pub size: u32,
    /// The number of what happens.
    pub kind: u32,
    /// The number of a side, or of a signal of a bridge's segment.
    pub side: u32,
    /// What was seen there, or a level, or a quality.
    pub what: u32,
    /// The slot of a magazine.
    pub slot: u32,
    /// 0.
    pub zero: u32,
    /// A board's id, the most significant byte first.
    pub id: [u8; 16],
    /// The number of a question.
    pub query: u64,
}
