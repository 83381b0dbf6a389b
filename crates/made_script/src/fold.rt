ghost use Rattle.std.specs.Prelude.{◌≡◌};
ghost use Rattle.made_script.specs.Fold.{fold_byte, fold_from};

/// A fold is a remainder of this.
const FOLDS: u64 = 4_294_967_296;

/// The fold of a text behind another, whose fold is `before`; that of no text is 0.
///
/// Each byte makes 31 times what is folded and the byte of it, as a remainder of 4,294,967,296.
pub fn folded(before: u32, text: &[u8]) -> u32
    ensures { result ≡ fold_from before text.now }
{
    let mut sum = before;
    let mut left = text;
    while let [first, second, third, fourth, rest @ ..] = left {
        sum = fold_four(sum, *first, *second, *third, *fourth);
        left = rest;
    }
    fold_each(sum, left)
}

fn fold_each(before: u32, text: &[u8]) -> u32
    ensures { result ≡ fold_from before text.now }
{
    let mut sum = before;
    for byte in text {
        sum = fold_byte(sum, *byte);
    }
    sum
}

/// Four bytes at once, so that a processor waits for one product and not for four.
#[inline]
#[tactic(auto, using(crate::proofs::Four::by_four))]
fn fold_four(before: u32, first: u8, second: u8, third: u8, fourth: u8) -> u32
    ensures { result
        ≡ fold_byte (fold_byte (fold_byte (fold_byte before first) second) third) fourth }
{
    let three = 29_791 * u64::from(first) + 961 * u64::from(second) + 31 * u64::from(third);
    ((923_521 * u64::from(before) + three + u64::from(fourth)) % FOLDS) as u32
}

#[inline]
fn fold_byte(before: u32, byte: u8) -> u32
    ensures { result ≡ fold_byte before byte }
{
    ((31 * u64::from(before) + u64::from(byte)) % FOLDS) as u32
}
