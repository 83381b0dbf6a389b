ghost use Rattle.std.specs.Prelude.{◌≡◌, ◌++◌, ◌∷◌, IfSome};

/// What is behind these bytes, where they stand at the front.
pub fn behind<'a>(front: &[u8], bytes: &'a [u8]) -> Option<&'a [u8]>
    ensures { IfSome result (λ rest. bytes.now ≡ front.now ++ rest.now) }
{
    bytes.strip_prefix(front)
}

/// What is behind a quote.
pub fn behind_quote(bytes: &[u8]) -> Option<&[u8]>
    ensures { IfSome result (λ rest. bytes.now ≡ 34 ∷ rest.now) }
{
    let rest = behind(b"\"", bytes)?;
    Some(rest)
}

/// A byte, and what is behind it.
#[derive(Clone, Copy)]
pub struct One<'a> {
    pub byte: u8,
    pub rest: &'a [u8],
}

/// The first byte, and what is behind it.
pub fn behind_one(bytes: &[u8]) -> Option<One<'_>>
    ensures { IfSome result (λ one. bytes.now ≡ one.byte ∷ one.rest.now) }
{
    match bytes {
        [byte, rest @ ..] => Some(One { byte: *byte, rest }),
        [] => None,
    }
}
