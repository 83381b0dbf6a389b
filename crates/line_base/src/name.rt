ghost use Rattle.std.specs.Str.{bytes_eq};
ghost use Rattle.std.specs.Prelude.{◌≡◌, List, ℕ, IfOk};
ghost use Rattle.std.specs.List.{list_all};
ghost use Rattle.line_base.specs.Name.{IsName, ReadsName, is_name, is_name_start, is_name_byte};

use crate::memory::Memory;
use smallvec::SmallVec;
use std::alloc::Global;
use std::marker::Model;

/// A name of at most so many bytes takes no memory. None of the standard's messages and only few
/// of its attributes have longer ones.
const INLINE_BYTES: usize = 24;

/// The name of an element or attribute: an ASCII letter or `_`, and then ASCII letters, digits,
/// `_`, `-`, `.` and `:`.
#[derive(Debug, Drop)]
pub struct Name {
    bytes: SmallVec<u8, INLINE_BYTES>,
}

impl Model for Name {
    ghost Value = { List ℕ };

    ghost view = { λ name. name.bytes.items };

    ghost invariant = { λ name. IsName name.bytes.items };
}

/// Why bytes are no name.
#[derive(Clone, Copy, Debug, PartialEq, Eq)]
pub enum NameError {
    /// They are not spelled as a name is.
    BadName,
    Memory,
}

impl PartialEq for Name {
    ghost use Rattle.std.proofs.Common.{rules};

    ghost eq = { bytes_eq };

    ghost laws = { Prim.search rules };

    fn eq(&self, other: &Name) -> bool {
        self.bytes.as_slice() == other.bytes.as_slice()
    }
}

impl Eq for Name {
    ghost use Rattle.std.proofs.Common.{rules};

    ghost laws = { Prim.search rules };
}

impl Name {
    /// Reads bytes as a name. Refuses them as no name, or where memory is wanting.
    pub fn read(alloc: Global, bytes: &[u8]) -> Result<Name, NameError>
        ensures { ReadsName bytes.now result }
    {
        if !is_name(bytes) {
            return Err(NameError::BadName);
        }
        match SmallVec::from_slice(alloc, bytes) {
            Ok(bytes) => Ok(Name { bytes }),
            Err(_) => Err(NameError::Memory),
        }
    }

    /// The name that these bytes are.
    #[inline]
    pub fn of(alloc: Global, bytes: &[u8]) -> Result<Name, Memory>
        requires { IsName bytes.now }
        ensures { IfOk result (λ name. name ≡ bytes.now) }
    {
        if bytes.len() > INLINE_BYTES {
            return Name::of_many(alloc, bytes);
        }
        let mut copy = SmallVec::new(alloc);
        match copy.extend_from_slice(bytes) {
            Ok(()) => Ok(Name { bytes: copy }),
            Err(_) => Err(Memory),
        }
    }

    /// The name of more bytes than are kept inline. Apart, so that copying the others is inlined.
    #[cold]
    #[inline(never)]
    fn of_many(alloc: Global, bytes: &[u8]) -> Result<Name, Memory>
        requires { IsName bytes.now }
        ensures { IfOk result (λ name. name ≡ bytes.now) }
    {
        match SmallVec::from_slice(alloc, bytes) {
            Ok(bytes) => Ok(Name { bytes }),
            Err(_) => Err(Memory),
        }
    }

    /// Its bytes.
    #[inline]
    pub fn bytes(&self) -> &[u8]
        ensures bytes { result.now ≡ self.now }
        ensures name { IsName self.now }
    {
        self.bytes.as_slice()
    }
}

/// Whether a name may start with this byte.
pub fn is_name_start(byte: u8) -> bool
    ensures { result ≡ is_name_start byte }
{
    byte.is_ascii_alphabetic() || byte == b'_'
}

/// Whether a name may go on with this byte.
pub fn is_name_byte(byte: u8) -> bool
    ensures { result ≡ is_name_byte byte }
{
    is_name_start(byte) || byte.is_ascii_digit() || matches!(byte, b'-' | b'.' | b':')
}

fn is_name(bytes: &[u8]) -> bool
    ensures { result ≡ is_name bytes.now }
{
    match bytes.split_first() {
        Some((first, rest)) => is_name_start(*first) && are_name_bytes(rest),
        None => false,
    }
}

fn are_name_bytes(bytes: &[u8]) -> bool
    ensures { result ≡ list_all is_name_byte bytes.now }
{
    bytes.iter().all(|byte| is_name_byte(*byte))
}
