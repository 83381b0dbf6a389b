ghost use Rattle.std.specs.Prelude.{◌≡◌, ◌≤◌, ◌++◌, Some, IfOk, OnOk, OnErr};
ghost use Rattle.line_outside.specs.Address.{address_of};
ghost use Rattle.line_outside.specs.Written.{address_text};

use crate::Address;
use crate::address_proper::address_is_proper;
use line_base::Memory;
use std::alloc::Global;
use std::io::Write;

/// Appends the spelling of an address, or leaves `to` as it was where memory is wanting.
///
/// What is written of an address whose port isn't 0 is read as that address.
pub fn write_address(address: &Address, to: &mut Vec<u8>) -> Result<(), Memory>
    ensures written { OnOk result (to.new.items ≡ to.old.items ++ address_text address.now) }
    ensures unchanged { OnErr result (to.new.items ≡ to.old.items) }
    ensures reads_back { 1 ≤ address.now.port
        → address_of (address_text address.now) ≡ Some address.now }
{
    address_is_proper(*address);
    let text = text_of(*to.allocator(), *address)?;
    match to.extend_from_slice(text.as_slice()) {
        Ok(()) => Ok(()),
        Err(_) => Err(Memory),
    }
}

fn text_of(alloc: Global, address: Address) -> Result<Vec<u8>, Memory>
    ensures { IfOk result (λ text. text.items ≡ address_text address) }
{
    let [a, b, c, d] = address.host;
    let port = address.port;
    let mut text = Vec::new(alloc);
    match write!(text, "{a}.{b}.{c}.{d}:{port}") {
        Ok(()) => Ok(text),
        Err(_) => Err(Memory),
    }
}
