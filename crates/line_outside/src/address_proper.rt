ghost use Rattle.line_outside.specs.Written.{IsProperAddress};

use crate::Address;

/// An address has four parts of 8 bits and a port of 16, by its type.
///
/// The call states it: it goes over the address, and changes nothing.
pub fn address_is_proper(address: Address)
    ensures { IsProperAddress address }
{
    let [_a, _b, _c, _d] = address.host;
    let _port = address.port;
}
