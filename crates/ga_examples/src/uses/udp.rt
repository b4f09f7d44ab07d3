//! A datagram that is written and read back.
ghost use Rattle.ga_uses.specs.Udp.{datagram_of};
ghost use Rattle.generic_array.specs.Views.{items_of_view};
ghost use Rattle.std.specs.Prelude.{◌≡◌, ◌-◌, ◌^◌, ◌<◌, ◌≤◌, Ok, drop, length};

use ga_uses::udp::{HeaderError, number, parse, write_header};
use generic_array::{GenericArrayRef, U4};

/// The ports and the length of the payload, as `parse` reads back what `write_header` wrote.
fn read_back(
    datagram: &mut [u8],
    source_address: GenericArrayRef<'_, u8, U4>,
    destination_address: GenericArrayRef<'_, u8, U4>,
    source: u16,
    destination: u16,
) -> Result<(u16, u16, usize), HeaderError>
    requires room { 8 ≤ length datagram.old }
    requires fits { length datagram.old < 2 ^ 16 }
    ensures written { datagram.new
        ≡ datagram_of (items_of_view source_address.entry)
        (items_of_view destination_address.entry) source
        destination (drop 8 datagram.old) }
    ensures read { result ≡ Ok (source, destination, length datagram.old - 8) }
{
    write_header(
        datagram,
        source_address,
        destination_address,
        source,
        destination,
    );
    let read = parse(datagram)?;
    Ok((
        number(read.source),
        number(read.destination),
        read.payload.len(),
    ))
}
