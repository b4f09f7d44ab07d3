//! The header of an Ethernet frame: made of its fields by `concat`, and read by `split`.
ghost use Rattle.ga_uses.specs.Ethernet.{header_bytes};
ghost use Rattle.std.specs.Prelude.{◌≡◌, drop, take};

use generic_array::sequence::{Concat, Split};
use generic_array::{GenericArray, U2, U6, U8, U14};

/// The address of a device.
pub type Address = GenericArray<u8, U6>;

/// The fields of a header, in the order in which their bytes are sent.
#[derive(Drop)]
pub struct Header {
    /// The device that the frame goes to.
    pub destination: Address,
    /// The device that it comes from.
    pub source: Address,
    /// What the payload is, by a number of two bytes: 0x0800 is an IPv4 packet.
    pub kind: GenericArray<u8, U2>,
}

/// The bytes of a header.
pub fn to_bytes(header: Header) -> GenericArray<u8, U14>
    ensures whole { result ≡ header_bytes header }
    ensures destination { take 6 result ≡ header.destination }
    ensures source { take 6 (drop 6 result) ≡ header.source }
    ensures kind { drop 6 (drop 6 result) ≡ header.kind }
{
    let Header {
        destination,
        source,
        kind,
    } = header;
    let behind: GenericArray<u8, U8> = source.concat(kind);
    destination.concat(behind)
}

/// The fields of these bytes.
pub fn from_bytes(bytes: GenericArray<u8, U14>) -> Header
    ensures destination { result.destination ≡ take 6 bytes }
    ensures source { result.source ≡ take 6 (drop 6 bytes) }
    ensures kind { result.kind ≡ drop 6 (drop 6 bytes) }
    ensures whole { header_bytes result ≡ bytes }
{
    let (destination, behind): (Address, GenericArray<u8, U8>) = bytes.split();
    let (source, kind) = behind.split();
    Header {
        destination,
        source,
        kind,
    }
}

/// What is made of a header is read as that header: a law of the two calls. Their own clauses say
/// what each makes.
pub fn read_back(header: Header) -> Header
    ensures { result ≡ header }
{
    from_bytes(to_bytes(header))
}
