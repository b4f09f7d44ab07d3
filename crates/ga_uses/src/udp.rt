//! UDP datagrams, as RFC 768 has them: read, summed and written through views.
ghost use Rattle.generic_array.specs.Views.{items_of_chunks, items_of_view};
ghost use Rattle.ga_uses.specs.Udp.{IsDatagram, checksum_of, complement_of, datagram_of, header_of, number_of, sum_with_carry, summed_bytes, words};
ghost use Rattle.generic_array.specs.Rows.{rows};
ghost use Rattle.std.specs.Prelude.{◌≡◌, ◌+◌, ◌^◌, ◌<◌, ◌≤◌, ◌↔◌, Err, IfOk, IsOk, Some, drop, fold, length, map, slice_range};

use generic_array::functional::FunctionalSequence;
use generic_array::sequence::Split;
use generic_array::{ChunksMut, ChunksRef, GenericArray, GenericArrayRef, U2, U4, U6, U8};
use std::error::Error;
use std::fmt;

/// Why bytes are no datagram.
#[derive(Clone, Copy, Debug, PartialEq, Eq)]
pub enum HeaderError {
    /// There are fewer bytes than a header has.
    TooShort,
    /// The length field says another number of bytes.
    OtherLength,
}

impl fmt::Display for HeaderError {
    ghost use Rattle.ga_uses.specs.HeaderError.{error_text};

    ghost output = { λ error. Some (error_text error) };

    ghost styled_output = { λ error _. Some (error_text error) };

    fn fmt<W: fmt::Write>(&self, f: &mut fmt::Formatter<W>) -> fmt::Result {
        f.write_str(match self {
            HeaderError::TooShort => "fewer bytes than a header of UDP has",
            HeaderError::OtherLength => "another number of bytes than the length field says",
        })
    }
}

impl Error for HeaderError {}

/// The fields of a datagram, as the bytes that they are, and its payload. Nothing is copied.
#[derive(Clone, Copy)]
pub struct Datagram<'a> {
    /// The port that it comes from.
    pub source: GenericArrayRef<'a, u8, U2>,
    /// The port that it goes to.
    pub destination: GenericArrayRef<'a, u8, U2>,
    /// The number of bytes of header and payload.
    pub length: GenericArrayRef<'a, u8, U2>,
    /// The checksum, which is zero where the sender made none.
    pub checksum: GenericArrayRef<'a, u8, U2>,
    /// What follows the header.
    pub payload: &'a [u8],
}

/// The fields and the payload, or why the bytes are no datagram. O(1).
pub fn parse(datagram: &[u8]) -> Result<Datagram<'_>, HeaderError>
    ensures variant { IsOk result ↔ IsDatagram datagram.now }
    ensures short { (result ≡ Err HeaderError.TooShort) ↔ (length datagram.now < 8) }
    ensures other_length { (result ≡ Err HeaderError.OtherLength)
        ↔ ((8 ≤ length datagram.now) × ¬ IsDatagram datagram.now) }

    ensures source { IfOk result (λ read.
        items_of_view read.source ≡ slice_range datagram.now 0 2) }
    ensures destination { IfOk result (λ read.
        items_of_view read.destination ≡ slice_range datagram.now 2 4) }
    ensures len { IfOk result (λ read. items_of_view read.length ≡ slice_range datagram.now 4 6) }
    ensures checksum { IfOk result (λ read.
        items_of_view read.checksum ≡ slice_range datagram.now 6 8) }
    ensures payload { IfOk result (λ read. read.payload.now ≡ drop 8 datagram.now) }
{
    if datagram.len() < 8 {
        return Err(HeaderError::TooShort);
    }
    let (header, payload) = datagram.split_at(8);
    let header: GenericArrayRef<u8, U8> = GenericArrayRef::from_slice(header);
    let (ports, behind): (GenericArrayRef<u8, U4>, GenericArrayRef<u8, U4>) = header.split();
    let (source, destination) = ports.split();
    let (length, checksum) = behind.split();
    if number(length) as usize != datagram.len() {
        return Err(HeaderError::OtherLength);
    }
    Ok(Datagram {
        source,
        destination,
        length,
        checksum,
        payload,
    })
}

/// The number in a field.
pub fn number(field: GenericArrayRef<'_, u8, U2>) -> u16
    ensures { result ≡ number_of (items_of_view field.entry) }
{
    let bytes = field.into_slice();
    bytes[0] as u16 * 0x100 + bytes[1] as u16
}

/// The checksum of a datagram between two addresses, as it is sent: where it comes to 0, all ones.
pub fn checksum(
    source_address: GenericArrayRef<'_, u8, U4>,
    destination_address: GenericArrayRef<'_, u8, U4>,
    source: u16,
    destination: u16,
    payload: &[u8],
) -> u16
    requires fits { 8 + length payload.now < 2 ^ 16 }
    ensures { result
        ≡ checksum_of (summed_bytes (items_of_view source_address.entry)
        (items_of_view destination_address.entry) source destination payload.now) }
{
    // The sum of the addresses, the protocol, the length, the header, whose checksum counts as 0,
    // and the payload.
    let len = (8 + payload.len()) as u16;
    let between = GenericArray::<u16, U6>::from_array([17, len, source, destination, len, 0]);
    let first = with_words(0, source_address.into_slice());
    let addresses = with_words(first, destination_address.into_slice());
    let header = between.fold(addresses, with_carry);
    complement(with_words(header, payload))
}

// The checksum that is sent for a sum.
fn complement(sum: u16) -> u16
    ensures { result ≡ complement_of sum }
{
    match u16::MAX - sum {
        0 => u16::MAX,
        complement => complement,
    }
}

// The sum with the words of the bytes added, one after the other. Behind an odd last byte there is
// a 0.
fn with_words(sum: u16, bytes: &[u8]) -> u16
    ensures { result ≡ fold sum_with_carry sum (words bytes.now) }
{
    let (rows, rest) = ChunksRef::<u8, U2>::chunks_from_slice(bytes);
    let total = with_rows(sum, rows);
    match rest {
        [last] => with_carry(total, *last as u16 * 0x100),
        _ => total,
    }
}

// The same over whole words, each a row of two bytes.
fn with_rows(sum: u16, words: ChunksRef<'_, u8, U2>) -> u16
    ensures { result ≡ fold sum_with_carry sum
        (map number_of (rows 2 (items_of_chunks words.entry))) }
{
    words.iter().map(number).fold(sum, with_carry)
}

// The sum of one's complement of two words.
fn with_carry(sum: u16, word: u16) -> u16
    ensures { result ≡ sum_with_carry sum word }
{
    let total = sum as u32 + word as u32;
    (total % 0x1_0000 + total / 0x1_0000) as u16
}

/// Writes the header of a datagram into the first eight bytes. The payload is behind them already.
pub fn write_header(
    datagram: &mut [u8],
    source_address: GenericArrayRef<'_, u8, U4>,
    destination_address: GenericArrayRef<'_, u8, U4>,
    source: u16,
    destination: u16,
)
    requires room { 8 ≤ length datagram.old }
    requires fits { length datagram.old < 2 ^ 16 }
    ensures { datagram.new
        ≡ datagram_of (items_of_view source_address.entry)
        (items_of_view destination_address.entry) source
        destination (drop 8 datagram.old) }
{
    let len = datagram.len() as u16;
    let (header, payload) = datagram.split_at_mut(8);
    let checksum = checksum(
        source_address,
        destination_address,
        source,
        destination,
        payload,
    );
    write_fields(header, source, destination, len, checksum);
}

// Writes the four fields, each as a row of two bytes.
fn write_fields(header: &mut [u8], source: u16, destination: u16, len: u16, checksum: u16)
    requires { length header.old ≡ 8 }
    ensures { header.new ≡ header_of source destination len checksum }
{
    let mut fields: ChunksMut<u8, U2> = ChunksMut::over(header);
    fields.row_mut(0).copy_from_slice(&source.to_be_bytes());
    fields
        .row_mut(1)
        .copy_from_slice(&destination.to_be_bytes());
    fields.row_mut(2).copy_from_slice(&len.to_be_bytes());
    fields.row_mut(3).copy_from_slice(&checksum.to_be_bytes());
}
