//! A message as bytes and back.
ghost use Rattle.ga_core_examples.specs.Messages.{bytes_of, message_in};
ghost use Rattle.std.specs.Prelude.{◌≡◌, IfSome, Some};

use ga_core::{ArrayBuilder, GenericArray, U4, U8};

/// What one node sends to another.
#[derive(Drop)]
pub enum Message {
    /// Asks for an answer.
    Ping,
    /// Asks for the value of a key.
    Get(GenericArray<u8, U4>),
    /// Sets the value of a key.
    Put(GenericArray<u8, U4>, u16),
    /// Ends the talk for a reason.
    Bye(u8),
}

/// The bytes of a message: a kind, and the fields in order, numbers with the highest byte first.
pub fn encode(message: &Message) -> ArrayBuilder<u8, U8>
    ensures { result ≡ bytes_of message.now }
{
    let mut bytes = ArrayBuilder::new();
    match message {
        Message::Ping => bytes.push(0),
        Message::Get(key) => {
            bytes.push(1);
            bytes.extend_from_slice(key.as_slice());
        }
        Message::Put(key, value) => {
            bytes.push(2);
            bytes.extend_from_slice(key.as_slice());
            bytes.extend_from_slice(&value.to_be_bytes());
        }
        Message::Bye(reason) => {
            bytes.push(3);
            bytes.push(*reason);
        }
    }
    bytes
}

/// The message of these bytes, or `None` where they are no message's.
pub fn decode(bytes: &[u8]) -> Option<Message>
    ensures message { result ≡ message_in bytes.now }
    ensures bytes { IfSome result (λ message. bytes_of message ≡ bytes.now) }
{
    match bytes {
        [0] => Some(Message::Ping),
        [1, a, b, c, d] => Some(Message::Get(GenericArray::from_array([*a, *b, *c, *d]))),
        [2, a, b, c, d, high, low] => Some(Message::Put(
            GenericArray::from_array([*a, *b, *c, *d]),
            u16::from_be_bytes([*high, *low]),
        )),
        [3, reason] => Some(Message::Bye(*reason)),
        _ => None,
    }
}

/// Encodes a message and decodes its bytes, which returns the message. It goes by value: a field
/// behind a `&` has no range.
pub fn there_and_back(message: Message) -> Option<Message>
    ensures { result ≡ Some message }
{
    decode(encode(&message).as_slice())
}
