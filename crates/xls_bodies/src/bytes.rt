//! Bytes that are borrowed, or in memory of their own.

ghost use Rattle.std.specs.Prelude.{◌≡◌};
ghost use Rattle.xls_bodies.specs.Bodies.{bytes_of};

/// The bytes of a body.
#[derive(Drop)]
pub enum Bytes<'a> {
    /// They stand in the stream one behind the other.
    Lent(&'a [u8]),
    /// They stand in more than one record.
    Joined(Vec<u8>),
}

impl<'a> Bytes<'a> {
    /// All of them. Takes no memory.
    pub fn as_slice(&self) -> &[u8]
        ensures { result.now ≡ bytes_of self.now }
    {
        match self {
            Bytes::Lent(bytes) => bytes,
            Bytes::Joined(bytes) => bytes.as_slice(),
        }
    }
}
