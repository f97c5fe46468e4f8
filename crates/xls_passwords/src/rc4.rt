//! RC4: a key stream of bytes, of a key.

ghost use Rattle.std.specs.Prelude.{◌≡◌, ◌%◌, length, slice_index};
ghost use Rattle.xls_passwords.specs.Rc4.{keyed, next_state, output};

/// The state of a key stream: a permutation of the bytes, and two places in it.
#[derive(Clone, Copy)]
pub(crate) struct Rc4 {
    s: [u8; 256],
    i: u8,
    j: u8,
}

// The byte of a key that step i takes. An empty key is all zeros.
fn key_at(key: &[u8], i: usize) -> u8
    ensures { result ≡ slice_index key.now (i % length key.now) }
{
    if key.is_empty() {
        return 0;
    }
    key[i % key.len()]
}

impl Rc4 {
    /// The state that a key gives, before the first byte of its stream.
    pub(crate) fn new(key: &[u8]) -> Rc4
        ensures exact { result ≡ keyed key.now }
    {
        let mut s = [0u8; 256];
        'bytes: for i in 0..256 {
            s[i] = i as u8;
        }
        let mut j = 0u8;
        'steps: for i in 0..256 {
            j = j.wrapping_add(s[i]).wrapping_add(key_at(key, i));
            s.swap(i, usize::from(j));
        }
        Rc4 { s, i: 0, j: 0 }
    }

    /// The next byte of the stream.
    pub(crate) fn next(&mut self) -> u8
        ensures exact { result ≡ output self.new }
        ensures state { self.new ≡ next_state self.old }
    {
        self.i = self.i.wrapping_add(1);
        self.j = self.j.wrapping_add(self.s[usize::from(self.i)]);
        self.s.swap(usize::from(self.i), usize::from(self.j));
        let sum = self.s[usize::from(self.i)].wrapping_add(self.s[usize::from(self.j)]);
        self.s[usize::from(sum)]
    }
}
