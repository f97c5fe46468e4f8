//! Texts without the NULs at their end.

ghost use Rattle.std.specs.Prelude.{◌≡◌, ◌<◌, ◌≤◌, take, length, slice_index};
ghost use Rattle.std.specs.String.{string_bytes};
ghost use Rattle.xls_props.specs.Values.{without_nuls};

// How many bytes stand before the NULs at the end.
fn len_without_nuls(bytes: &[u8]) -> usize
    ensures prefix { take result bytes.now ≡ without_nuls bytes.now }
    ensures within { result ≤ length bytes.now }
    ensures nul { result < length bytes.now → slice_index bytes.now result ≡ 0 }
{
    let mut n = bytes.len();
    'nuls: while n > 0 {
        if bytes[n - 1] != 0 {
            return n;
        }
        n -= 1;
    }
    0
}

/// Takes the NULs off the end of a text.
pub(crate) fn drop_nuls(s: &mut String)
    ensures { string_bytes s.new ≡ without_nuls (string_bytes s.old) }
{
    let n = len_without_nuls(s.as_bytes());
    s.truncate(n);
}
