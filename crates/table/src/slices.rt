// Whole slices: copied, and lent as arrays.
ghost use Rattle.std.specs.Prelude.{◌≡◌, length};
ghost use Rattle.std.specs.Borrow.{sem, Lends, Array};

// `copy_from_slice` is compiled as a call of memmove where the length is no constant, and a host need have none (include/obriska.h); this
// loop is compiled as memcpy or as stores.
pub fn copy<T: Copy>(src: &[T], out: &mut [T])
    requires { length out.old ≡ length src.now }
    ensures { out.new ≡ src.now }
{
    for (i, x) in src.iter().enumerate() {
        out[i] = *x;
    }
}

// A slice whose length was tested, as the array that it is.
pub fn whole<T, const N: usize>(part: &mut [T]) -> &mut [T; N]
    requires { length part.old ≡ N }
    ensures* writes_back { sem 𝓛 (Lends (Array T.row 0) (Array T.row 0) part.entry result (λ ws. ws)) }
    ensures value { result.now ≡ part.old }
{
    match part.as_mut_array() {
        Some(array) => array,
        None => unreachable!(),
    }
}
