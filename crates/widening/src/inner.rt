// For the library's own crates: the caller shows what the function requires.
ghost use Rattle.std.specs.Prelude.{◌≡◌, ◌++◌, ◌≤◌, length, drop};

// Writes bytes to the front of the symbols, each as the same number.
pub fn widen(bytes: &[u8], wide: &mut [u16])
    requires { length bytes.now ≤ length wide.old }
    ensures { wide.new ≡ bytes.now ++ drop (length bytes.now) wide.old }
{
    for (i, byte) in bytes.iter().enumerate() {
        wide[i] = u16::from(*byte);
    }
}
