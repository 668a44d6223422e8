//! The version of the library.

ghost use Rattle.std.specs.Prelude.{◌≡◌};

/// `PALMHEAP_VERSION_NUMBER` of the header: 0.1.0.
const VERSION_NUMBER: u32 = 1_000;

/// Returns the version of the library: a million for each of the first number, a thousand for each
/// of the second.
#[unsafe(no_mangle)]
pub extern "C" fn palmheap_version() -> u32
    ensures { result ≡ 1000 }
{
    VERSION_NUMBER
}
