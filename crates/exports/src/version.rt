// The version of the interface.
ghost use Rattle.std.specs.Prelude.{◌≡◌};

// A thousand times the major number, and the minor one: 4.0.
#[unsafe(no_mangle)]
pub extern "C" fn jambharrow_version() -> u32
    ensures { result ≡ 4000 }
{
    4000
}
