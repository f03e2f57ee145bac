// Which release of the library this is: the one call that returns no refusal number.
ghost use Rattle.std.specs.Prelude.{◌≡◌};
ghost use Rattle.simmergate.specs.Release.{release};

// The number of the release.
const RELEASE: u32 = 3;

// Tells the number of the release.
pub fn simmergate_release() -> u32
    ensures { result ≡ release }
{
    RELEASE
}
