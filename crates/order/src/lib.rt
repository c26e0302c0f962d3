// The greatest of some bytes.
#![tactic(auto)]

ghost use Rattle.std.specs.Prelude.{◌≡◌};
ghost use Rattle.order.specs.Highest.{highest_of};

// The greatest of the bytes, or 0.
pub fn highest(bytes: &[u8]) -> u8
    ensures { result ≡ highest_of bytes.now }
{
    let mut most = 0;
    for &b in bytes {
        most = most.max(b);
    }
    most
}
