// The float of a bit pattern. The language keeps one NaN, which is the float of every pattern of a NaN.
#![tactic(auto)]

ghost use Rattle.std.specs.Prelude.{◌≡◌};
ghost use Rattle.std.specs.Float.{binary64};
ghost use Rattle.std.specs.Float.Ieee.{of_bits};

// The bits of an infinity, above which a NaN's lie, and the sign's.
const INFINITY: u64 = 0x7ff0_0000_0000_0000;

const SIGN: u64 = 0x8000_0000_0000_0000;

pub fn float_of(bits: u64) -> f64
    ensures { result ≡ of_bits binary64 bits }
{
    if INFINITY < bits % SIGN {
        return f64::NAN;
    }
    f64::from_bits(bits)
}
