ghost use Rattle.std.specs.Prelude.{◌≡◌, ◌≢◌, pos, int_div, int_rem};
ghost use Rattle.atom_ops.specs.Floored.{IsFloored, is_beside};

/// A quotient, and what is left.
#[derive(Clone, Copy)]
pub(crate) struct Parts {
    pub(crate) quotient: i128,
    pub(crate) remainder: i128,
}

/// Divides and rounds toward 0.
fn truncated(a: i64, b: i64) -> Parts
    requires { b ≢ pos 0 }
    ensures quotient { result.quotient ≡ int_div a b }
    ensures remainder { result.remainder ≡ int_rem a b }
{
    let a = i128::from(a);
    let b = i128::from(b);
    Parts {
        quotient: a / b,
        remainder: a % b,
    }
}

/// Whether what is left has the sign of the divisor, or is 0.
fn stands_beside(remainder: i128, divisor: i64) -> bool
    ensures { result ≡ is_beside divisor remainder }
{
    if divisor < 0 {
        remainder <= 0
    } else {
        0 <= remainder
    }
}

/// Divides and rounds down.
pub(crate) fn floored(a: i64, b: i64) -> Parts
    requires { b ≢ pos 0 }
    ensures { IsFloored a b result.quotient result.remainder }
{
    let parts = truncated(a, b);
    if stands_beside(parts.remainder, b) {
        return parts;
    }
    Parts {
        quotient: parts.quotient - 1,
        remainder: parts.remainder + i128::from(b),
    }
}
