// An answer that counts, as one number.
ghost use Rattle.std.specs.Prelude.{◌≡◌};
ghost use Rattle.boundary.specs.Rows.{counted};

// The count; refused, document 01's number below zero, in two's complement.
pub(crate) fn counted(answer: Result<usize, u64>) -> u64
    ensures { result ≡ counted (λ number. number) answer }
{
    match answer {
        Ok(n) => n as u64,
        Err(number) => number.wrapping_neg(),
    }
}
