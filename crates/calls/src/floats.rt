// The bits of a binary32. A NaN has none of its own.
use std::fmt;

// The number of a pattern; a NaN's gives a NaN.
#[tactic(auto, using(std::proofs::lemmas::Float::not_nan_f32_bits))]
pub fn of_bits(bits: u32) -> f32 {
    if bits % 0x8000_0000 <= 0x7f80_0000 {
        return f32::from_bits(bits);
    }
    f32::NAN
}

// A number's pattern in decimal, or `nan`.
#[derive(Clone, Copy)]
pub struct Pattern(pub f32);

impl fmt::Display for Pattern {
    fn fmt<W: fmt::Write>(&self, f: &mut fmt::Formatter<W>) -> fmt::Result {
        let x = self.0;
        if x.is_nan() {
            return write!(f, "nan");
        }
        write!(f, "{}", x.to_bits())
    }
}
