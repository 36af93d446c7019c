// The primes of the description, by its names.
pub(crate) const PRIME32_1: u64 = 0x9e37_79b1;

pub(crate) const PRIME32_2: u64 = 0x85eb_ca77;

pub(crate) const PRIME32_3: u64 = 0xc2b2_ae3d;

pub(crate) const PRIME64_1: u64 = 0x9e37_79b1_85eb_ca87;

pub(crate) const PRIME64_2: u64 = 0xc2b2_ae3d_27d4_eb4f;

pub(crate) const PRIME64_3: u64 = 0x1656_67b1_9e37_79f9;

pub(crate) const PRIME64_4: u64 = 0x85eb_ca77_c2b2_ae63;

pub(crate) const PRIME64_5: u64 = 0x27d4_eb2f_1656_67c5;

pub(crate) const PRIME_MX1: u64 = 0x1656_6791_9e37_79f9;

pub(crate) const PRIME_MX2: u64 = 0x9fb2_1c65_1e98_df25;
