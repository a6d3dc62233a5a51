//! The numbers of samples, and the limits of sweeps and of workers (this project's rule).

/// The multiplier of the generator, 7^5.
pub const MULTIPLIER: u64 = 16_807;

/// The modulus of the generator, the prime 2^31 - 1.
pub const MODULUS: u64 = 2_147_483_647;

/// The greatest number of a sample, the greatest state of the generator.
pub const MOST_SAMPLE_NUMBER: u32 = 2_147_483_646;

/// The most streams of a sample on one side.
pub const MOST_SAMPLE_STREAMS: u32 = 12;

/// The contribution of a sample, in tenths of °C.
pub const SAMPLE_CONTRIBUTION: i32 = 50;

/// The least target of a hot stream of a sample, in tenths of °C.
pub const LEAST_HOT_TEMPERATURE: u32 = 300;

/// How many temperatures are drawn from, in tenths of °C.
pub const TEMPERATURES: u32 = 1500;

/// How many heat-capacity flows are drawn from, in 10 W/K.
pub const FLOW_RATES: u32 = 500;

/// A pair of a sample is forbidden at one draw out of so many.
pub const FORBID_CHANCE: u32 = 4;

/// The greatest step of a sweep, in tenths of °C.
pub const LONGEST_STEP: i32 = 1000;

/// The most rows of a sweep.
pub const MOST_ROWS: u32 = 1000;

/// The most workers.
pub const MOST_WORKERS: u32 = 16;
